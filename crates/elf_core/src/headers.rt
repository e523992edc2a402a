ghost use Rattle.std.specs.Prelude.{◌≡◌, ◌<◌, ◌≤◌, ◌^◌};
ghost use Rattle.elf_core.specs.Elf.{file_header_bytes, head_size, is_many, load_bytes, note_header_bytes};
ghost use Rattle.elf_core.specs.Elf.{note_offset, padding, page_offset, program_header_half, section_count};
ghost use Rattle.elf_core.specs.Elf.{section_offset, section_size};

use crate::pieces::{Piece, put_half, put_word, put_xword};

/// ELFMAG, ELFCLASS64, ELFDATA2LSB, EV_CURRENT and ELFOSABI_NONE (`e_ident`).
const IDENT: [u8; 16] = [127, 69, 76, 70, 2, 1, 1, 0, 0, 0, 0, 0, 0, 0, 0, 0];

const EV_CURRENT: u32 = 1;

const ET_CORE: u16 = 4;

const PT_LOAD: u32 = 1;

const PT_NOTE: u32 = 4;

/// PF_R, PF_W and PF_X.
const ALL_FLAGS: u32 = 7;

/// The value of `e_phnum` if the section header has the number of program headers.
const PN_XNUM: u16 = 0xffff;

/// The sizes of the structures in bytes.
const FILE_HEADER: u16 = 64;

const PROGRAM_HEADER: u16 = 56;

const SECTION_HEADER: u16 = 64;

/// The size of the note with its name and its descriptor, and the size with the zeros before the section header.
const NOTE: u64 = 420;

const NOTE_ROOM: u64 = 424;

const SECTION_ROOM: u64 = 68;

const PAGE: u64 = 4096;

/// Returns the file header of a core file with `runs` runs.
#[tactic(auto, unfolding(crate::specs::Elf::file_header_bytes))]
pub fn file_header(machine: u16, runs: u32) -> Piece
    ensures { result ≡ file_header_bytes machine runs }
{
    let mut piece = Piece::new();
    piece.put(&IDENT);
    put_half(&mut piece, ET_CORE);
    put_half(&mut piece, machine);
    put_word(&mut piece, EV_CURRENT);
    put_xword(&mut piece, 0);
    put_xword(&mut piece, u64::from(FILE_HEADER));
    put_xword(&mut piece, section_offset(runs));
    put_word(&mut piece, 0);
    put_half(&mut piece, FILE_HEADER);
    put_half(&mut piece, PROGRAM_HEADER);
    put_half(&mut piece, program_header_half(runs));
    put_half(&mut piece, SECTION_HEADER);
    put_half(&mut piece, section_count(runs));
    put_half(&mut piece, 0);
    piece
}

/// Returns the program header of a run of page frames whose pages lie from `offset` on.
#[tactic(auto, unfolding(crate::specs::Elf::load_bytes))]
pub fn load(offset: u64, first: u64, count: u64) -> Piece
    requires first { first < 2 ^ 52 }
    requires count { count < 2 ^ 52 }
    ensures { result ≡ load_bytes offset first count }
{
    let mut piece = Piece::new();
    put_word(&mut piece, PT_LOAD);
    put_word(&mut piece, ALL_FLAGS);
    put_xword(&mut piece, offset);
    put_xword(&mut piece, PAGE * first);
    put_xword(&mut piece, PAGE * first);
    put_xword(&mut piece, PAGE * count);
    put_xword(&mut piece, PAGE * count);
    put_xword(&mut piece, PAGE);
    piece
}

/// Returns the program header of the note.
#[tactic(auto, unfolding(crate::specs::Elf::note_header_bytes))]
pub fn note_header(runs: u32) -> Piece
    ensures { result ≡ note_header_bytes runs }
{
    let mut piece = Piece::new();
    put_word(&mut piece, PT_NOTE);
    put_word(&mut piece, 0);
    put_xword(&mut piece, note_offset(runs));
    put_xword(&mut piece, 0);
    put_xword(&mut piece, 0);
    put_xword(&mut piece, NOTE);
    put_xword(&mut piece, NOTE);
    put_xword(&mut piece, 4);
    piece
}

/// Returns the place of the first page.
pub fn page_offset(runs: u32) -> u64
    ensures place { result ≡ page_offset runs }
    ensures far { result < 2 ^ 40 }
{
    head_size(runs).div_ceil(PAGE) * PAGE
}

/// Returns the number of zeros before the first page.
pub fn padding(runs: u32) -> usize
    ensures count { result ≡ padding runs }
    ensures few { result < 4096 }
{
    (page_offset(runs) - head_size(runs)) as usize
}

/// Returns whether `e_phnum` can't hold the number of program headers.
pub(crate) fn is_many(runs: u32) -> bool
    ensures { result ≡ is_many runs }
{
    u64::from(PN_XNUM) <= u64::from(runs) + 1
}

fn program_header_half(runs: u32) -> u16
    ensures { result ≡ program_header_half runs }
{
    if is_many(runs) {
        PN_XNUM
    } else {
        (runs + 1) as u16
    }
}

fn section_count(runs: u32) -> u16
    ensures { result ≡ section_count runs }
{
    if is_many(runs) { 1 } else { 0 }
}

fn section_offset(runs: u32) -> u64
    ensures { result ≡ section_offset runs }
{
    if is_many(runs) {
        note_offset(runs) + NOTE_ROOM
    } else {
        0
    }
}

fn section_size(runs: u32) -> u64
    ensures size { result ≡ section_size runs }
    ensures few { result ≤ 68 }
{
    if is_many(runs) { SECTION_ROOM } else { 0 }
}

fn note_offset(runs: u32) -> u64
    ensures { result ≡ note_offset runs }
{
    u64::from(FILE_HEADER) + u64::from(PROGRAM_HEADER) * (u64::from(runs) + 1)
}

/// Returns the end of the note and the section header.
fn head_size(runs: u32) -> u64
    ensures size { result ≡ head_size runs }
    ensures far { result < 2 ^ 39 }
{
    note_offset(runs) + NOTE + section_size(runs)
}
