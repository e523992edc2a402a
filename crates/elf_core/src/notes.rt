ghost use Rattle.std.specs.Prelude.{◌≡◌, ◌+◌, ◌<◌, ◌^◌, length};
ghost use Rattle.elf_core.specs.Elf.{note_bytes, section_bytes};

use crate::headers::is_many;
use crate::pieces::{Piece, put_word, put_xword};

/// The number of bytes of the note's name with its zero byte. It is filled to a multiple of 4.
const NAME_SIZE: u32 = 9;

/// The number of bytes of an identity.
const IDENTITY_SIZE: u32 = 396;

/// Returns the note, which holds an identity.
#[tactic(auto, unfolding(crate::specs::Elf::note_bytes))]
pub fn note(identity: &[u8]) -> Piece
    requires { length identity.now ≡ 396 }
    ensures { result ≡ note_bytes identity.now }
{
    let mut piece = Piece::new();
    put_word(&mut piece, NAME_SIZE);
    put_word(&mut piece, IDENTITY_SIZE);
    put_word(&mut piece, 1);
    piece.put(b"DIRUKOFE");
    piece.put(&[0; 4]);
    piece.put(identity);
    piece
}

/// Returns the section header, which has the number of program headers if the file header can't hold it.
#[tactic(auto, unfolding(crate::specs::Elf::section_bytes))]
pub fn section(runs: u32) -> Piece
    requires { runs + 1 < 2 ^ 32 }
    ensures { result ≡ section_bytes runs }
{
    let mut piece = Piece::new();
    if is_many(runs) {
        piece.put(&[0; 4]);
        put_word(&mut piece, 0);
        put_word(&mut piece, 0);
        put_xword(&mut piece, 0);
        put_xword(&mut piece, 0);
        put_xword(&mut piece, 0);
        put_xword(&mut piece, 0);
        put_word(&mut piece, 0);
        put_word(&mut piece, runs + 1);
        put_xword(&mut piece, 0);
        put_xword(&mut piece, 0);
    }
    piece
}
