ghost use Rattle.std.specs.Prelude.{◌≡◌, ◌≤◌, ◌<◌, ◌^◌, length, IfOk, OnOk, IsTrue};
ghost use Rattle.core_machine.specs.Faults.{fault_in, unless};
ghost use Rattle.core_machine.specs.Heads.{entry_count, header_fault, machine_of, table_place};

use crate::segments::fault::Fault;
use crate::segments::numbers::{half, word, xword};

/// ELFMAG.
const MAGIC: [u8; 4] = [127, 69, 76, 70];

const ELFCLASS64: u8 = 2;

const ELFDATA2LSB: u8 = 1;

const EV_CURRENT: u8 = 1;

const ET_CORE: u16 = 4;

/// The sizes of the file header and of a program header, in bytes.
pub(crate) const FILE_HEADER: usize = 64;

pub(crate) const PROGRAM_HEADER: usize = 56;

/// The value of `e_phnum` if the number of program headers is stored elsewhere.
const PN_XNUM: u16 = 0xffff;

/// The last place at which something that is read may begin.
pub(crate) const LAST_PLACE: u64 = 1 << 48;

/// What the file header says: the machine, where the program headers begin, and how many there are.
#[derive(Clone, Copy)]
pub(crate) struct FileHeader {
    pub(crate) machine: u16,
    pub(crate) place: u64,
    pub(crate) count: u16,
}

/// Returns what a file header says, if it is that of a core file.
#[tactic(auto, unfolding(crate::specs::Heads::header_fault))]
pub(crate) fn file_header_of(header: &[u8]) -> Result<FileHeader, Fault>
    requires { length header.now ≡ 64 }
    ensures fault { fault_in result ≡ header_fault header.now }
    ensures machine { IfOk result (λ h. h.machine ≡ machine_of header.now) }
    ensures place { IfOk result (λ h. h.place ≡ table_place header.now) }
    ensures count { IfOk result (λ h. h.count ≡ entry_count header.now) }
    ensures few { IfOk result (λ h. h.count < 65535) }
    ensures after { IfOk result (λ h. 64 ≤ h.place) }
    ensures early { IfOk result (λ h. h.place ≤ 2 ^ 48) }
{
    check(header.starts_with(&MAGIC), Fault::Magic)?;
    let class = header[4];
    check(class == ELFCLASS64, Fault::Class { class })?;
    let order = header[5];
    check(order == ELFDATA2LSB, Fault::Order { order })?;
    let version = u32::from(header[6]);
    check(version == u32::from(EV_CURRENT), Fault::Version { version })?;
    let kind = half(header, 16);
    check(kind == ET_CORE, Fault::Type { kind })?;
    let version = word(header, 20);
    check(version == u32::from(EV_CURRENT), Fault::Version { version })?;
    let size = half(header, 54);
    check(size as usize == PROGRAM_HEADER, Fault::EntrySize { size })?;
    let count = half(header, 56);
    check(1 <= count && count < PN_XNUM, Fault::Entries { count })?;
    let place = xword(header, 32);
    check(
        FILE_HEADER as u64 <= place && place <= LAST_PLACE,
        Fault::Table { place },
    )?;
    let machine = half(header, 18);
    Ok(FileHeader {
        machine,
        place,
        count,
    })
}

/// Returns the fault unless the test passes.
pub(crate) fn check(test: bool, fault: Fault) -> Result<(), Fault>
    ensures fault { fault_in result ≡ unless test fault }
    ensures test { OnOk result (IsTrue test) }
{
    if test { Ok(()) } else { Err(fault) }
}
