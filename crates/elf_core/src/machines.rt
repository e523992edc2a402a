//! The numbers of machines (`e_machine`).
ghost use Rattle.std.specs.Prelude.{◌≡◌};
ghost use Rattle.elf_core.specs.Machines.{machine_of_name};

/// EM_386 to EM_LOONGARCH (elf.h).
pub const I386: u16 = 3;

pub const PPC64: u16 = 21;

pub const S390: u16 = 22;

pub const ARM: u16 = 40;

pub const X86_64: u16 = 62;

pub const AARCH64: u16 = 183;

pub const RISCV: u16 = 243;

pub const LOONGARCH: u16 = 258;

/// EM_NONE.
pub const NONE: u16 = 0;

/// Returns the number of the machine that Linux calls by this name (`machine` of `struct new_utsname`).
pub fn machine_of_name(name: &[u8]) -> u16
    ensures { result ≡ machine_of_name name.now }
{
    if name == b"x86_64".as_slice() {
        X86_64
    } else if name == b"aarch64".as_slice() {
        AARCH64
    } else if name == b"i386".as_slice() || name == b"i686".as_slice() {
        I386
    } else if name == b"riscv64".as_slice() {
        RISCV
    } else if name == b"ppc64le".as_slice() {
        PPC64
    } else if name == b"s390x".as_slice() {
        S390
    } else if name == b"loongarch64".as_slice() {
        LOONGARCH
    } else if name.starts_with(b"arm") {
        ARM
    } else {
        NONE
    }
}
