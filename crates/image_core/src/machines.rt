ghost use Rattle.std.specs.Prelude.{◌≡◌, length};
ghost use Rattle.definitions.specs.InfoPage.{text_of_name};
ghost use Rattle.image_check.specs.Info.{is_version_text};
ghost use Rattle.image_core.specs.Identity.{arch_machine, machine_of};

use byte_streams::is_printable;
use elf_core::machines::{AARCH64, NONE, X86_64, machine_of_name};
use page_core::Page;

/// The offsets of the version code and of the machine's name (`struct swsusp_info`, kernel/power/power.h).
const VERSION_CODE: usize = 392;

const MACHINE: usize = 260;

const NAME_SIZE: usize = 65;

/// RESTORE_MAGIC (arch/x86/power/hibernate.c), and the index of its word.
const MAGIC: u64 = 0x2345_6789_abcd_ef02;

const MAGIC_WORD: usize = 3;

/// Returns the number of the machine of an info page, from the machine's name or from the header of its architecture.
#[tactic(auto, unfolding(crate::specs::Identity::machine_of))]
pub(crate) fn machine_of(info: &Page) -> u16
    ensures { result ≡ machine_of info.now }
{
    if info.u32_at(VERSION_CODE) == 0 {
        arch_machine(info)
    } else {
        let name = &info.as_bytes()[MACHINE..MACHINE + NAME_SIZE];
        machine_of_name(&name[..text_len(name)])
    }
}

fn arch_machine(info: &Page) -> u16
    ensures { result ≡ arch_machine info.now }
{
    if info.word(MAGIC_WORD) == MAGIC {
        X86_64
    } else if is_version_text(&info.as_bytes()[..NAME_SIZE]) {
        AARCH64
    } else {
        NONE
    }
}

/// Returns whether these bytes are a version text that has an end.
fn is_version_text(name: &[u8]) -> bool
    ensures { result ≡ is_version_text (text_of_name name.now) }
{
    let len = text_len(name);
    0 < len && len < NAME_SIZE && is_printable(&name[..len])
}

/// Returns how many bytes a name has before its first zero byte.
fn text_len(name: &[u8]) -> usize
    ensures { result ≡ length (text_of_name name.now) }
{
    name.iter().take_while(|b| **b != 0).count()
}
