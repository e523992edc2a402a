//! The info page of an image.
ghost use Rattle.std.specs.Prelude.{◌≡◌, ◌<◌, ◌≤◌, ◌++◌, length};
ghost use Rattle.definitions.specs.Bytes.{bytes_at};
ghost use Rattle.definitions.specs.InfoPage.{text_of_name};
ghost use Rattle.image_check.specs.Info.{is_version_text};
ghost use Rattle.image_show.specs.InfoFacts.{arch_facts, generic_facts, info_facts, start_facts, text_facts};
ghost use Rattle.image_show.specs.InfoFacts.{x86_facts};

use crate::facts::Facts;
use crate::facts::fact::{Fact, Header};
use byte_streams::{Name, is_printable};
use image_format::info::{Ident, decode};
use page_core::Page;

/// The most bytes of a version text, with its zero byte (`__NEW_UTS_LEN` + 1).
const TEXT_SIZE: usize = 65;

/// RESTORE_MAGIC (arch/x86/power/hibernate.c), and the index of its word.
const MAGIC: u64 = 0x2345_6789_abcd_ef02;

const MAGIC_WORD: usize = 3;

/// Returns what an info page says.
pub fn info_facts(page: &Page) -> Facts
    ensures { result ≡ info_facts page.now }
{
    let mut facts = Facts::new();
    let info = decode(page);
    add_start(&mut facts, page, &info.ident);
    facts.add_all(&[
        Fact::MemoryPages(info.physpages),
        Fact::ImagePages(info.image_pages),
        Fact::StreamPages(info.pages),
    ]);
    facts
}

/// Adds what the header at the beginning of an info page says.
fn add_start(facts: &mut Facts, page: &Page, ident: &Ident)
    requires { length facts.old ≡ 0 }
    ensures added { facts.new ≡ facts.old ++ start_facts page.now ident.now }
    ensures len { length facts.new ≤ 9 }
{
    if ident.version_code == 0 {
        add_arch(facts, page);
    } else {
        add_generic(facts, ident);
    }
}

/// Adds what the generic header says.
fn add_generic(facts: &mut Facts, ident: &Ident)
    requires { length facts.old ≡ 0 }
    ensures added { facts.new ≡ facts.old ++ generic_facts ident.now }
    ensures len { length facts.new ≤ 9 }
{
    let code = ident.version_code;
    facts.add_all(&[
        Fact::Header(Header::Generic),
        Fact::Name(Name::Sysname, ident.names[0]),
        Fact::Name(Name::Nodename, ident.names[1]),
        Fact::Name(Name::Release, ident.names[2]),
        Fact::Name(Name::Version, ident.names[3]),
        Fact::Name(Name::Machine, ident.names[4]),
        Fact::Name(Name::Domainname, ident.names[5]),
        Fact::VersionCode(code),
        Fact::Kernel(code / 65536, code / 256 % 256, code % 256),
    ]);
}

/// Adds what the header of an architecture says.
fn add_arch(facts: &mut Facts, page: &Page)
    requires { length facts.old ≡ 0 }
    ensures added { facts.new ≡ facts.old ++ arch_facts page.now }
    ensures len { length facts.new ≤ 9 }
{
    if page.word(MAGIC_WORD) == MAGIC {
        add_x86(facts, page);
    } else {
        add_text(facts, text_of(page));
    }
}

/// Adds what the header of an x86-64 machine says.
fn add_x86(facts: &mut Facts, page: &Page)
    requires { length facts.old ≡ 0 }
    ensures added { facts.new ≡ facts.old ++ x86_facts page.now }
    ensures len { length facts.new ≤ 9 }
{
    facts.add_all(&[
        Fact::Header(Header::X86),
        Fact::JumpAddress(page.word(0)),
        Fact::JumpAddressPhysical(page.word(1)),
        Fact::Cr3(page.word(2)),
        Fact::MemoryMapChecksum(page.word(4)),
    ]);
}

/// Adds what a header says that may begin with a version text.
fn add_text(facts: &mut Facts, text: [u8; TEXT_SIZE])
    requires { length facts.old ≡ 0 }
    ensures added { facts.new ≡ facts.old ++ text_facts text }
    ensures len { length facts.new ≤ 9 }
{
    if is_version_text(&text) {
        facts.add_all(&[Fact::Header(Header::Arm64), Fact::KernelVersion(text)]);
    } else {
        facts.add(Fact::Header(Header::Unknown));
    }
}

fn text_of(page: &Page) -> [u8; TEXT_SIZE]
    ensures { result ≡ bytes_at 65 page.now 0 }
{
    let mut text = [0; TEXT_SIZE];
    text.copy_from_slice(&page.as_bytes()[..TEXT_SIZE]);
    text
}

/// Returns whether these bytes are a version text that has an end.
fn is_version_text(name: &[u8]) -> bool
    ensures { result ≡ is_version_text (text_of_name name.now) }
{
    let len = text_len(name);
    0 < len && len < TEXT_SIZE && is_printable(&name[..len])
}

/// Returns how many bytes a name has before its first zero byte.
fn text_len(name: &[u8]) -> usize
    ensures { result ≡ length (text_of_name name.now) }
{
    name.iter().take_while(|b| **b != 0).count()
}
