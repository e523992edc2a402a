//! The header block of an area.
ghost use Rattle.std.specs.Prelude.{◌≡◌, ◌+◌, ◌<◌, ◌≤◌, ◌++◌, length, map};
ghost use Rattle.definitions.specs.Bytes.{bytes_at};
ghost use Rattle.definitions.specs.InfoPage.{text_of_name};
ghost use Rattle.image_format.specs.AreaKind.{area_kind};
ghost use Rattle.image_show.specs.HeaderFacts.{area_facts, facts_by_mark, flag_fact, flag_facts, header_facts};
ghost use Rattle.image_show.specs.HeaderFacts.{label_facts, mark_facts, swap_facts};
ghost use Rattle.image_show.specs.declared.facts.fact.Fact.TheVariants.{BadPage};

use crate::facts::Facts;
use crate::facts::fact::{Fact, Flag};
use image_check::mark_in;
use image_format::{Area, AreaKind, Mark, take_back};
use page_core::Page;

/// The offsets in bytes of the fields that `AreaKind` doesn't have (`union swap_header`, include/linux/swap.h; `struct
/// swsusp_header`, kernel/power/swap.c).
const UUID: usize = 1036;

const LABEL: usize = 1052;

const CRC32: usize = 4060;

/// Returns what the header block of an area says, in a file or a device of `blocks` blocks.
pub fn header_facts(blocks: u32, page: &Page) -> Facts
    ensures { result ≡ header_facts blocks page.now }
{
    let mut facts = Facts::new();
    facts.add(Fact::Blocks(blocks));
    add_image(&mut facts, page, mark_in(AreaKind::read(page)));
    facts
}

/// Adds what a header block with or without a mark says.
fn add_image(facts: &mut Facts, page: &Page, mark: Option<Mark>)
    requires { length facts.old ≤ 1 }
    ensures { facts.new ≡ facts.old ++ facts_by_mark page.now mark }
{
    match mark {
        Some(mark) => {
            facts.add(Fact::Image(true));
            add_area(facts, &take_back(page));
            add_mark(facts, page, mark);
        }
        None => {
            facts.add(Fact::Image(false));
            add_area(facts, page);
        }
    }
}

/// Adds what a header block says of its area.
fn add_area(facts: &mut Facts, page: &Page)
    requires { length facts.old ≤ 2 }
    ensures added { facts.new ≡ facts.old ++ area_facts page.now (area_kind page.now) }
    ensures len { length facts.new ≤ 637 }
{
    match AreaKind::read(page) {
        AreaKind::Image(_) => facts.add(Fact::AreaImage),
        AreaKind::Old => facts.add(Fact::AreaOld),
        AreaKind::Other { sig } => facts.add(Fact::AreaOther(sig)),
        AreaKind::BadArea { why } => facts.add(Fact::AreaBad(why)),
        AreaKind::Swap(area) => add_swap(facts, page, &area),
    }
}

/// Adds what the header block of a version 1 area says.
fn add_swap(facts: &mut Facts, page: &Page, area: &Area)
    requires { length facts.old ≤ 2 }
    ensures added { facts.new ≡ facts.old ++ swap_facts page.now area.now }
    ensures len { length facts.new ≤ 637 }
{
    facts.add_all(&[
        Fact::AreaSwap,
        Fact::LastPage(area.last),
        Fact::BadPages(area.count),
    ]);
    let count = (area.count as usize).min(area.bad.len());
    add_bad_pages(facts, &area.bad[..count]);
    facts.add(Fact::Uuid(sixteen_bytes(page, UUID)));
    add_label(facts, sixteen_bytes(page, LABEL));
}

fn add_bad_pages(facts: &mut Facts, bad: &[u32])
    requires room { length facts.old ≤ 5 }
    requires few { length bad.now ≤ 630 }
    ensures added { facts.new ≡ facts.old ++ map BadPage bad.now }
    ensures len { length facts.new ≡ length facts.old + length bad.now }
{
    for &slot in bad {
        facts.add(Fact::BadPage(slot));
    }
}

/// Adds a label, if there is one.
fn add_label(facts: &mut Facts, label: [u8; 16])
    requires { length facts.old ≤ 636 }
    ensures added { facts.new ≡ facts.old ++ label_facts label }
    ensures len { length facts.new ≤ length facts.old + 1 }
{
    if text_len(&label) > 0 {
        facts.add(Fact::Label(label));
    }
}

/// Returns how many bytes a text has before its first zero byte.
fn text_len(text: &[u8]) -> usize
    ensures { result ≡ length (text_of_name text.now) }
{
    text.iter().take_while(|b| **b != 0).count()
}

fn sixteen_bytes(page: &Page, at: usize) -> [u8; 16]
    requires { at ≤ 4080 }
    ensures { result ≡ bytes_at 16 page.now at }
{
    let mut bytes = [0; 16];
    bytes.copy_from_slice(&page.as_bytes()[at..at + 16]);
    bytes
}

/// Adds what the mark of an image says.
fn add_mark(facts: &mut Facts, page: &Page, mark: Mark)
    requires { length facts.old ≤ 637 }
    ensures { facts.new ≡ facts.old ++ mark_facts page.now mark }
{
    facts.add_all(&[Fact::FirstMap(mark.first), Fact::Flags(mark.flags)]);
    add_flags(facts, mark.flags);
    facts.add_all(&[Fact::HwSig(mark.hw_sig), Fact::Crc32(page.u32_at(CRC32))]);
}

/// Adds each flag that is set.
fn add_flags(facts: &mut Facts, flags: u32)
    requires { length facts.old ≤ 639 }
    ensures added { facts.new ≡ facts.old ++ flag_facts flags }
    ensures len { length facts.new ≤ length facts.old + 5 }
{
    add_flag(facts, flags, 1, Flag::PlatformMode);
    add_flag(facts, flags, 2, Flag::NoCompress);
    add_flag(facts, flags, 4, Flag::Crc32);
    add_flag(facts, flags, 8, Flag::HwSig);
    add_flag(facts, flags, 256, Flag::ZerosSkipped);
}

/// Adds a flag if its bit is set.
fn add_flag(facts: &mut Facts, flags: u32, bit: u32, flag: Flag)
    requires room { length facts.old ≤ 645 }
    requires bit { 0 < bit }
    ensures added { facts.new ≡ facts.old ++ flag_fact flags bit flag }
    ensures len { length facts.new ≤ length facts.old + 1 }
{
    if flags / bit % 2 == 1 {
        facts.add(Fact::Flag(flag));
    }
}
