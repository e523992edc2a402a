ghost use Rattle.std.specs.Prelude.{◌≡◌, ◌+◌, ◌≤◌, ◌++◌, length};
ghost use Rattle.definitions.specs.Zones.{top};
ghost use Rattle.dump_tools.specs.Facts.{frame_facts, image_facts, images_facts, owned_frames, owned_slots, slot_facts};

use crate::facts::Facts;
use crate::facts::counting::{Kind, count_frames, count_free_frames, count_slots};
use crate::facts::fact::Fact;
use definitions::{SPARE_FRAMES, SPARE_SLOTS};
use machine::Dump;
use page_core::Format;
use plain_machine::image_pages;
use swap_slots::SlotEntry;

/// Adds what a dump says of page frames.
pub(crate) fn add_frames(facts: &mut Facts, dump: &Dump)
    requires size { length dump.now.frames ≡ top dump.now.hw.zones }
    requires room { length facts.old ≤ 155 }
    ensures added { facts.new ≡ facts.old ++ frame_facts dump.now.hw dump.now.frames }
    ensures len { length facts.new ≤ length facts.old + 67 }
{
    let saveable = count_frames(dump, Kind::Saveable);
    facts.add_all(&[
        Fact::SaveableFrames(saveable),
        Fact::FreeFrames(count_free_frames(dump)),
        Fact::NeededFrames(saveable + SPARE_FRAMES),
    ]);
    add_owned_frames(facts, dump);
}

/// Adds the tasks that have page frames, each with the number of its page frames.
fn add_owned_frames(facts: &mut Facts, dump: &Dump)
    requires size { length dump.now.frames ≡ top dump.now.hw.zones }
    requires room { length facts.old ≤ 158 }
    ensures added { facts.new ≡ facts.old ++ owned_frames dump.now.hw dump.now.frames }
    ensures len { length facts.new ≤ length facts.old + 64 }
{
    for task in 1..65 {
        let count = count_frames(dump, Kind::OwnedBy(task));
        if count > 0 {
            facts.add(Fact::OwnedFrames(u32::from(task), count));
        }
    }
}

/// Adds what a dump says of slots.
#[tactic(auto, unfolding(swap_slots::specs::Entries::entry_of_word))]
pub(crate) fn add_slots(facts: &mut Facts, dump: &Dump)
    requires size { length dump.now.frames ≡ top dump.now.hw.zones }
    requires room { length facts.old ≤ 222 }
    ensures added { facts.new ≡ facts.old ++ slot_facts dump.now.hw dump.now.frames }
    ensures len { length facts.new ≤ length facts.old + 66 }
{
    facts.add_all(&[
        Fact::FreeSlots(count_slots(dump, SlotEntry::Free)),
        Fact::BadSlots(count_slots(dump, SlotEntry::Bad)),
    ]);
    add_owned_slots(facts, dump);
}

/// Adds the tasks that have slots, each with the number of its slots.
fn add_owned_slots(facts: &mut Facts, dump: &Dump)
    requires size { length dump.now.frames ≡ top dump.now.hw.zones }
    requires room { length facts.old ≤ 224 }
    ensures added { facts.new ≡ facts.old ++ owned_slots dump.now.hw dump.now.frames }
    ensures len { length facts.new ≤ length facts.old + 64 }
{
    for task in 1..65 {
        let count = count_slots(dump, SlotEntry::Task(task));
        if count > 0 {
            facts.add(Fact::OwnedSlots(task, count));
        }
    }
}

/// Adds what an image would take in each format.
pub(crate) fn add_images(facts: &mut Facts, dump: &Dump)
    requires size { length dump.now.frames ≡ top dump.now.hw.zones }
    requires room { length facts.old ≤ 288 }
    ensures { facts.new ≡ facts.old ++ images_facts dump.now.hw dump.now.frames }
{
    let saveable = count_frames(dump, Kind::Saveable);
    add_image(facts, Format::Plain, saveable, saveable);
    let with_data = count_frames(dump, Kind::WithData);
    add_image(facts, Format::SkipZeros, saveable, with_data);
}

/// Adds what an image in a format would take if it saved `n` page frames, `d` of which have data.
fn add_image(facts: &mut Facts, format: Format, n: u32, d: u32)
    requires room { length facts.old ≤ 290 }
    requires few_saved { n ≤ 65536 }
    requires few_with_data { d ≤ 65536 }
    ensures added { facts.new ≡ facts.old ++ image_facts format n d }
    ensures len { length facts.new ≡ length facts.old + 2 }
{
    let pages = image_pages(n, d);
    facts.add_all(&[
        Fact::Image(format, n, d, pages),
        Fact::NeededSlots(format, pages + SPARE_SLOTS),
    ]);
}
