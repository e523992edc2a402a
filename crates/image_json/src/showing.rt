ghost use Rattle.std.specs.Prelude.{◌≡◌, ◌≤◌, List, IfOk, string_bytes};
ghost use Rattle.image_show.specs.declared.facts.fact.Fact.{Fact as OneFact};
ghost use Rattle.expanded_show.specs.Shown.{ShowsAll};
ghost use Rattle.image_json.specs.Objects.{object_line};

use crate::members::Members;
use image_show::Shown;
use page_core::NoMemory;
use sector_disk::Disk;
use std::alloc::Global;

/// Returns what is written in the area whose header lies in block `header`, as one object on a line whose members are
/// the facts of `expanded_show::show`. It takes memory for the line.
pub fn show<D: Disk>(alloc: Global, disk: &mut D, header: u32) -> Result<(Shown, String), NoMemory>
    ensures shown { IfOk result (λ shown. (facts : List OneFact)
        × (ShowsAll (D.content disk.old) (D.block_count disk.old) header
        (D.faults disk.old) (D.faults disk.new) facts shown.0
        × (string_bytes shown.1 ≡ object_line facts))) }
    ensures content { D.content disk.new ≡ D.content disk.old }
    ensures faults { D.faults disk.old ≤ D.faults disk.new }
    ensures orders { D.orders disk.new ≡ D.orders disk.old }
    ensures blocks { D.block_count disk.new ≡ D.block_count disk.old }
{
    let mut members = Members::new(alloc);
    let Ok(shown) = expanded_show::show(alloc, disk, header, &mut members) else {
        return Err(NoMemory);
    };
    match members.ended() {
        Ok(line) => Ok((shown, line)),
        Err(_) => Err(NoMemory),
    }
}
