//! Reads a block that is named.
ghost use Rattle.std.specs.Prelude.{◌≡◌, ◌<◌, ◌≤◌, true, None};
ghost use Rattle.definitions.specs.Disk.{HasRisen};
ghost use Rattle.image_walk.specs.Names.{IsAnswer, IsReadFrom, is_unread, seen};
ghost use Rattle.image_walk.specs.Walking.{IsAsked};

use crate::BlockFault;
use crate::walk::Named;
use page_core::Page;
use sector_disk::Disk;

/// Reads a named block into `into`, if it may be read.
pub(crate) fn look<D: Disk>(disk: &mut D, named: Named, into: &mut Page) -> Result<(), BlockFault>
    requires { IsAsked (D.block_count disk.old) named }
    ensures answer { IsAnswer named.fault named.block (seen result into.new) }
    ensures page { IsReadFrom (D.content disk.old) named.block (seen result into.new) }
    ensures unread { is_unread (seen result into.new) ≡ true → HasRisen (D.faults disk.old) (D.faults disk.new) }
    ensures content { D.content disk.new ≡ D.content disk.old }
    ensures faults { D.faults disk.old ≤ D.faults disk.new }
    ensures orders { D.orders disk.new ≡ D.orders disk.old }
    ensures blocks { D.block_count disk.new ≡ D.block_count disk.old }
{
    match named.fault {
        Some(why) => Err(why),
        None => read(disk, named.block, into),
    }
}

fn read<D: Disk>(disk: &mut D, block: u64, into: &mut Page) -> Result<(), BlockFault>
    requires { block < D.block_count disk.old }
    ensures answer { IsAnswer None block (seen result into.new) }
    ensures page { IsReadFrom (D.content disk.old) block (seen result into.new) }
    ensures unread { is_unread (seen result into.new) ≡ true → HasRisen (D.faults disk.old) (D.faults disk.new) }
    ensures content { D.content disk.new ≡ D.content disk.old }
    ensures faults { D.faults disk.old ≤ D.faults disk.new }
    ensures orders { D.orders disk.new ≡ D.orders disk.old }
    ensures blocks { D.block_count disk.new ≡ D.block_count disk.old }
{
    // A disk has fewer than 2^32 blocks.
    let _ = disk.blocks();
    match disk.read(block as u32, into) {
        Ok(()) => Ok(()),
        Err(_) => Err(BlockFault::Unread(block)),
    }
}
