ghost use Rattle.std.specs.Prelude.{◌≡◌, ◌⊎◌, ◌≤◌, ◌<◌, ◌+◌, IfSome, None};
ghost use Rattle.definitions.specs.Disk.{HasRisen, as_it_reads, block};
ghost use Rattle.image_format.specs.AreaKind.{area_kind};
ghost use Rattle.file_disk.specs.Beyond.{map_beyond};

use image_format::AreaKind;
use page_core::Page;
use sector_disk::Disk;

/// Returns the block of the first map that an image's header block names, if the disk ends before it. This happens if a
/// swap file is given in place of the device that it lies in: the header is the file's first block, and the maps name
/// blocks of the device. Returns nothing if the header block can't be read.
pub fn first_map_beyond<D: Disk>(disk: &mut D) -> Option<u64>
    ensures beyond { 0 < D.block_count disk.old → IfSome (D.content disk.old) (λ held.
        (result ≡ map_beyond (D.block_count disk.old) (area_kind (block (as_it_reads held) 0)))
        ⊎ HasRisen (D.faults disk.old) (D.faults disk.new)) }
    ensures names_beyond { IfSome result (λ first. D.block_count disk.old ≤ first) }
    ensures unread { D.block_count disk.old ≡ 0 → result ≡ None }
    ensures content { D.content disk.new ≡ D.content disk.old }
    ensures calls { D.calls disk.new ≤ D.calls disk.old + 1 }
    ensures orders { D.orders disk.new ≡ D.orders disk.old }
    ensures blocks { D.block_count disk.new ≡ D.block_count disk.old }
{
    let blocks = disk.blocks();
    if blocks == 0 {
        return None;
    }
    let mut header = Page::zero();
    match disk.read(0, &mut header) {
        Ok(()) => first_map(AreaKind::read(&header), blocks),
        Err(_) => None,
    }
}

/// Returns the first map of an image's header block, unless it is one of the `blocks` blocks.
fn first_map(kind: AreaKind, blocks: u32) -> Option<u64>
    ensures { result ≡ map_beyond blocks kind }
{
    match kind {
        AreaKind::Image(mark) => {
            if u64::from(blocks) <= mark.first {
                Some(mark.first)
            } else {
                None
            }
        }
        AreaKind::Old => None,
        AreaKind::Other { .. } => None,
        AreaKind::BadArea { .. } => None,
        AreaKind::Swap(_) => None,
    }
}
