ghost use Rattle.std.specs.Prelude.{◌≡◌, ◌<◌};

use crate::LogDisk;
use page_core::{Failed, Page};
use sector_disk::{Disk, MemDisk};
use std::test::Fail;

// Returns the first bytes of the sectors of a block, as the disk reads.
fn first_bytes<D: Disk>(disk: &mut D, b: u32) -> Result<[u8; 8], Failed>
    requires { b < D.block_count disk.old }
    ensures { D.block_count disk.new ≡ D.block_count disk.old }
{
    let mut page = Page::zero();
    disk.read(b, &mut page)?;
    let mut firsts = [0; 8];
    for j in 0..8 {
        firsts[j] = page.as_bytes()[512 * j];
    }
    Ok(firsts)
}

#[test]
fn a_restart_takes_the_picked_sectors(rt: HostRuntime) -> Result<(), Fail> {
    for (pick, want) in [
        (0, [0; 8]),
        (128, [0, 0, 0, 0, 0, 0, 0, 7]),
        (u64::MAX, [7; 8]),
    ] {
        let mut disk = MemDisk::create(rt.alloc(), 2)?;
        assert_eq!(rt; disk.blocks(), 2);
        disk.write(0, &Page::from_bytes(&[7; 4096]))?;
        disk.restart(pick);
        assert_eq!(rt; first_bytes(&mut disk, 0)?, want);
        disk.restart(0);
        assert_eq!(rt; first_bytes(&mut disk, 0)?, want, "after pick {pick}");
    }
    Ok(())
}

#[test]
fn blocks_that_were_not_written_are_zeros(rt: HostRuntime) -> Result<(), Fail> {
    let mut disk = MemDisk::create(rt.alloc(), 8)?;
    assert_eq!(rt; disk.blocks(), 8);
    assert_eq!(rt; first_bytes(&mut disk, 7)?, [0; 8]);
    disk.write(5, &Page::from_bytes(&[7; 4096]))?;
    assert_eq!(rt; first_bytes(&mut disk, 7)?, [0; 8]);
    disk.restart(u64::MAX);
    assert_eq!(rt; first_bytes(&mut disk, 4)?, [0; 8]);
    assert_eq!(rt; first_bytes(&mut disk, 5)?, [7; 8]);
    assert_eq!(rt; first_bytes(&mut disk, 6)?, [0; 8]);
    Ok(())
}

#[test]
fn an_armed_write_takes_the_picked_sectors(rt: HostRuntime) -> Result<(), Fail> {
    let mut disk = MemDisk::create(rt.alloc(), 1)?;
    assert_eq!(rt; disk.blocks(), 1);
    disk.arm(2, 1, 3);
    disk.sync()?;
    disk.restart(0);
    assert_eq!(rt; disk.write(0, &Page::from_bytes(&[7; 4096])), Err(Failed));
    assert_eq!(rt; first_bytes(&mut disk, 0)?, [7, 7, 0, 0, 0, 0, 0, 0]);
    Ok(())
}

#[test]
fn a_disk_that_records_is_one_in_memory(rt: HostRuntime) -> Result<(), Fail> {
    for (pick, want) in [
        (0, [5; 8]),
        (128, [5, 5, 5, 5, 5, 5, 5, 7]),
        (u64::MAX, [7; 8]),
    ] {
        let mut disk = LogDisk::create(rt.alloc(), 2, 4)?;
        assert_eq!(rt; disk.blocks(), 2);
        disk.write(0, &Page::from_bytes(&[5; 4096]))?;
        disk.sync()?;
        disk.write(0, &Page::from_bytes(&[6; 4096]))?;
        disk.write(0, &Page::from_bytes(&[7; 4096]))?;
        disk.restart(pick);
        assert_eq!(rt; first_bytes(&mut disk, 0)?, want);
        disk.restart(0);
        assert_eq!(rt; first_bytes(&mut disk, 0)?, want, "after pick {pick}");
    }
    Ok(())
}

#[test]
fn a_restart_goes_back_to_an_earlier_moment(rt: HostRuntime) -> Result<(), Fail> {
    for (calls, pick, want) in [
        (0, u64::MAX, [0; 8]),
        (1, u64::MAX, [5; 8]),
        (1, 1, [5, 0, 0, 0, 0, 0, 0, 0]),
        (2, 0, [5; 8]),
        (3, 2, [5, 6, 5, 5, 5, 5, 5, 5]),
        (4, u64::MAX, [7, 6, 6, 6, 6, 6, 6, 6]),
        (9, 0, [7, 6, 6, 6, 6, 6, 6, 6]),
    ] {
        let mut disk = LogDisk::create(rt.alloc(), 1, 5)?;
        assert_eq!(rt; disk.blocks(), 1);
        disk.write(0, &Page::from_bytes(&[5; 4096]))?;
        disk.sync()?;
        disk.write(0, &Page::from_bytes(&[6; 4096]))?;
        disk.arm(1, 1, 1);
        assert_eq!(rt; disk.write(0, &Page::from_bytes(&[7; 4096])), Err(Failed));
        disk.sync()?;
        assert_eq!(rt; disk.recorded_calls(), 5);
        disk.restart_at(calls, pick);
        assert_eq!(rt; disk.recorded_calls(), 0);
        assert_eq!(rt; first_bytes(&mut disk, 0)?, want, "after {calls} calls");
    }
    Ok(())
}

#[test]
fn a_call_without_room_leaves_every_sector(rt: HostRuntime) -> Result<(), Fail> {
    let mut disk = LogDisk::create(rt.alloc(), 1, 2)?;
    assert_eq!(rt; disk.blocks(), 1);
    disk.arm(1, 1, 3);
    assert_eq!(rt; disk.write(0, &Page::from_bytes(&[5; 4096])), Err(Failed));
    assert!(rt; !disk.is_full());
    disk.sync()?;
    assert!(rt; disk.is_full());
    assert_eq!(rt; disk.write(0, &Page::from_bytes(&[7; 4096])), Err(Failed));
    assert_eq!(rt; disk.sync(), Err(Failed));
    assert_eq!(rt; first_bytes(&mut disk, 0)?, [5, 5, 0, 0, 0, 0, 0, 0]);

    disk.restart(u64::MAX);
    assert!(rt; !disk.is_full());
    assert_eq!(rt; first_bytes(&mut disk, 0)?, [5, 5, 0, 0, 0, 0, 0, 0]);
    disk.write(0, &Page::from_bytes(&[9; 4096]))?;
    disk.sync()?;
    assert_eq!(rt; first_bytes(&mut disk, 0)?, [9; 8]);
    assert!(rt; disk.is_full());
    Ok(())
}
