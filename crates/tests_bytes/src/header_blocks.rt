ghost use Rattle.std.specs.Prelude.{◌≤◌};

use image_format::{Area, AreaFault, AreaKind, area_page, mark, take_back};
use page_core::Page;

/// The last 40 bytes of a header block that was marked with the first map in block 1, SF_NOCOMPRESS_MODE and, after a
/// hardware signature of 7, SF_HW_SIG.
const MARKED: [u8; 40] = *b"\x07\0\0\0\0\0\0\0\x01\0\0\0\0\0\0\0\x0a\0\0\0SWAPSPACE2S1SUSPEND\0";

#[test]
fn a_mark_has_the_bytes_of_the_kernel(rt: HostRuntime) {
    let marked = mark(&area_page(3000, &[]), 1, 2, 7);
    let back = take_back(&marked);
    assert_eq!(rt;
        (&marked.as_bytes()[4056..], &back.as_bytes()[4086..]),
        (MARKED.as_slice(), b"SWAPSPACE2".as_slice())
    );
}

/// Returns the fault of an area with last slot 3000, bad slots 5 and 9, and one field changed.
fn fault_of(at: usize, value: u32) -> Option<AreaFault>
    requires { at ≤ 4092 }
{
    let mut page = area_page(3000, &[5, 9]);
    page.put_u32(at, value);
    match AreaKind::read(&page) {
        AreaKind::BadArea { why } => Some(why),
        _ => None,
    }
}

#[test]
fn the_faults_of_an_area(rt: HostRuntime) {
    assert_eq!(rt;
        [
            fault_of(1024, 1),
            fault_of(1024, 2),
            fault_of(1028, 0),
            fault_of(1032, 631),
            fault_of(1536, 3001),
            fault_of(1540, 0)
        ],
        [
            None,
            Some(AreaFault::Version { version: 2 }),
            Some(AreaFault::LastZero),
            Some(AreaFault::BadCount { count: 631 }),
            Some(AreaFault::BadEntry { slot: 3001 }),
            Some(AreaFault::BadEntry { slot: 0 })
        ]
    );
}

#[test]
fn the_bad_pages_of_an_area(rt: HostRuntime) {
    let mut bad = [0; 630];
    bad[0] = 5;
    bad[1] = 9;
    let area = Area {
        last: 3000,
        count: 2,
        bad,
    };
    assert_eq!(rt;
        AreaKind::read(&area_page(3000, &[5, 9])),
        AreaKind::Swap(area)
    );
}
