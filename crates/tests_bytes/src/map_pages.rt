use image_format::{ChainFault, MapReader, MapWriter};

// The 511 entries of an image whose first map is block 1, and the next map after them (struct swap_map_page,
// kernel/power/swap.c).
#[test]
fn the_last_entry_fills_the_map(rt: HostRuntime) {
    let mut writer = MapWriter::begin();
    for block in 2..513 {
        let _ = writer.push(block);
    }
    writer.link(513);
    let bytes = writer.page().as_bytes();
    assert_eq!(rt;
        (&bytes[..8], &bytes[4080..]),
        (
            b"\x02\0\0\0\0\0\0\0".as_slice(),
            b"\0\x02\0\0\0\0\0\0\x01\x02\0\0\0\0\0\0".as_slice()
        )
    );
    let reader = MapReader::of(writer.page(), 1);
    assert_eq!(rt;
        [
            reader.entry(0, 3000),
            reader.entry(510, 512),
            reader.entry(510, 511),
            reader.next(513),
            reader.next(512)
        ],
        [
            Ok(2),
            Ok(512),
            Err(ChainFault::BadBlock { block: 512 }),
            Ok(513),
            Err(ChainFault::BadBlock { block: 513 })
        ]
    );
}
