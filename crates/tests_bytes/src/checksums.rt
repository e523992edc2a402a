use compression::crc32::crc32_le;

// The values are zlib's `crc32(bytes, seed ^ 0xffffffff) ^ 0xffffffff`, which cancels its inversions. CRC-32 of RFC
// 1952 (0xcbf43926) begins with all bits set, and ends with an inversion.
#[test]
fn checksums_are_those_of_zlib(rt: HostRuntime) {
    let sums = [
        crc32_le(0, b""),
        crc32_le(0, b"a"),
        crc32_le(0, b"\0\0\0\0"),
        crc32_le(0, b"123456789"),
        crc32_le(0x1234_5678, b"hibernate"),
        !crc32_le(u32::MAX, b"123456789"),
        !crc32_le(crc32_le(u32::MAX, b"1234"), b"56789"),
    ];
    let told = [
        0,
        0x3ab5_51ce,
        0,
        0x2dfd_2d88,
        0xc17a_59f9,
        0xcbf4_3926,
        0xcbf4_3926,
    ];
    assert_eq!(rt; sums, told);
}
