//! The checksum of the kernel's `crc32_le` (lib/crc32.c): the reflected polynomial 0xEDB88320, from a given start, with
//! no inversion. The kernel computes it over an image's pages before they are compressed, starting with 0
//! (crc32_threadfn, kernel/power/swap.c).

mod table;

ghost use Rattle.std.specs.Prelude.{◌≡◌};
ghost use Rattle.compression.specs.Crc.{after_byte, crc32};

use table::AFTER_BYTE;

/// Returns the checksum of these bytes; `seed` is 0, or the checksum of the bytes before them.
pub fn crc32_le(seed: u32, bytes: &[u8]) -> u32
    ensures { result ≡ crc32 seed bytes.now }
{
    let mut crc = seed;
    for byte in bytes {
        crc = add_byte(crc, *byte);
    }
    crc
}

/// Returns the remainder with one more byte.
fn add_byte(crc: u32, byte: u8) -> u32
    ensures { result ≡ after_byte crc byte }
{
    let low = (crc ^ u32::from(byte)) & 0xff;
    (crc >> 8) ^ AFTER_BYTE[low as usize]
}
