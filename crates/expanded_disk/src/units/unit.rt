ghost use Rattle.std.specs.Prelude.{◌≡◌, ◌+◌, ◌*◌, ◌<◌, ◌≤◌, ◌++◌, take, drop, length, IfOk};
ghost use Rattle.compression.specs.Expansion.{expansion, told};
ghost use Rattle.compression.specs.Crc.{crc32};

use compression::crc32::crc32_le;
use compression::lzo::{LzoFault, expand};
use page_core::{NoMemory, Page};
use std::alloc::Global;

/// The most bytes that the pages of a unit have: 32 pages (LZO_UNC_SIZE).
const MOST_BYTES: usize = 131_072;

/// The most bytes of the pages that a unit takes on the disk: 35 pages (LZO_CMP_SIZE).
const MOST_PACKED: usize = 143_360;

/// The number of bytes of a page.
const PAGE: usize = 4096;

/// The number of bytes of a unit's length (LZO_HEADER).
const HEADER: usize = 8;

/// A unit: the pages that it takes on the disk, and the bytes that it expands to.
#[derive(Drop)]
pub struct Unit {
    packed: Vec<u8>,
    bytes: Vec<u8>,
    ghost packed_size: { length packed.items ≡ 143360 },
    ghost size: { length bytes.items ≡ 131072 },
}

impl Unit {
    /// Allocates memory for a unit.
    pub fn new(alloc: Global) -> Result<Unit, NoMemory> {
        Ok(Unit {
            packed: zeros(alloc, MOST_PACKED)?,
            bytes: zeros(alloc, MOST_BYTES)?,
        })
    }

    /// Stores page `i` of those that the unit takes.
    pub fn put(&mut self, i: usize, page: &Page)
        requires { i < 35 }
        ensures added { take (4096 * i + 4096) self.new.packed.items ≡ take (4096 * i) self.old.packed.items
            ++ page.now }
        ensures bytes { self.new.bytes.items ≡ self.old.bytes.items }
    {
        put_page(self.packed.as_mut_slice(), PAGE * i, page);
    }

    /// Expands the stream, the `len` bytes that follow the length field, into at most `size` bytes.
    pub fn expand(&mut self, len: usize, size: usize) -> Result<usize, LzoFault>
        requires len { len ≤ 143352 }
        requires size { size ≤ 131072 }
        ensures told { let all = expansion size (take len (drop 8 self.old.packed.items)) in
            result ≡ told (length all.written) all.fault }
        ensures written { let all = expansion size (take len (drop 8 self.old.packed.items)) in
            take (length all.written) self.new.bytes.items ≡ all.written }
        ensures packed { self.new.packed.items ≡ self.old.packed.items }
    {
        let stream = &self.packed.as_slice()[HEADER..HEADER + len];
        expand_front(stream, self.bytes.as_mut_slice(), size)
    }

    /// Copies page `i` of the expanded bytes into `into`.
    pub fn page(&self, i: usize, into: &mut Page)
        requires { i < 32 }
        ensures { into.new ≡ take 4096 (drop (4096 * i) self.now.bytes.items) }
    {
        into.copy_from_slice(&self.bytes.as_slice()[PAGE * i..PAGE * i + PAGE]);
    }

    /// Continues the checksum `before` over the first `size` expanded bytes.
    pub fn checksum(&self, before: u32, size: usize) -> u32
        requires { size ≤ 131072 }
        ensures { result ≡ crc32 before (take size self.now.bytes.items) }
    {
        crc32_le(before, &self.bytes.as_slice()[..size])
    }
}

/// Copies a page to an offset.
fn put_page(bytes: &mut [u8], at: usize, page: &Page)
    requires { at + 4096 ≤ length bytes.old }
    ensures { take (at + 4096) bytes.new ≡ take at bytes.old ++ page.now }
{
    bytes[at..at + PAGE].copy_from_slice(page.as_bytes());
}

/// Expands a stream into the first `size` bytes, or fewer, of `bytes`.
fn expand_front(stream: &[u8], bytes: &mut [u8], size: usize) -> Result<usize, LzoFault>
    requires { size ≤ length bytes.old }
    ensures told { let all = expansion size stream.now in result ≡ told (length all.written) all.fault }
    ensures written { let all = expansion size stream.now in take (length all.written) bytes.new ≡ all.written }
{
    expand(stream, &mut bytes[..size])
}

/// Allocates `count` zeros.
fn zeros(alloc: Global, count: usize) -> Result<Vec<u8>, NoMemory>
    ensures { IfOk result (λ zeros. length zeros.items ≡ count) }
{
    vec![in alloc; 0; count].map_err(|_| NoMemory)
}
