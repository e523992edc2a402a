ghost use Rattle.std.specs.Prelude.{◌≡◌, ◌^◌, ◌<◌};
ghost use Rattle.stream_out.specs.Cursor.{IsPart};

/// The bytes of a page.
const PAGE_SIZE: usize = 4096;

/// How far a stream has been handed out.
#[derive(Clone, Copy)]
pub struct Cursor {
    /// The page being handed out, or the next one, from 0.
    pub page: u32,
    /// The number of its bytes already handed out.
    pub at: usize,
    /// A lower bound of the next data page's page frame number.
    pub from: u32,
}

impl Cursor {
    /// Makes a cursor before the first byte.
    pub fn begin() -> Cursor
        ensures page { result.page ≡ 0 }
        ensures at { result.at ≡ 0 }
        ensures from { result.from ≡ 0 }
    {
        Cursor {
            page: 0,
            at: 0,
            from: 0,
        }
    }
}

/// Hands out what is left of a page, or as much of it as fits, and returns the number of bytes.
pub fn hand_out(page: &[u8; 4096], cursor: &mut Cursor, into: &mut [u8]) -> usize
    requires at { cursor.old.at < 4096 }
    requires few { cursor.old.page < 2 ^ 31 }
    ensures part { IsPart page.now cursor.old cursor.new into.old into.new result }
    ensures from { cursor.new.from ≡ cursor.old.from }
{
    let left = &page[cursor.at..];
    let count = lesser(into.len(), left.len());
    into[..count].copy_from_slice(&left[..count]);
    cursor.at += count;
    if cursor.at == PAGE_SIZE {
        cursor.at = 0;
        cursor.page += 1;
    }
    count
}

ghost use Rattle.std.specs.Prelude.{◌≤◌, ◌⊎◌};

/// Returns the lesser of two counts.
fn lesser(a: usize, b: usize) -> usize
    ensures first { result ≤ a }
    ensures second { result ≤ b }
    ensures one { (result ≡ a) ⊎ (result ≡ b) }
{
    if a < b { a } else { b }
}
