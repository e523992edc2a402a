ghost use Rattle.std.specs.Prelude.{◌≡◌, ◌+◌, ◌≤◌, ◌++◌, length, decimal};
ghost use Rattle.plain_machine.specs.Replies.{no_swap_text};

use byte_streams::Line;
use plain_machine::NoSwap;

/// Adds the reason why an area can't be used, as `no swap: old`.
pub fn put_no_swap(line: &mut Line, why: &NoSwap)
    requires { length line.old ≤ 64 }
    ensures added { line.new ≡ line.old ++ no_swap_text why.now }
    ensures len { length line.new ≤ length line.old + 128 }
{
    line.put(b"no swap: ");
    match why {
        NoSwap::Image => line.put(b"image"),
        NoSwap::Old => line.put(b"old"),
        NoSwap::Signature { sig } => {
            line.put(b"signature ");
            line.put_hex(sig);
        }
        NoSwap::Version { version } => put_named(line, b"version ", *version),
        NoSwap::BadCount { count } => put_named(line, b"bad count ", *count),
        NoSwap::LastZero => line.put(b"last zero"),
        NoSwap::BadEntry { slot } => put_named(line, b"bad entry ", *slot),
        NoSwap::Short { last, blocks } => {
            put_named(line, b"short ", *last);
            put_named(line, b" blocks ", *blocks);
        }
        NoSwap::Misfit { last, slots } => {
            put_named(line, b"misfit ", *last);
            put_named(line, b" slots ", *slots);
        }
        NoSwap::BadSet => line.put(b"bad set"),
    }
}

/// Adds a name, which ends in a space, and a number.
fn put_named(line: &mut Line, name: &[u8], number: u32)
    requires { length line.old + length name.now ≤ 172 }
    ensures added { line.new ≡ line.old ++ name.now ++ decimal number }
    ensures len { length line.new ≤ length line.old + length name.now + 20 }
{
    line.put(name);
    line.put_number(u64::from(number));
}
