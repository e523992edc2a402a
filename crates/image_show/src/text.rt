ghost use Rattle.std.specs.Prelude.{◌≡◌, ◌+◌, ◌≤◌, ◌++◌, length, codes, decimal};
ghost use Rattle.definitions.specs.InfoPage.{text_of_name};
ghost use Rattle.byte_streams.specs.Texts.{value_text};
ghost use Rattle.plain_machine.specs.UsableArea.{no_swap_at};
ghost use Rattle.plain_machine.specs.Replies.{hex_text, why_text};
ghost use Rattle.image_show.specs.Texts.{fact_text, flag_key, header_key, image_text, kernel_text, line_text};
ghost use Rattle.image_show.specs.Texts.{uuid_text};

use crate::{Fact, Flag, Header};
use byte_streams::{Line, put_hex_word, put_name, put_numbers, put_text};
use image_format::AreaFault;

/// Returns the text of a fact: its key, and its value after a space.
pub fn text_of(fact: &Fact) -> Line
    ensures text { result ≡ fact_text fact.now }
    ensures len { length result ≤ 160 }
{
    let mut line = Line::new();
    put_fact(&mut line, fact);
    line
}

/// Returns the line of a fact.
pub(crate) fn line_of(fact: &Fact) -> Line
    ensures { result ≡ line_text fact.now }
{
    let mut line = text_of(fact);
    line.put(b"\n");
    line
}

/// Writes a fact into an empty buffer.
fn put_fact(line: &mut Line, fact: &Fact)
    requires { length line.old ≡ 0 }
    ensures text { line.new ≡ fact_text fact.now }
    ensures len { length line.new ≤ 160 }
{
    match *fact {
        Fact::Blocks(n) => put_numbers(line, b"blocks", &[u64::from(n)]),
        Fact::HeaderMissing => line.put(b"header missing"),
        Fact::HeaderUnread => line.put(b"header unread"),
        Fact::Image(marked) => line.put(image_text(marked)),
        Fact::AreaSwap => line.put(b"area swap"),
        Fact::AreaOld => line.put(b"area old"),
        Fact::AreaImage => line.put(b"area image"),
        Fact::AreaOther(sig) => put_other(line, &sig),
        Fact::AreaBad(why) => put_bad(line, why),
        Fact::LastPage(n) => put_numbers(line, b"last_page", &[u64::from(n)]),
        Fact::BadPages(n) => put_numbers(line, b"bad_pages", &[u64::from(n)]),
        Fact::BadPage(n) => put_numbers(line, b"bad_page", &[u64::from(n)]),
        Fact::Uuid(bytes) => put_uuid(line, &bytes),
        Fact::Label(bytes) => put_label(line, &bytes),
        Fact::FirstMap(n) => put_numbers(line, b"first_map", &[n]),
        Fact::Flags(n) => put_numbers(line, b"flags", &[u64::from(n)]),
        Fact::Flag(flag) => put_word(line, b"flag ", flag_key(flag)),
        Fact::HwSig(n) => put_numbers(line, b"hw_sig", &[u64::from(n)]),
        Fact::Crc32(n) => put_numbers(line, b"crc32", &[u64::from(n)]),
        Fact::Header(header) => put_word(line, b"header ", header_key(header)),
        Fact::Name(name, bytes) => put_name(line, name, &bytes),
        Fact::VersionCode(n) => put_numbers(line, b"version_code", &[u64::from(n)]),
        Fact::Kernel(a, b, c) => put_kernel(line, a, b, c),
        Fact::JumpAddress(n) => put_hex_word(line, b"jump_address", n),
        Fact::JumpAddressPhysical(n) => put_hex_word(line, b"jump_address_physical", n),
        Fact::Cr3(n) => put_hex_word(line, b"cr3", n),
        Fact::MemoryMapChecksum(n) => put_hex_word(line, b"memory_map_checksum", n),
        Fact::KernelVersion(bytes) => put_version(line, &bytes),
        Fact::MemoryPages(n) => put_numbers(line, b"memory_pages", &[n]),
        Fact::ImagePages(n) => put_numbers(line, b"image_pages", &[n]),
        Fact::StreamPages(n) => put_numbers(line, b"stream_pages", &[n]),
        Fact::BlockRun(start, count) => put_numbers(line, b"block_run", &[start, count]),
        Fact::Maps(n) => put_numbers(line, b"maps", &[n]),
        Fact::Units(n) => put_numbers(line, b"units", &[n]),
        Fact::CompressedBytes(n) => put_numbers(line, b"compressed_bytes", &[n]),
        Fact::ExpandedBytes(n) => put_numbers(line, b"expanded_bytes", &[n]),
        Fact::FrameRun(start, count) => put_numbers(line, b"frame_run", &[start, count]),
    }
}

fn image_text(marked: bool) -> &'static [u8]
    ensures text { result.now ≡ image_text marked }
    ensures short { length result.now ≤ 9 }
{
    if marked { b"image yes" } else { b"image no" }
}

fn flag_key(flag: Flag) -> &'static [u8]
    ensures text { result.now ≡ flag_key flag }
    ensures short { length result.now ≤ 13 }
{
    match flag {
        Flag::PlatformMode => b"platform_mode",
        Flag::NoCompress => b"nocompress",
        Flag::Crc32 => b"crc32",
        Flag::HwSig => b"hw_sig",
        Flag::ZerosSkipped => b"zeros_skipped",
    }
}

fn header_key(header: Header) -> &'static [u8]
    ensures text { result.now ≡ header_key header }
    ensures short { length result.now ≤ 7 }
{
    match header {
        Header::Generic => b"generic",
        Header::X86 => b"x86-64",
        Header::Arm64 => b"arm64",
        Header::Unknown => b"unknown",
    }
}

/// Writes a key, which ends with a space, and a word into an empty buffer.
fn put_word(line: &mut Line, key: &[u8], word: &[u8])
    requires empty { length line.old ≡ 0 }
    requires short { length key.now + length word.now ≤ 40 }
    ensures text { line.new ≡ key.now ++ word.now }
    ensures len { length line.new ≤ 160 }
{
    line.put(key);
    line.put(word);
}

/// Writes a signature that isn't a swap area's into an empty buffer.
fn put_other(line: &mut Line, sig: &[u8; 10])
    requires { length line.old ≡ 0 }
    ensures text { line.new ≡ codes "area other " ++ hex_text sig.now }
    ensures len { length line.new ≤ 160 }
{
    line.put(b"area other ");
    line.put_hex(sig);
}

/// Writes what is wrong with an area into an empty buffer.
fn put_bad(line: &mut Line, why: AreaFault)
    requires { length line.old ≡ 0 }
    ensures text { line.new ≡ codes "area bad " ++ why_text (no_swap_at why) }
    ensures len { length line.new ≤ 160 }
{
    line.put(b"area bad ");
    match why {
        AreaFault::Version { version } => put_named(line, b"version ", version),
        AreaFault::BadCount { count } => put_named(line, b"bad count ", count),
        AreaFault::LastZero => line.put(b"last zero"),
        AreaFault::BadEntry { slot } => put_named(line, b"bad entry ", slot),
    }
}

/// Adds a name, which ends with a space, and a number.
fn put_named(line: &mut Line, name: &[u8], number: u32)
    requires { length line.old + length name.now ≤ 100 }
    ensures added { line.new ≡ line.old ++ name.now ++ decimal number }
    ensures len { length line.new ≤ length line.old + length name.now + 20 }
{
    line.put(name);
    line.put_number(u64::from(number));
}

/// Writes a UUID into an empty buffer.
fn put_uuid(line: &mut Line, bytes: &[u8; 16])
    requires { length line.old ≡ 0 }
    ensures text { line.new ≡ uuid_text bytes.now }
    ensures len { length line.new ≤ 160 }
{
    line.put(b"uuid ");
    line.put_hex(&bytes[..4]);
    line.put(b"-");
    line.put_hex(&bytes[4..6]);
    line.put(b"-");
    line.put_hex(&bytes[6..8]);
    line.put(b"-");
    line.put_hex(&bytes[8..10]);
    line.put(b"-");
    line.put_hex(&bytes[10..16]);
}

/// Writes the numbers of a kernel's version into an empty buffer.
fn put_kernel(line: &mut Line, a: u32, b: u32, c: u32)
    requires { length line.old ≡ 0 }
    ensures text { line.new ≡ kernel_text a b c }
    ensures len { length line.new ≤ 160 }
{
    line.put(b"kernel ");
    line.put_number(u64::from(a));
    line.put(b".");
    line.put_number(u64::from(b));
    line.put(b".");
    line.put_number(u64::from(c));
}

/// Writes a label into an empty buffer.
fn put_label(line: &mut Line, label: &[u8; 16])
    requires { length line.old ≡ 0 }
    ensures text { line.new ≡ codes "label" ++ value_text (text_of_name label.now) }
    ensures len { length line.new ≤ 160 }
{
    put_text(line, b"label", label);
}

/// Writes the text of a kernel's version into an empty buffer.
fn put_version(line: &mut Line, text: &[u8; 65])
    requires { length line.old ≡ 0 }
    ensures text { line.new ≡ codes "kernel_version" ++ value_text (text_of_name text.now) }
    ensures len { length line.new ≤ 160 }
{
    put_text(line, b"kernel_version", text);
}
