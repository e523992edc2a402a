ghost use Rattle.std.specs.Prelude.{◌≡◌, ◌≤◌, ◌+◌, ◌++◌, length, codes, decimal};
ghost use Rattle.image_machine_cli.specs.FaultLines.{fault_line};

use byte_streams::Line;
use core_machine::segments::Fault;

/// Returns the line that says why a core file is refused.
pub(crate) fn fault_line(fault: &Fault) -> Line
    ensures { result ≡ fault_line fault.now }
{
    let mut line = Line::new();
    match *fault {
        Fault::Short { at } => numbered(&mut line, b"core file ends at byte ", at, b""),
        Fault::Magic => line.put(b"no ELF file"),
        Fault::Class { class } => numbered(&mut line, b"ELF class ", u64::from(class), b""),
        Fault::Order { order } => numbered(&mut line, b"ELF byte order ", u64::from(order), b""),
        Fault::Version { version } => {
            numbered(&mut line, b"ELF version ", u64::from(version), b"");
        }
        Fault::Type { kind } => numbered(&mut line, b"ELF type ", u64::from(kind), b""),
        Fault::EntrySize { size } => {
            numbered(
                &mut line,
                b"program headers of ",
                u64::from(size),
                b" bytes",
            );
        }
        Fault::Entries { count } => {
            numbered(&mut line, b"program headers ", u64::from(count), b"");
        }
        Fault::Table { place } => numbered(&mut line, b"program headers at byte ", place, b""),
        Fault::NoSegment => line.put(b"no segment"),
        Fault::Sizes { address } => {
            segment(
                &mut line,
                address,
                b": more bytes in the file than in memory",
            );
        }
        Fault::Wraps { address } => segment(&mut line, address, b": ends beyond 2^64"),
        Fault::Limit { address } => {
            numbered(
                &mut line,
                b"limit page frames 65536: address ",
                address,
                b"",
            );
        }
        Fault::Overlap { address } => segment(&mut line, address, b": not above the one before"),
        Fault::Place { address } => segment(&mut line, address, b": its bytes lie before others"),
        Fault::Far { place } => numbered(&mut line, b"segment at byte ", place, b""),
    }
    line.put(b"\n");
    line
}

/// Adds a text about a segment.
fn segment(line: &mut Line, address: u64, text: &[u8])
    requires few { length line.old ≤ 60 }
    requires short { length text.now ≤ 60 }
    ensures added { line.new ≡ line.old ++ codes "segment at address " ++ decimal address ++ text.now }
    ensures len { length line.new ≤ length line.old + 39 + length text.now }
{
    numbered(line, b"segment at address ", address, text);
}

/// Adds a number between two texts.
fn numbered(line: &mut Line, before: &[u8], number: u64, after: &[u8])
    requires few { length line.old ≤ 60 }
    requires first { length before.now ≤ 50 }
    requires second { length after.now ≤ 60 }
    ensures added { line.new ≡ line.old ++ before.now ++ decimal number ++ after.now }
    ensures len { length line.new ≤ length line.old + length before.now + 20 + length after.now }
{
    line.put(before);
    line.put_number(number);
    line.put(after);
}
