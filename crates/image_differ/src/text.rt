//! The lines that are printed for differences.
ghost use Rattle.std.specs.Prelude.{◌≡◌, ◌+◌, ◌≤◌, ◌++◌, length};
ghost use Rattle.image_check.specs.Lines.{named};
ghost use Rattle.image_differ.specs.Lines.{line_of, pair_text, part_text};

use crate::{Difference, Part};
use byte_streams::Line;

/// Returns the line of a difference.
pub fn line_of(difference: &Difference) -> Line
    ensures { result ≡ line_of difference.now }
{
    let mut line = Line::new();
    match *difference {
        Difference::Flags { first, second } => put_pair(
            &mut line,
            b"header flags ",
            u64::from(first),
            u64::from(second),
        ),
        Difference::HardwareSignature { first, second } => put_pair(
            &mut line,
            b"header hardware signature ",
            u64::from(first),
            u64::from(second),
        ),
        Difference::Identity(part) => {
            line.put(b"identity ");
            put_part(&mut line, part);
        }
        Difference::MemorySize { first, second } => put_pair(
            &mut line,
            b"memory size ",
            first,
            second,
        ),
        Difference::FirstAlone(frame) => put_named(&mut line, b"frame ", frame, b" first alone"),
        Difference::SecondAlone(frame) => put_named(&mut line, b"frame ", frame, b" second alone"),
        Difference::Page(frame) => put_named(&mut line, b"page ", frame, b""),
    }
    line.put(b"\n");
    line
}

/// Writes a name, and a number of each image, into an empty buffer.
fn put_pair(line: &mut Line, name: &[u8], first: u64, second: u64)
    requires empty { length line.old ≡ 0 }
    requires short { length name.now ≤ 30 }
    ensures text { line.new ≡ pair_text name.now first second }
    ensures len { length line.new ≤ length name.now + 41 }
{
    line.put(name);
    line.put_number(first);
    line.put(b" ");
    line.put_number(second);
}

/// Writes a name, a number, and what follows them, into an empty buffer.
fn put_named(line: &mut Line, name: &[u8], number: u64, after: &[u8])
    requires empty { length line.old ≡ 0 }
    requires short { length name.now + length after.now ≤ 50 }
    ensures text { line.new ≡ named name.now number after.now }
    ensures len { length line.new ≤ length name.now + length after.now + 20 }
{
    line.put(name);
    line.put_number(number);
    line.put(after);
}

/// Adds the words of a part of an identity.
fn put_part(line: &mut Line, part: Part)
    requires { length line.old ≤ 20 }
    ensures added { line.new ≡ line.old ++ part_text part }
    ensures len { length line.new ≤ length line.old + 12 }
{
    match part {
        Part::VersionCode => line.put(b"version code"),
        Part::Sysname => line.put(b"sysname"),
        Part::Nodename => line.put(b"nodename"),
        Part::Release => line.put(b"release"),
        Part::Version => line.put(b"version"),
        Part::Machine => line.put(b"machine"),
        Part::Domainname => line.put(b"domainname"),
    }
}
