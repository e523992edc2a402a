//! The lines that are printed for findings.
ghost use Rattle.std.specs.Prelude.{◌≡◌, ◌+◌, ◌≤◌, ◌++◌, codes, decimal, length};
ghost use Rattle.byteorder.specs.Endian.{big_bytes};
ghost use Rattle.plain_machine.specs.Replies.{hex_text};
ghost use Rattle.image_check.specs.Lines.{area_text, block_text, finding_text, line_of, named, place_text, word_text};
ghost use Rattle.image_check.specs.Lines.{checksum_text, kind_text, size_text, stream_text, unit_text};

use crate::{Finding, Place};
use byte_streams::Line;
use byteorder::{BigEndian, ByteOrder};
use compression::lzo::{Kind, LzoFault};
use image_format::AreaFault;
use image_walk::BlockFault;

/// Returns the line of a finding.
pub(crate) fn line_of(finding: &Finding) -> Line
    ensures { result ≡ line_of finding.now }
{
    let mut line = Line::new();
    put_finding(&mut line, finding);
    line.put(b"\n");
    line
}

/// Writes the text of a finding into an empty buffer.
fn put_finding(line: &mut Line, finding: &Finding)
    requires { length line.old ≡ 0 }
    ensures text { line.new ≡ finding_text finding.now }
    ensures len { length line.new ≤ 180 }
{
    match *finding {
        Finding::HeaderUnread(block) => {
            put_named(line, b"header block ", u64::from(block), b": can't be read");
        }
        Finding::OriginalSignature => line.put(b"header: the original signature is no swap area's"),
        Finding::Area(why) => {
            line.put(b"header: the area has ");
            put_area(line, why);
        }
        Finding::LastPage { last, blocks } => {
            put_named(
                line,
                b"header: last page ",
                u64::from(last),
                b", but the file has ",
            );
            put_named(line, b"", u64::from(blocks), b" blocks");
        }
        Finding::Compressed(flags) => put_named(
            line,
            b"header: flags ",
            u64::from(flags),
            b", a compressed image, which can't be read yet",
        ),
        Finding::Map { map, why } => {
            put_named(line, b"map ", u64::from(map), b": ");
            put_block(line, why);
        }
        Finding::Ends { map, pages } => {
            put_named(
                line,
                b"map ",
                u64::from(map),
                b": no next map, though the image has ",
            );
            put_named(line, b"", pages, b" pages");
        }
        Finding::AfterMaps { map, block } => {
            put_named(line, b"map ", u64::from(map), b" block ");
            put_named(line, b"", block, b": after the last map");
        }
        Finding::Entry { place, why } => {
            put_place(line, place);
            line.put(b": ");
            put_block(line, why);
        }
        Finding::AfterPages { place, block } => {
            put_place(line, place);
            put_named(line, b": block ", block, b" after the last page");
        }
        Finding::NoEnd(name) => put_named(line, b"info page name ", u64::from(name), b": no end"),
        Finding::Magic(magic) => put_magic(line, magic),
        Finding::Counts { image_pages, pages } => {
            put_named(
                line,
                b"info page: image pages ",
                image_pages,
                b", but pages ",
            );
            line.put_number(pages);
        }
        Finding::Size { size, pages } => {
            put_named(line, b"info page: size ", size, b", but pages ");
            line.put_number(pages);
        }
        Finding::Number { page, word, number } => {
            put_word(line, page, word);
            put_named(line, b"", number, b" is no page frame");
        }
        Finding::Order {
            page,
            word,
            number,
            before,
        } => {
            put_word(line, page, word);
            put_named(line, b"", number, b" after ");
            line.put_number(before);
        }
        Finding::End { page, word, found } => {
            put_word(line, page, word);
            put_named(line, b"", found, b" after the last number");
        }
        Finding::DataPages { counted, pages } => {
            put_named(line, b"number pages: data pages ", counted, b", but pages ");
            line.put_number(pages);
        }
        Finding::UnitLength {
            unit,
            place,
            length,
        } => {
            put_unit_place(line, unit, place);
            put_named(line, b": length ", length, b"");
        }
        Finding::UnitStream { unit, why } => put_stream(line, unit, why),
        Finding::UnitSize {
            unit,
            bytes,
            wanted,
        } => put_size(line, unit, bytes, wanted),
        Finding::Checksum { header, units } => put_checksum(line, header, units),
    }
}

/// Adds a name, a number, and what follows them.
fn put_named(line: &mut Line, name: &[u8], number: u64, after: &[u8])
    requires { length line.old + length name.now + length after.now ≤ 172 }
    ensures added { line.new ≡ line.old ++ named name.now number after.now }
    ensures len { length line.new ≤ length line.old + length name.now + length after.now + 20 }
{
    line.put(name);
    line.put_number(number);
    line.put(after);
}

fn put_area(line: &mut Line, why: AreaFault)
    requires { length line.old ≤ 100 }
    ensures added { line.new ≡ line.old ++ area_text why }
    ensures len { length line.new ≤ length line.old + 60 }
{
    match why {
        AreaFault::Version { version } => put_named(line, b"version ", u64::from(version), b""),
        AreaFault::BadCount { count } => put_named(line, b"", u64::from(count), b" bad pages"),
        AreaFault::LastZero => line.put(b"last page 0"),
        AreaFault::BadEntry { slot } => put_named(
            line,
            b"bad page ",
            u64::from(slot),
            b" is no slot",
        ),
    }
}

fn put_block(line: &mut Line, why: BlockFault)
    requires { length line.old ≤ 120 }
    ensures added { line.new ≡ line.old ++ block_text why }
    ensures len { length line.new ≤ length line.old + 60 }
{
    match why {
        BlockFault::Zero => line.put(b"block 0"),
        BlockFault::BeyondFile(block) => put_named(line, b"block ", block, b" is beyond the file"),
        BlockFault::BeyondLast(block) => {
            put_named(line, b"block ", block, b" is beyond the last page");
        }
        BlockFault::Bad(block) => put_named(line, b"block ", block, b" is a bad page"),
        BlockFault::Again(block) => put_named(line, b"block ", block, b" is named already"),
        BlockFault::Unread(block) => put_named(line, b"block ", block, b" can't be read"),
    }
}

/// Writes the place of an entry into an empty buffer.
fn put_place(line: &mut Line, place: Place)
    requires { length line.old ≡ 0 }
    ensures text { line.new ≡ place_text place }
    ensures len { length line.new ≤ 90 }
{
    put_named(line, b"map ", u64::from(place.map), b" block ");
    put_named(line, b"", place.at, b" entry ");
    line.put_number(u64::from(place.entry));
}

/// Writes the place of a number into an empty buffer.
fn put_word(line: &mut Line, page: u64, word: u32)
    requires { length line.old ≡ 0 }
    ensures text { line.new ≡ word_text page word }
    ensures len { length line.new ≤ 90 }
{
    put_named(line, b"numbers page ", page, b" word ");
    put_named(line, b"", u64::from(word), b": ");
}

/// Writes a magic number as 16 hexadecimal digits into an empty buffer.
fn put_magic(line: &mut Line, magic: u64)
    requires { length line.old ≡ 0 }
    ensures text { line.new ≡ codes "info page: the header of an architecture, but with magic 0x"
        ++ hex_text (big_bytes 8 magic) }
    ensures len { length line.new ≤ 120 }
{
    let mut bytes = [0; 8];
    BigEndian::write_u64(&mut bytes, magic);
    line.put(b"info page: the header of an architecture, but with magic 0x");
    line.put_hex(&bytes);
}

/// Writes the number of a unit and the place of its first page into an empty buffer.
fn put_unit_place(line: &mut Line, unit: u32, place: Place)
    requires { length line.old ≡ 0 }
    ensures text { line.new ≡ unit_text unit ++ place_text place }
    ensures len { length line.new ≤ 120 }
{
    put_named(line, b"unit ", u64::from(unit), b" ");
    put_named(line, b"map ", u64::from(place.map), b" block ");
    put_named(line, b"", place.at, b" entry ");
    line.put_number(u64::from(place.entry));
}

/// Writes the fault of a unit's stream into an empty buffer.
fn put_stream(line: &mut Line, unit: u32, why: LzoFault)
    requires { length line.old ≡ 0 }
    ensures text { line.new ≡ stream_text unit why }
    ensures len { length line.new ≤ 120 }
{
    put_named(line, b"unit ", u64::from(unit), b" byte ");
    put_named(line, b"", why.at as u64, b": ");
    put_kind(line, why.kind);
}

fn put_kind(line: &mut Line, kind: Kind)
    requires { length line.old ≤ 100 }
    ensures added { line.new ≡ line.old ++ kind_text kind }
    ensures len { length line.new ≤ length line.old + 30 }
{
    match kind {
        Kind::Versioned => line.put(b"a stream of another version"),
        Kind::InputTooShort => line.put(b"the input is too short"),
        Kind::OutputTooLong => line.put(b"the output is too long"),
        Kind::BeforeBegin => line.put(b"a match before the begin"),
        Kind::BadEnd => line.put(b"a bad end marker"),
        Kind::BehindEnd => line.put(b"bytes after the end"),
    }
}

/// Writes how many bytes a unit has and how many it should have into an empty buffer.
fn put_size(line: &mut Line, unit: u32, bytes: u64, wanted: u64)
    requires { length line.old ≡ 0 }
    ensures text { line.new ≡ size_text unit bytes wanted }
    ensures len { length line.new ≤ 120 }
{
    put_named(line, b"unit ", u64::from(unit), b": ");
    put_named(line, b"", bytes, b" bytes, but ");
    put_named(line, b"", wanted, b" are wanted");
}

/// Writes two checksums as eight hexadecimal digits each into an empty buffer.
fn put_checksum(line: &mut Line, header: u32, units: u32)
    requires { length line.old ≡ 0 }
    ensures text { line.new ≡ checksum_text header units }
    ensures len { length line.new ≤ 120 }
{
    let mut bytes = [0; 4];
    BigEndian::write_u32(&mut bytes, header);
    line.put(b"checksum 0x");
    line.put_hex(&bytes);
    let mut bytes = [0; 4];
    BigEndian::write_u32(&mut bytes, units);
    line.put(b", but the units have 0x");
    line.put_hex(&bytes);
}
