//! The lines of /proc that name what the kernel has mounted and swaps to.
use crate::Device;
use std::alloc::{AllocError, Allocator};

/// Returns what a line of /proc/self/mountinfo says of the mounted device: the number of the file system, which for
/// some kinds isn't a device's, and the source, which for some kinds isn't a path.
pub fn mounted(line: &str) -> Option<(Device, &str)> {
    let (places, file_system) = line.split_once(" - ")?;
    let number = Device::parse(places.split_ascii_whitespace().nth(2)?)?;
    Some((number, file_system.split_ascii_whitespace().nth(1)?))
}

/// A swap area of the kernel, by its path in a line of /proc/swaps.
#[derive(Clone, Copy, PartialEq, Eq, Debug)]
pub enum SwapArea<'a> {
    Device(&'a str),
    File(&'a str),
}

/// Returns the swap area of a line of /proc/swaps. The first line has none.
pub fn swap_area(line: &str) -> Option<SwapArea<'_>> {
    let mut words = line.split_ascii_whitespace();
    let path = words.next()?;
    match words.next()? {
        "partition" => Some(SwapArea::Device(path)),
        "file" => Some(SwapArea::File(path)),
        _ => None,
    }
}

/// Unescapes a path that /proc prints, in which a backslash and three octal digits stand for a space, a tab, a line
/// feed and a backslash (`mangle_path`, fs/seq_file.c).
pub fn unescaped<A: Allocator>(alloc: A, text: &str) -> Result<String<A>, AllocError> {
    let mut path = String::new(alloc);
    for (at, piece) in text.split('\\').enumerate() {
        let (first, rest) = match octal_start(piece) {
            Some(start) if at > 0 => start,
            _ if at > 0 => ("\\", piece),
            _ => ("", piece),
        };
        path.push_str(first)?;
        path.push_str(rest)?;
    }
    Ok(path)
}

/// Returns the character that the first three digits of a piece stand for, and what follows them.
fn octal_start(piece: &str) -> Option<(&'static str, &str)> {
    for (digits, byte) in [("040", " "), ("011", "\t"), ("012", "\n"), ("134", "\\")] {
        if let Some(rest) = piece.strip_prefix(digits) {
            return Some((byte, rest));
        }
    }
    None
}
