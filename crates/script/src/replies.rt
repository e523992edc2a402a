ghost use Rattle.std.specs.Prelude.{◌≡◌, ◌+◌, ◌≤◌, ◌++◌, length, codes, decimal};
ghost use Rattle.plain_machine.specs.Replies.{call_text, field_text, left_text, line_of, one, two};
ghost use Rattle.plain_machine.specs.Replies.{booted_text};
ghost use Rattle.script.specs.Phrases.{IsShort, phrase_text};

use crate::phrases::{Phrase, phrase_of};
use crate::texts::put_no_swap;
use byte_streams::Line;
use definitions::Field;
use plain_machine::{Left, Reply, UndoCall};

/// Writes the line of a reply into an empty buffer.
pub fn line_of(reply: &Reply, line: &mut Line)
    requires { length line.old ≡ 0 }
    ensures { line.new ≡ line_of reply.now }
{
    put_phrase(line, phrase_of(reply));
    line.put(b"\n");
}

/// Writes the text of a phrase.
fn put_phrase(line: &mut Line, phrase: Phrase<'_>)
    requires empty { length line.old ≡ 0 }
    requires short { IsShort phrase }
    ensures text { line.new ≡ phrase_text phrase.entry }
    ensures len { length line.new ≤ 160 }
{
    match phrase {
        Phrase::Words(words) => line.put(words),
        Phrase::One(name, n) => put_one(line, name, u64::from(n)),
        Phrase::Wide(name, n) => put_one(line, name, n),
        Phrase::Two(name, m, between, n) => put_two(line, name, m, between, n),
        Phrase::WideTwo(name, m, between, n) => put_wide(line, name, m, between, n),
        Phrase::Booted(image) => put_booted(line, image),
        Phrase::Undo(call, k) => put_undo(line, call, k),
        Phrase::NoSwap(why) => put_no_swap(line, why),
        Phrase::Mismatch(field) => put_mismatch(line, field),
        Phrase::Fault(name, left) => put_fault(line, name, left),
    }
}

/// Writes a name, which ends in a space, and a number.
fn put_one(line: &mut Line, name: &[u8], number: u64)
    requires empty { length line.old ≡ 0 }
    requires short { length name.now ≤ 40 }
    ensures text { line.new ≡ one name.now number }
    ensures len { length line.new ≤ 160 }
{
    line.put(name);
    line.put_number(number);
}

/// Writes a name, a number, a name and a number.
fn put_wide(line: &mut Line, name: &[u8], first: u64, between: &[u8], second: u64)
    requires empty { length line.old ≡ 0 }
    requires short { length name.now + length between.now ≤ 60 }
    ensures text { line.new ≡ two name.now first between.now second }
    ensures len { length line.new ≤ 160 }
{
    line.put(name);
    line.put_number(first);
    line.put(between);
    line.put_number(second);
}

fn put_two(line: &mut Line, name: &[u8], first: u32, between: &[u8], second: u32)
    requires empty { length line.old ≡ 0 }
    requires short { length name.now + length between.now ≤ 60 }
    ensures text { line.new ≡ two name.now first between.now second }
    ensures len { length line.new ≤ 160 }
{
    put_wide(line, name, u64::from(first), between, u64::from(second));
}

fn put_booted(line: &mut Line, image: bool)
    requires { length line.old ≡ 0 }
    ensures text { line.new ≡ booted_text image }
    ensures len { length line.new ≤ 160 }
{
    if image {
        line.put(b"booted image yes");
    } else {
        line.put(b"booted image no");
    }
}

fn put_undo(line: &mut Line, call: UndoCall, k: u32)
    requires { length line.old ≡ 0 }
    ensures text { line.new ≡ codes "undo " ++ call_text call ++ codes " " ++ decimal k }
    ensures len { length line.new ≤ 160 }
{
    line.put(b"undo ");
    match call {
        UndoCall::Write => line.put(b"write"),
        UndoCall::Sync => line.put(b"sync"),
    }
    line.put(b" ");
    line.put_number(u64::from(k));
}

fn put_mismatch(line: &mut Line, field: Field)
    requires { length line.old ≡ 0 }
    ensures text { line.new ≡ codes "mismatch " ++ field_text field }
    ensures len { length line.new ≤ 160 }
{
    line.put(b"mismatch ");
    match field {
        Field::VersionCode => line.put(b"version code"),
        Field::Sysname => line.put(b"sysname"),
        Field::Release => line.put(b"release"),
        Field::Version => line.put(b"version"),
        Field::Machine => line.put(b"machine"),
    }
}

fn put_fault(line: &mut Line, name: &[u8], left: Left)
    requires empty { length line.old ≡ 0 }
    requires short { length name.now ≤ 40 }
    ensures text { line.new ≡ name.now ++ left_text left }
    ensures len { length line.new ≤ 160 }
{
    line.put(name);
    match left {
        Left::Same => line.put(b"same"),
        Left::Gone => line.put(b"gone"),
        Left::Unsure => line.put(b"unsure"),
    }
}
