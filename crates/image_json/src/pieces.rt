//! The texts of an object's members, one after another.
ghost use Rattle.std.specs.Prelude.{◌≡◌, ◌≤◌, IfOk, flat_map, length, string_bytes};
ghost use Rattle.image_json.specs.Pieces.{closing, end_of, is_next_item, piece, start_of};
ghost use Rattle.image_json.specs.Values.{key_in, value_in};

use crate::array::array_of;
use crate::values::{string_text, value_text};
use image_show::{Fact, text_of};
use std::alloc::{AllocError, Global};

/// Returns what is printed for a fact after the one before it.
pub(crate) fn piece(alloc: Global, last: &Option<Fact>, fact: &Fact) -> Result<String, AllocError>
    ensures { IfOk result (λ text. string_bytes text ≡ piece last.now fact.now) }
{
    let line = text_of(fact);
    let key = key_in(line.as_bytes());
    let value = value_text(alloc, fact, value_in(line.as_bytes()))?;
    if is_next_item(last, fact) {
        return joined(alloc, &[",", value.as_str()]);
    }
    let key = string_text(alloc, key)?;
    joined(
        alloc,
        &[end_of(last), key.as_str(), start_of(fact), value.as_str()],
    )
}

/// Returns what is printed after the last fact.
pub(crate) fn closing(last: &Option<Fact>) -> &'static str
    ensures { result.now ≡ closing last.now }
{
    match last {
        None => "{}\n",
        Some(fact) if array_of(fact).is_some() => "]}\n",
        Some(_) => "}\n",
    }
}

/// Returns whether a fact is an item of the array that the one before it is in.
fn is_next_item(last: &Option<Fact>, fact: &Fact) -> bool
    ensures { result ≡ is_next_item last.now fact.now }
{
    match last {
        Some(last) => array_of(last).is_some() && array_of(last) == array_of(fact),
        None => false,
    }
}

/// Returns what comes between a fact and the key of the next one.
fn end_of(last: &Option<Fact>) -> &'static str
    ensures { result.now ≡ end_of last.now }
{
    match last {
        None => "{",
        Some(fact) if array_of(fact).is_some() => "],",
        Some(_) => ",",
    }
}

/// Returns what comes between a key and its value or its first item.
fn start_of(fact: &Fact) -> &'static str
    ensures { result.now ≡ start_of fact.now }
{
    if array_of(fact).is_some() { ":[" } else { ":" }
}

/// Concatenates texts.
pub(crate) fn joined(alloc: Global, texts: &[&str]) -> Result<String, AllocError>
    ensures { IfOk result (λ text. string_bytes text ≡ flat_map (λ part. part.now) texts.now) }
{
    let mut all = String::new(alloc);
    for text in texts {
        all.push_str(text)?;
    }
    Ok(all)
}

/// Returns the key of a line.
fn key_in(text: &[u8]) -> &[u8]
    ensures { result.now ≡ key_in text.now }
{
    &text[..key_len(text)]
}

/// Returns the value of a line, which follows its key and a space.
fn value_in(text: &[u8]) -> &[u8]
    ensures { result.now ≡ value_in text.now }
{
    text.get(key_len(text) + 1..).unwrap_or(b"")
}

fn key_len(text: &[u8]) -> usize
    ensures key { result ≡ length (key_in text.now) }
    ensures short { result ≤ length text.now }
{
    text.iter().take_while(|b| **b != b' ').count()
}
