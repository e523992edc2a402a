//! Keys and values, rendered by serde_json.
ghost use Rattle.std.specs.Prelude.{◌≡◌, IfOk, string_bytes};
ghost use Rattle.json.specs.Print.{quoted};
ghost use Rattle.serde_json.specs.View.{view};
ghost use Rattle.serde_json.specs.Written.{compact_text};
ghost use Rattle.image_json.specs.Values.{characters, number_value, run_value, value_by};

use image_show::Fact;
use itoa::Buffer;
use serde_json::{Value, json};
use std::alloc::{AllocError, Global};

/// The largest number up to which a double holds each whole number.
const MOST: u64 = 1 << 53;

/// Returns the text of a fact's value; `text` is the fact's text in a line.
pub(crate) fn value_text(alloc: Global, fact: &Fact, text: &[u8]) -> Result<String, AllocError>
    ensures { IfOk result (λ value. string_bytes value ≡ compact_text (value_by fact.now text.now)) }
{
    match *fact {
        Fact::Image(marked) => Value::Bool(marked).to_string(alloc),
        Fact::Blocks(n)
        | Fact::LastPage(n)
        | Fact::BadPages(n)
        | Fact::BadPage(n)
        | Fact::Flags(n)
        | Fact::HwSig(n)
        | Fact::Crc32(n)
        | Fact::VersionCode(n) => number_text(alloc, u64::from(n)),
        Fact::FirstMap(n)
        | Fact::MemoryPages(n)
        | Fact::ImagePages(n)
        | Fact::StreamPages(n)
        | Fact::Maps(n)
        | Fact::Units(n)
        | Fact::CompressedBytes(n)
        | Fact::ExpandedBytes(n) => number_text(alloc, n),
        Fact::BlockRun(start, count) | Fact::FrameRun(start, count) => {
            run_text(alloc, start, count)
        }
        _ => string_text(alloc, text),
    }
}

fn number_text(alloc: Global, n: u64) -> Result<String, AllocError>
    ensures { IfOk result (λ text. string_bytes text ≡ compact_text (number_value n)) }
{
    number(alloc, n)?.to_string(alloc)
}

/// Returns a number, or its digits as a string if a double may not hold it.
fn number(alloc: Global, n: u64) -> Result<Value, AllocError>
    ensures { IfOk result (λ value. view value ≡ number_value n) }
{
    if n <= MOST {
        return Ok(Value::from(n));
    }
    let mut buffer = Buffer::new();
    Value::try_from_str(alloc, buffer.format(n))
}

fn run_text(alloc: Global, start: u64, count: u64) -> Result<String, AllocError>
    ensures { IfOk result (λ text. string_bytes text ≡ compact_text (run_value start count)) }
{
    let start = number(alloc, start)?;
    let count = number(alloc, count)?;
    json!(in alloc; [start, count])?.to_string(alloc)
}

/// Returns bytes as a JSON string.
pub(crate) fn string_text(alloc: Global, bytes: &[u8]) -> Result<String, AllocError>
    ensures { IfOk result (λ text. string_bytes text ≡ quoted (characters bytes.now)) }
{
    Value::String(characters(alloc, bytes)?).to_string(alloc)
}

/// Returns bytes as text, each as the character with its number.
pub(crate) fn characters(alloc: Global, bytes: &[u8]) -> Result<String, AllocError>
    ensures { IfOk result (λ text. string_bytes text ≡ characters bytes.now) }
{
    let mut text = String::new(alloc);
    for &b in bytes {
        text.push(char::from(b))?;
    }
    Ok(text)
}
