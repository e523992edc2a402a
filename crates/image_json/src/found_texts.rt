//! The texts of findings as JSON values.
ghost use Rattle.std.specs.Prelude.{◌≡◌, IfOk, map};
ghost use Rattle.byte_streams.specs.Memory.{taken_by};
ghost use Rattle.image_check.specs.Lines.{finding_text, line_of};
ghost use Rattle.serde_json.specs.View.{view};
ghost use Rattle.image_json.specs.Findings.{text_value};

use crate::values::characters;
use byte_streams::MemSink;
use image_check::{Finding, Printer, Report};
use serde_json::Value;
use std::alloc::{AllocError, Global};

/// The most bytes of a line.
const LINE: usize = 192;

/// Returns the texts of findings, in order.
pub(crate) fn text_values(alloc: Global, findings: &[Finding]) -> Result<Vec<Value>, AllocError>
    ensures { IfOk result (λ values. map view values.items
        ≡ map (λ finding. text_value (finding_text finding)) findings.now) }
{
    let mut values = Vec::new(alloc);
    for finding in findings {
        values.push(text_value(alloc, finding)?)?;
    }
    Ok(values)
}

/// Returns the text of a finding: its line without the end.
fn text_value(alloc: Global, finding: &Finding) -> Result<Value, AllocError>
    ensures { IfOk result (λ value. view value ≡ text_value (finding_text finding.now)) }
{
    let line = line_of(alloc, finding)?;
    let text = line.as_bytes();
    Ok(Value::String(characters(alloc, &text[..text.len() - 1])?))
}

/// Returns the line that `image_check` prints for a finding.
fn line_of(alloc: Global, finding: &Finding) -> Result<MemSink, AllocError>
    ensures { IfOk result (λ line. taken_by line ≡ line_of finding.now) }
{
    let room = Vec::with_capacity(alloc, LINE)?;
    let mut printer = Printer::new(MemSink::new(room, Vec::new(alloc)));
    printer.tell(*finding);
    if printer.failed {
        return Err(AllocError);
    }
    Ok(printer.sink)
}
