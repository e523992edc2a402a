ghost use Rattle.std.specs.Prelude.{◌≡◌, ◌≤◌, List, Option, Some, IfOk, string_bytes};
ghost use Rattle.serde_json.specs.View.{view};
ghost use Rattle.image_check.specs.Checked.{Finds};
ghost use Rattle.image_check.specs.Told.{Tells};
ghost use Rattle.image_check.specs.declared.finding.Finding.{Finding};
ghost use Rattle.image_json.specs.Findings.{check_line, check_object, found_line, found_whole, is_whole, untold};

use crate::findings::Findings;
use crate::found_texts::text_values;
use image_check::{Finding, Outcome, Report};
use page_core::NoMemory;
use sector_disk::Disk;
use serde_json::{Value, json};
use std::alloc::{AllocError, Global};

/// What a check has found.
#[derive(Drop)]
pub struct Checked {
    /// The object, on one line.
    pub line: String,
    /// Whether there is an image and nothing is wrong with it.
    pub whole: bool,
}

/// Returns what is wrong with the image of the area whose header lies in block `header`, as one object on a line: the
/// texts of the findings of `image_check::check`, in order, whether there is an image, and whether it is whole. It
/// takes memory for each finding.
pub fn check<D: Disk>(alloc: Global, disk: &mut D, header: u32) -> Result<Checked, NoMemory>
    ensures told { IfOk result (λ checked. (found : Option (List Finding)) ×
        (Finds (D.content disk.old) (D.block_count disk.old) header (D.faults disk.old) (D.faults disk.new) found
        × ((string_bytes checked.line ≡ found_line found) × (checked.whole ≡ found_whole found)))) }
    ensures content { D.content disk.new ≡ D.content disk.old }
    ensures faults { D.faults disk.old ≤ D.faults disk.new }
    ensures orders { D.orders disk.new ≡ D.orders disk.old }
    ensures blocks { D.block_count disk.new ≡ D.block_count disk.old }
{
    let mut findings = Findings::new(alloc);
    match image_check::check(alloc, disk, header, &mut findings)? {
        Outcome::NoImage => ended(alloc, false, &[]),
        Outcome::Checked => sum_up(alloc, &findings),
    }
}

/// Returns what is wrong with an image, from the findings that were kept of it.
pub fn sum_up(alloc: Global, findings: &Findings) -> Result<Checked, NoMemory>
    ensures { (found : List Finding) → Tells found untold (⟦<Findings as Report>⟧.told findings.now) →
        IfOk result (λ checked. (string_bytes checked.line ≡ found_line (Some found))
        × (checked.whole ≡ found_whole (Some found))) }
{
    if findings.refused {
        return Err(NoMemory);
    }
    ended(alloc, true, findings.kept.as_slice())
}

/// Returns the line of these findings.
fn ended(alloc: Global, image: bool, findings: &[Finding]) -> Result<Checked, NoMemory>
    ensures line { IfOk result (λ checked. string_bytes checked.line ≡ check_line image findings.now) }
    ensures whole { IfOk result (λ checked. checked.whole ≡ is_whole image findings.now) }
{
    match line(alloc, image, findings) {
        Ok(line) => Ok(Checked {
            line,
            whole: is_whole(image, findings),
        }),
        Err(AllocError) => Err(NoMemory),
    }
}

fn line(alloc: Global, image: bool, findings: &[Finding]) -> Result<String, AllocError>
    ensures { IfOk result (λ line. string_bytes line ≡ check_line image findings.now) }
{
    let object = object(alloc, image, findings)?;
    let mut line = object.to_string(alloc)?;
    line.push_str("\n")?;
    Ok(line)
}

fn object(alloc: Global, image: bool, findings: &[Finding]) -> Result<Value, AllocError>
    ensures { IfOk result (λ object. view object ≡ check_object image findings.now) }
{
    let texts = text_values(alloc, findings)?;
    let whole = is_whole(image, findings);
    json!(in alloc; {"findings": texts, "image": image, "whole": whole})
}

fn is_whole(image: bool, findings: &[Finding]) -> bool
    ensures { result ≡ is_whole image findings.now }
{
    image && findings.is_empty()
}
