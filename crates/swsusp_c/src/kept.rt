//! The state of a check, as numbers and a page.
ghost use Rattle.std.specs.Prelude.{◌≡◌};
ghost use Rattle.swsusp_c.specs.Checks.{check_by, check_code, counts_by, counts_or, format_by, format_number, names_by};
ghost use Rattle.swsusp_c.specs.Checks.{has_counts_of, stage_block, stage_by, stage_number};

use crate::state::{has_of, last_by, number_of};
use boot_check::{Check, Names, Stage};
use image_check::{Counts, Outcome, Progress};
use image_walk::{Limits, Walk};
use page_core::{Format, Page};

/// A check (`struct swsusp_check`): the fields of `Check`, none of which a caller in C reads.
#[repr(C)]
#[derive(Drop)]
pub struct SwsuspCheck {
    pub at: u64,
    pub next: u64,
    pub entry: u64,
    pub image_pages: u64,
    pub pages: u64,
    pub previous: u64,
    pub counted: u64,
    pub stage: u32,
    pub block: u32,
    pub blocks: u32,
    pub header: u32,
    pub last: u32,
    pub skips_zeros: u32,
    pub maps: u32,
    pub over: u32,
    pub has_counts: u32,
    pub has_previous: u32,
    pub has_counted: u32,
    pub bad: [u32; 630],
    pub map: [u8; 4096],
}

/// Returns the numbers and the page of a check.
pub(crate) fn check_code(check: &Check) -> SwsuspCheck
    ensures { result ≡ check_code check.now }
{
    let Names {
        limits,
        format,
        walk,
        progress,
    } = &check.names;
    let counts = counts_or(progress.counts);
    SwsuspCheck {
        at: walk.at,
        next: walk.next,
        entry: walk.entry as u64,
        image_pages: counts.image_pages,
        pages: counts.pages,
        previous: number_of(progress.previous),
        counted: number_of(progress.counted),
        stage: stage_number(check.stage),
        block: stage_block(check.stage),
        blocks: limits.blocks,
        header: limits.header,
        last: limits.last,
        skips_zeros: format_number(*format),
        maps: walk.maps,
        over: u32::from(walk.over),
        has_counts: has_counts_of(progress.counts),
        has_previous: has_of(progress.previous),
        has_counted: has_of(progress.counted),
        bad: limits.bad,
        map: *walk.map.as_bytes(),
    }
}

/// Returns the check of these numbers, if its stage is a valid one.
pub(crate) fn check_of(state: &SwsuspCheck) -> Option<Check>
    ensures { result ≡ check_by state.now }
{
    Some(Check {
        stage: stage_by(state.stage, state.block)?,
        names: names_of(state),
    })
}

/// Returns what a check keeps of the names of an image.
fn names_of(state: &SwsuspCheck) -> Names
    ensures { result ≡ names_by state.now }
{
    Names {
        limits: Limits {
            blocks: state.blocks,
            header: state.header,
            last: state.last,
            bad: state.bad,
        },
        format: format_by(state.skips_zeros),
        walk: Walk {
            maps: state.maps,
            at: state.at,
            map: Page::from_bytes(&state.map),
            entry: state.entry as usize,
            next: state.next,
            over: state.over != 0,
        },
        progress: Progress {
            counts: counts_by(state.has_counts, state.image_pages, state.pages),
            previous: last_by(state.has_previous, state.previous),
            counted: last_by(state.has_counted, state.counted),
        },
    }
}

fn stage_number(stage: Stage) -> u32
    ensures { result ≡ stage_number stage }
{
    match stage {
        Stage::Header => 1,
        Stage::Name { .. } => 2,
        Stage::Over(Outcome::NoImage) => 3,
        Stage::Over(Outcome::Checked) => 4,
    }
}

fn stage_block(stage: Stage) -> u32
    ensures { result ≡ stage_block stage }
{
    match stage {
        Stage::Name { block } => block,
        _ => 0,
    }
}

fn stage_by(stage: u32, block: u32) -> Option<Stage>
    ensures { result ≡ stage_by stage block }
{
    match stage {
        1 => Some(Stage::Header),
        2 => Some(Stage::Name { block }),
        3 => Some(Stage::Over(Outcome::NoImage)),
        4 => Some(Stage::Over(Outcome::Checked)),
        _ => None,
    }
}

fn format_number(format: Format) -> u32
    ensures { result ≡ format_number format }
{
    match format {
        Format::Plain => 0,
        Format::SkipZeros => 1,
    }
}

fn format_by(number: u32) -> Format
    ensures { result ≡ format_by number }
{
    if number == 0 {
        Format::Plain
    } else {
        Format::SkipZeros
    }
}

fn has_counts_of(counts: Option<Counts>) -> u32
    ensures { result ≡ has_counts_of counts }
{
    match counts {
        None => 0,
        Some(_) => 1,
    }
}

fn counts_or(counts: Option<Counts>) -> Counts
    ensures { result ≡ counts_or counts }
{
    match counts {
        None => Counts {
            image_pages: 0,
            pages: 0,
        },
        Some(counts) => counts,
    }
}

fn counts_by(has: u32, image_pages: u64, pages: u64) -> Option<Counts>
    ensures { result ≡ counts_by has image_pages pages }
{
    if has == 0 {
        None
    } else {
        Some(Counts { image_pages, pages })
    }
}
