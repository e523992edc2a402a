//! The state of a resume, as numbers and two pages.
ghost use Rattle.std.specs.Prelude.{◌≡◌, is_some, None, Some};
ghost use Rattle.swsusp_c.specs.Codes.{has_counts, is_state};
ghost use Rattle.swsusp_c.specs.State.{IsLive, has_of, last_by, mark_by, number_of, state_of};
ghost use Rattle.boot_resume.specs.declared.resume.Resume.{Resume};

use crate::calls::{SwsuspCall, call_code, live_call};
use crate::stages::{stage_code, stage_of};
use boot_resume::{Move, Reading, Resume};
use image_format::Mark;
use page_core::Page;

/// A resume (`struct swsusp_resume`): the fields of `Resume`, none of which a caller in C reads.
#[repr(C)]
#[derive(Drop)]
pub struct SwsuspResume {
    pub stage: u32,
    /// Whether a page frame was listed or handed out: 1, or 0 if none was.
    pub has_last: u32,
    pub call: SwsuspCall,
    pub mark_last: u32,
    pub mark_count: u32,
    pub mark_first: u64,
    pub mark_flags: u32,
    pub mark_hw_sig: u32,
    pub saved: u64,
    pub pages: u64,
    pub page: u64,
    pub given: u64,
    pub last: u64,
    pub with_data: u64,
    pub again: u64,
    pub frame: u64,
    pub map: [u8; 4096],
    pub numbers: [u8; 4096],
}

/// Returns the numbers and pages of a resume.
pub(crate) fn state_of(resume: &Resume) -> SwsuspResume
    ensures { result ≡ state_of resume.now }
{
    let reading = &resume.reading;
    SwsuspResume {
        stage: stage_code(resume.pending.stage),
        has_last: has_of(reading.last),
        call: call_code(resume.pending.call),
        mark_last: reading.mark.last,
        mark_count: reading.mark.count,
        mark_first: reading.mark.first,
        mark_flags: reading.mark.flags,
        mark_hw_sig: reading.mark.hw_sig,
        saved: reading.saved,
        pages: reading.pages,
        page: reading.page,
        given: reading.given,
        last: number_of(reading.last),
        with_data: reading.with_data,
        again: reading.again,
        frame: reading.frame,
        map: *reading.map.as_bytes(),
        numbers: *reading.numbers.as_bytes(),
    }
}

pub(crate) fn has_of(last: Option<u64>) -> u32
    ensures { result ≡ has_of last }
{
    match last {
        None => 0,
        Some(_) => 1,
    }
}

pub(crate) fn number_of(last: Option<u64>) -> u64
    ensures { result ≡ number_of last }
{
    match last {
        None => 0,
        Some(number) => number,
    }
}

pub(crate) fn last_by(has_last: u32, last: u64) -> Option<u64>
    ensures { result ≡ last_by has_last last }
{
    if has_last == 0 { None } else { Some(last) }
}

/// Returns the resume of these numbers, if they are those of one that hasn't ended.
pub(crate) fn resume_of(state: &SwsuspResume) -> Option<Resume>
    ensures resume { (r : Resume) → IsLive r → state.now ≡ state_of r → result ≡ Some r }
    ensures state { is_some result ≡ is_state state.now }
{
    let stage = stage_of(state.stage)?;
    let call = live_call(&state.call)?;
    let reading = reading_of(state)?;
    Some(Resume {
        pending: Move { stage, call },
        reading,
    })
}

/// Returns what was read so far, if the counts can be those of a resume.
fn reading_of(state: &SwsuspResume) -> Option<Reading>
    ensures reading { (r : Resume) → state.now ≡ state_of r → result ≡ Some r.reading }
    ensures counts { is_some result ≡ has_counts state.now }
{
    if state.saved >= 1 << 52 {
        return None;
    }
    if state.given > state.saved {
        return None;
    }
    if state.with_data > state.given {
        return None;
    }
    Some(Reading {
        mark: mark_by(state),
        saved: state.saved,
        pages: state.pages,
        page: state.page,
        map: Page::from_bytes(&state.map),
        given: state.given,
        last: last_by(state.has_last, state.last),
        with_data: state.with_data,
        again: state.again,
        numbers: Page::from_bytes(&state.numbers),
        frame: state.frame,
    })
}

fn mark_by(state: &SwsuspResume) -> Mark
    ensures { result ≡ mark_by state.now }
{
    Mark {
        last: state.mark_last,
        count: state.mark_count,
        first: state.mark_first,
        flags: state.mark_flags,
        hw_sig: state.mark_hw_sig,
    }
}
