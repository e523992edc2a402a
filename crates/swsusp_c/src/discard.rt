//! The functions that C calls to give an image up.
ghost use Rattle.std.specs.Prelude.{◌≡◌, ◌≢◌, length};
ghost use Rattle.boot_resume.specs.declared.discard.step.Step.TheVariants as step;
ghost use Rattle.swsusp_c.specs.Codes.{discard_code, step_state_code};
ghost use Rattle.swsusp_c.specs.Steps.{AnswersStep, FailsStep, failed_by, left_code, refused_by, step_code, step_of};

use crate::calls::{SwsuspCall, of_kind, refused};
use crate::codes::{BAD_PAGE, BAD_STATE, DONE, FAILED, OK, READ, REFUSED, SYNC, WRITE};
use boot_resume::discard::{Discard, Left, Step};
use page_core::Page;

/// The giving up of an image (`struct swsusp_discard`): the next call.
#[repr(C)]
#[derive(Drop)]
pub struct SwsuspDiscard {
    pub call: SwsuspCall,
}

/// Begins to give up the image whose header is in block `header`. Writes all of `discard`.
#[unsafe(no_mangle)]
pub extern "C" fn swsusp_discard_begin(discard: &mut SwsuspDiscard, header: u64)
    ensures { discard.new.call ≡ step_code (step.Read header) }
{
    discard.call = step_code(Step::Read { block: header });
}

/// Writes to `call` the call to be made next, or how giving the image up ended.
#[unsafe(no_mangle)]
pub extern "C" fn swsusp_discard_next(discard: &SwsuspDiscard, call: &mut SwsuspCall)
    ensures { call.new ≡ discard.now.call }
{
    *call = discard.call;
}

/// Records that the pending call was made. `page` is the caller's buffer of 4096 bytes. After the end nothing changes.
///
/// Returns `OK`; or `BAD_PAGE` or else `BAD_STATE`, and then nothing was changed.
#[unsafe(no_mangle)]
pub extern "C" fn swsusp_discard_answer(discard: &mut SwsuspDiscard, page: &mut [u8]) -> u32
    ensures code { result ≡ discard_code discard.old.call page.old }
    ensures answered { AnswersStep discard.old.call page.old discard.new.call page.new result }
    ensures refused { (result ≢ 0) → discard.new ≡ discard.old }
    ensures kept { (result ≢ 0) → page.new ≡ page.old }
    ensures length { length page.new ≡ length page.old }
{
    if page.len() != 4096 {
        return BAD_PAGE;
    }
    let Some(step) = step_of(&discard.call) else {
        return BAD_STATE;
    };
    let mut pending = Discard { step };
    let mut buffer = Page::zero();
    buffer.copy_from_slice(page);
    pending.answer(&mut buffer);
    page.copy_from_slice(buffer.as_bytes());
    discard.call = step_code(pending.next());
    OK
}

/// Records that the pending call failed, which ends the attempt. After the end nothing changes.
///
/// Returns `OK`; or `BAD_STATE`, and then nothing was changed.
#[unsafe(no_mangle)]
pub extern "C" fn swsusp_discard_fail(discard: &mut SwsuspDiscard) -> u32
    ensures code { result ≡ step_state_code discard.old.call }
    ensures failed { FailsStep discard.old.call discard.new.call result }
    ensures refused { (result ≢ 0) → discard.new ≡ discard.old }
{
    let Some(step) = step_of(&discard.call) else {
        return BAD_STATE;
    };
    let mut pending = Discard { step };
    pending.fail();
    discard.call = step_code(pending.next());
    OK
}

/// Returns the numbers of a step.
fn step_code(step: Step) -> SwsuspCall
    ensures { result ≡ step_code step }
{
    match step {
        Step::Read { block } => of_kind(READ, block),
        Step::Write { block } => of_kind(WRITE, block),
        Step::Sync => of_kind(SYNC, 0),
        Step::Discarded => of_kind(DONE, 0),
        Step::NoImage => refused(1, 0, 0),
        Step::NoOriginal => refused(14, 0, 0),
        Step::Failed { left } => of_kind(FAILED, left_code(left)),
    }
}

fn left_code(left: Left) -> u64
    ensures { result ≡ left_code left }
{
    match left {
        Left::Same => 1,
        Left::Unsure => 2,
    }
}

/// Returns the step of these numbers.
fn step_of(call: &SwsuspCall) -> Option<Step>
    ensures { result ≡ step_of call.now }
{
    match call.kind {
        SYNC => Some(Step::Sync),
        READ => Some(Step::Read { block: call.first }),
        WRITE => Some(Step::Write { block: call.first }),
        DONE => Some(Step::Discarded),
        REFUSED => refused_by(call.reason),
        FAILED => failed_by(call.first),
        _ => None,
    }
}

fn refused_by(reason: u32) -> Option<Step>
    ensures { result ≡ refused_by reason }
{
    match reason {
        1 => Some(Step::NoImage),
        14 => Some(Step::NoOriginal),
        _ => None,
    }
}

fn failed_by(left: u64) -> Option<Step>
    ensures { result ≡ failed_by left }
{
    match left {
        1 => Some(Step::Failed { left: Left::Same }),
        2 => Some(Step::Failed { left: Left::Unsure }),
        _ => None,
    }
}
