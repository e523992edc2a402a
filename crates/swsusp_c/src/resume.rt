//! The functions that C calls to resume an image.
ghost use Rattle.std.specs.Prelude.{◌≡◌, ◌≢◌, List, ℕ, length};
ghost use Rattle.swsusp_c.specs.Calls.{is_over};
ghost use Rattle.swsusp_c.specs.Codes.{answer_code, state_code};
ghost use Rattle.swsusp_c.specs.Turns.{Answers, Fails, HasBegun, IsAnswerable, Stays};

use crate::calls::SwsuspCall;
use crate::codes::{BAD_PAGE, BAD_STATE, DONE, FAILED, OK, REFUSED};
use crate::machine::{SwsuspMachine, kernel_of, machine_of};
use crate::state::{SwsuspResume, resume_of, state_of};
use boot_resume::{FrameRange, Resume};
use page_core::Page;

/// Begins a resume. Writes all of `state`. The first call is a sync.
#[unsafe(no_mangle)]
pub extern "C" fn swsusp_resume_begin(state: &mut SwsuspResume)
    ensures { HasBegun state.new }
{
    *state = state_of(&Resume::new());
}

/// Writes to `call` the call to be made next, or how the resume ended, and changes nothing else.
#[unsafe(no_mangle)]
pub extern "C" fn swsusp_resume_next(state: &SwsuspResume, call: &mut SwsuspCall)
    ensures { call.new ≡ state.now.call }
{
    *call = state.call;
}

/// Records that the pending call was made. `page` is the caller's buffer of 4096 bytes, and `memory` the ranges of page
/// frames that are memory. After the end nothing changes.
///
/// Returns `OK`; or the first that applies of `BAD_PAGE`, `BAD_IDENTITY`, `BAD_MEMORY`, `BAD_PRESENT`, `BAD_HEADER` and
/// `BAD_STATE`, in this order, and then nothing was changed.
#[unsafe(no_mangle)]
pub extern "C" fn swsusp_resume_answer(
    state: &mut SwsuspResume,
    machine: &SwsuspMachine,
    memory: &[FrameRange],
    page: &mut [u8],
) -> u32
    ensures code { result ≡ answer_code state.old machine.now memory.now page.old }
    ensures taken { IsAnswerable state.old machine.now memory.now page.old → result ≡ 0 }
    ensures answered { Answers state.old machine.now memory.now page.old state.new page.new result }
    ensures over { Stays state.old state.old state.new }
    ensures over_page { Stays state.old page.old page.new }
    ensures refused { (result ≢ 0) → state.new ≡ state.old }
    ensures kept { (result ≢ 0) → page.new ≡ page.old }
    ensures length { length page.new ≡ length page.old }
{
    if page.len() != 4096 {
        return BAD_PAGE;
    }
    let kernel = kernel_of(machine);
    let machine = match machine_of(machine, memory, &kernel) {
        Ok(machine) => machine,
        Err(code) => return code,
    };
    if is_over(&state.call) {
        return OK;
    }
    let Some(mut resume) = resume_of(state) else {
        return BAD_STATE;
    };
    let mut buffer = Page::zero();
    buffer.copy_from_slice(page);
    resume.answer(&machine, &mut buffer);
    page.copy_from_slice(buffer.as_bytes());
    *state = state_of(&resume);
    OK
}

/// Records that the pending call failed, which ends the resume. After the end nothing changes.
///
/// Returns `OK`; or `BAD_STATE`, and then nothing was changed.
#[unsafe(no_mangle)]
pub extern "C" fn swsusp_resume_fail(state: &mut SwsuspResume) -> u32
    ensures code { result ≡ state_code state.old }
    ensures failed { Fails state.old state.new result }
    ensures over { Stays state.old state.old state.new }
    ensures refused { (result ≢ 0) → state.new ≡ state.old }
{
    if is_over(&state.call) {
        return OK;
    }
    let Some(mut resume) = resume_of(state) else {
        return BAD_STATE;
    };
    resume.fail();
    *state = state_of(&resume);
    OK
}

/// Returns whether a resume ended: it is done, or was refused, or a call failed.
fn is_over(call: &SwsuspCall) -> bool
    ensures { result ≡ is_over call.now }
{
    call.kind == DONE || call.kind == REFUSED || call.kind == FAILED
}
