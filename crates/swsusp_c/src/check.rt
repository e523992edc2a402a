//! The functions that C calls to check an image.
ghost use Rattle.std.specs.Prelude.{◌≡◌, ◌≢◌, length};
ghost use Rattle.boot_check.specs.Found.{pending};
ghost use Rattle.boot_check.specs.declared.check.Check.{Check};
ghost use Rattle.swsusp_c.specs.Checks.{BeginsCheck, ChecksOn, ChecksPast, StaysOver, check_answer_code, check_code};
ghost use Rattle.swsusp_c.specs.Checks.{check_fail_code, check_state_code, step_numbers, words_code};

use crate::calls::{SwsuspCall, of_kind, refused};
use crate::codes::{BAD_PAGE, BAD_STATE, BAD_WORDS, DONE, OK, READ};
use crate::findings::SwsuspFindings;
use crate::kept::{SwsuspCheck, check_code, check_of};
use boot_check::{Check, Step};
use image_check::Outcome;
use image_walk::words_for;
use page_core::Page;

/// Begins a check of the image of the area whose header is in block `header` of a disk. Writes all of `state`.
///
/// Returns `OK`; or `BAD_WORDS`, and then nothing was changed.
#[unsafe(no_mangle)]
pub extern "C" fn swsusp_check_begin(
    state: &mut SwsuspCheck,
    blocks: u32,
    header: u32,
    words: &[u64],
) -> u32
    ensures code { result ≡ words_code blocks words.now }
    ensures begun { result ≡ 0 → BeginsCheck blocks header state.new }
    ensures refused { (result ≢ 0) → state.new ≡ state.old }
{
    let Ok(check) = Check::begin(blocks, header, words) else {
        return BAD_WORDS;
    };
    *state = check_code(&check);
    OK
}

/// Writes to `call` the block to be read next, or how the check ended, and changes nothing else.
#[unsafe(no_mangle)]
pub extern "C" fn swsusp_check_next(state: &SwsuspCheck, call: &mut SwsuspCall) -> u32
    ensures code { result ≡ check_state_code state.now }
    ensures next { (c : Check) → state.now ≡ check_code c → (result ≡ 0) × (call.new ≡ step_numbers (pending c)) }
    ensures refused { (result ≢ 0) → call.new ≡ call.old }
{
    let Some(check) = check_of(state) else {
        return BAD_STATE;
    };
    *call = step_numbers(check.next());
    OK
}

/// Records that the pending read was made, and writes what was found by it. `page` is the caller's buffer of 4096
/// bytes, and `words` are those lent to `swsusp_check_begin`. After the end nothing is found.
///
/// Returns `OK`; or the first that applies of `BAD_PAGE`, `BAD_WORDS` and `BAD_STATE`, in this order, and then nothing
/// was changed.
#[unsafe(no_mangle)]
pub extern "C" fn swsusp_check_answer(
    state: &mut SwsuspCheck,
    words: &mut [u64],
    page: &[u8],
    findings: &mut SwsuspFindings,
) -> u32
    ensures code { result ≡ check_answer_code state.old words.old page.now }
    ensures answered { (c : Check) → state.old ≡ check_code c → result ≡ 0 →
        ChecksOn c words.old words.new page.now state.new findings.new }
    ensures over { result ≡ 0 → StaysOver state.old state.new findings.new }
    ensures refused { (result ≢ 0) → state.new ≡ state.old }
    ensures kept { (result ≢ 0) → words.new ≡ words.old }
    ensures unwritten { (result ≢ 0) → findings.new ≡ findings.old }
    ensures length { length words.new ≡ length words.old }
{
    if page.len() != 4096 {
        return BAD_PAGE;
    }
    if words.len() < words_for(state.blocks) {
        return BAD_WORDS;
    }
    let Some(mut check) = check_of(state) else {
        return BAD_STATE;
    };
    let mut buffer = Page::zero();
    buffer.copy_from_slice(page);
    findings.count = 0;
    check.answer(words, &buffer, findings);
    *state = check_code(&check);
    OK
}

/// Records that the pending read failed, and writes what was found by that. After the end nothing is found.
///
/// Returns `OK`; or the first that applies of `BAD_WORDS` and `BAD_STATE`, in this order, and then nothing was changed.
#[unsafe(no_mangle)]
pub extern "C" fn swsusp_check_fail(
    state: &mut SwsuspCheck,
    words: &mut [u64],
    findings: &mut SwsuspFindings,
) -> u32
    ensures code { result ≡ check_fail_code state.old words.old }
    ensures failed { (c : Check) → state.old ≡ check_code c → result ≡ 0 →
        ChecksPast c words.old words.new state.new findings.new }
    ensures over { result ≡ 0 → StaysOver state.old state.new findings.new }
    ensures refused { (result ≢ 0) → state.new ≡ state.old }
    ensures kept { (result ≢ 0) → words.new ≡ words.old }
    ensures unwritten { (result ≢ 0) → findings.new ≡ findings.old }
    ensures length { length words.new ≡ length words.old }
{
    if words.len() < words_for(state.blocks) {
        return BAD_WORDS;
    }
    let Some(mut check) = check_of(state) else {
        return BAD_STATE;
    };
    findings.count = 0;
    check.fail(words, findings);
    *state = check_code(&check);
    OK
}

/// Returns the numbers of a step.
fn step_numbers(step: Step) -> SwsuspCall
    ensures { result ≡ step_numbers step }
{
    match step {
        Step::Read { block } => of_kind(READ, u64::from(block)),
        Step::Over(Outcome::NoImage) => refused(1, 0, 0),
        Step::Over(Outcome::Checked) => of_kind(DONE, 0),
    }
}
