//! The calls of a resume, as numbers.
ghost use Rattle.std.specs.Prelude.{◌≡◌};
ghost use Rattle.swsusp_c.specs.Calls.{call_code, cause_code, failed_code, field_code, left_code, live_call};

use crate::codes::{DONE, FAILED, PLACE, READ, REFUSED, SYNC, WRITE};
use boot_resume::{Call, Cause, FailedCall, Left};
use definitions::Field;

/// What a resume asks of its caller, or how it ended (`struct swsusp_call`).
#[repr(C)]
#[derive(Clone, Copy, Debug, PartialEq, Eq)]
pub struct SwsuspCall {
    /// `SWSUSP_SYNC` to `SWSUSP_FAILED`.
    pub kind: u32,
    /// Why an image was refused, or which call failed; else 0.
    pub reason: u32,
    /// The block, the page frame, the number of pages, what a failed call leaves, or the first number of a cause.
    pub first: u64,
    /// The second number of a cause; else 0.
    pub second: u64,
}

pub(crate) fn of_kind(kind: u32, first: u64) -> SwsuspCall
    ensures { result ≡ record { kind = kind; reason = 0; first = first; second = 0 } }
{
    SwsuspCall {
        kind,
        reason: 0,
        first,
        second: 0,
    }
}

/// Returns the numbers of a call.
pub(crate) fn call_code(call: Call) -> SwsuspCall
    ensures { result ≡ call_code call }
{
    match call {
        Call::Sync => of_kind(SYNC, 0),
        Call::Read { block } => of_kind(READ, block),
        Call::Write { block } => of_kind(WRITE, block),
        Call::Page { frame } => of_kind(PLACE, frame),
        Call::Done { pages } => of_kind(DONE, pages),
        Call::Refused(cause) => cause_code(cause),
        Call::Failed { call, left } => SwsuspCall {
            kind: FAILED,
            reason: failed_code(call),
            first: left_code(left),
            second: 0,
        },
    }
}

pub(crate) fn refused(reason: u32, first: u64, second: u64) -> SwsuspCall
    ensures { result ≡ record { kind = 6; reason = reason; first = first; second = second } }
{
    SwsuspCall {
        kind: REFUSED,
        reason,
        first,
        second,
    }
}

fn cause_code(cause: Cause) -> SwsuspCall
    ensures { result ≡ cause_code cause }
{
    match cause {
        Cause::NoImage => refused(1, 0, 0),
        Cause::Compressed { flags } => refused(2, u64::from(flags), 0),
        Cause::HwMismatch { image, own } => refused(3, u64::from(image), u64::from(own)),
        Cause::NoChain => refused(4, 0, 0),
        Cause::BadBlock { block } => refused(5, block, 0),
        Cause::ChainEnds { map } => refused(6, map, 0),
        Cause::Mismatch { field } => refused(7, field_code(field), 0),
        Cause::Architecture => refused(8, 0, 0),
        Cause::MemorySize { image, own } => refused(9, image, own),
        Cause::BadCounts { image_pages, pages } => refused(10, image_pages, pages),
        Cause::BadPfn { pfn } => refused(11, pfn, 0),
        Cause::PfnOrder { a, b } => refused(12, a, b),
        Cause::PfnEnd { found } => refused(13, found, 0),
    }
}

fn field_code(field: Field) -> u64
    ensures { result ≡ field_code field }
{
    match field {
        Field::VersionCode => 1,
        Field::Sysname => 2,
        Field::Release => 3,
        Field::Version => 4,
        Field::Machine => 5,
    }
}

fn failed_code(call: FailedCall) -> u32
    ensures { result ≡ failed_code call }
{
    match call {
        FailedCall::Sync => SYNC,
        FailedCall::Read => READ,
        FailedCall::Write => WRITE,
        FailedCall::Page => PLACE,
    }
}

fn left_code(left: Left) -> u64
    ensures { result ≡ left_code left }
{
    match left {
        Left::Same => 1,
        Left::Unsure => 2,
        Left::Gone => 3,
    }
}

/// Returns the call of these numbers, if it is one that the caller makes.
pub(crate) fn live_call(call: &SwsuspCall) -> Option<Call>
    ensures { result ≡ live_call call.now }
{
    match call.kind {
        SYNC => Some(Call::Sync),
        READ => Some(Call::Read { block: call.first }),
        WRITE => Some(Call::Write { block: call.first }),
        PLACE => Some(Call::Page { frame: call.first }),
        _ => None,
    }
}
