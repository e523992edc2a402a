use crate::cause::Cause;

/// What a resume asks its caller for, or how it ended.
#[derive(Clone, Copy, Debug, PartialEq, Eq)]
pub enum Call {
    /// What was written must be on the disk before the answer.
    Sync,
    /// The block must be read into the buffer.
    Read { block: u64 },
    /// The buffer must be written to the block.
    Write { block: u64 },
    /// The buffer holds the page of this page frame.
    Page { frame: u64 },
    /// All pages were handed out; `pages` is their number.
    Done { pages: u64 },
    /// The image isn't resumed, for the first cause that was found in its bytes.
    Refused(Cause),
    /// A call failed, and the resume has ended.
    Failed { call: FailedCall, left: Left },
}

/// The call of its caller that ended a resume.
#[derive(Clone, Copy, Debug, PartialEq, Eq)]
pub enum FailedCall {
    Sync,
    Read,
    Write,
    Page,
}

/// What a failed call leaves of the image.
#[derive(Clone, Copy, Debug, PartialEq, Eq)]
pub enum Left {
    /// The disk is as it was.
    Same,
    /// The image is still present, or it was taken back.
    Unsure,
    /// The image was taken back.
    Gone,
}

impl Call {
    ghost use Rattle.std.specs.Prelude.{◌≡◌};
    ghost use Rattle.boot_resume.specs.Ends.{is_end};

    /// Returns whether no call follows this one.
    pub fn is_end(&self) -> bool
        ensures { result ≡ is_end self.now }
    {
        match self {
            Call::Done { .. } => true,
            Call::Refused(_) => true,
            Call::Failed { .. } => true,
            _ => false,
        }
    }
}

ghost use Rattle.std.specs.Prelude.{◌≡◌};
ghost use Rattle.boot_resume.specs.Asked.{failed_by};

/// Returns which call failed; a call that ends the resume can't.
pub(crate) fn failed_call(call: Call) -> FailedCall
    ensures { result ≡ failed_by call }
{
    match call {
        Call::Sync => FailedCall::Sync,
        Call::Read { .. } => FailedCall::Read,
        Call::Write { .. } => FailedCall::Write,
        Call::Page { .. } => FailedCall::Page,
        Call::Done { .. } => FailedCall::Page,
        Call::Refused(_) => FailedCall::Page,
        Call::Failed { call, .. } => call,
    }
}
