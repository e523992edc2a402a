ghost use Rattle.std.specs.Prelude.{◌≡◌};
ghost use Rattle.boot_check.specs.Found.{pending_at, stage_after};

use image_check::Outcome;

/// What a check asks its caller for, or how it ended.
#[derive(Clone, Copy, Debug, PartialEq, Eq)]
pub enum Step {
    /// The block must be read into the buffer.
    Read { block: u32 },
    /// Nothing more is asked for.
    Over(Outcome),
}

/// The purpose of the pending read, or how the check ended.
#[derive(Clone, Copy, Debug, PartialEq, Eq)]
pub enum Stage {
    /// The header block.
    Header,
    /// The block that is named next.
    Name { block: u32 },
    Over(Outcome),
}

/// The memory that was lent doesn't have a bit for each block.
#[derive(Clone, Copy, Debug, PartialEq, Eq)]
pub struct FewWords;

/// Returns what the caller is asked for at a stage of the check of an area whose header is in block `header`.
pub(crate) fn pending_at(stage: Stage, header: u32) -> Step
    ensures { result ≡ pending_at stage header }
{
    match stage {
        Stage::Header => Step::Read { block: header },
        Stage::Name { block } => Step::Read { block },
        Stage::Over(outcome) => Step::Over(outcome),
    }
}

/// Returns the stage in which this block is named next, or in which the chain has ended.
pub(crate) fn stage_after(next: Option<u32>) -> Stage
    ensures { result ≡ stage_after next }
{
    match next {
        Some(block) => Stage::Name { block },
        None => Stage::Over(Outcome::Checked),
    }
}
