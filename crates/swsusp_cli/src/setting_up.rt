ghost use Rattle.std.specs.Prelude.{◌≡◌, ◌≤◌, MatchResult, length};
ghost use Rattle.command_kit.specs.AnswerOf.{told_by};
ghost use Rattle.swsusp_cli.specs.Outcome.{small_told, unformatted_told};
ghost use Rattle.swsusp_cli.specs.SettingUp.{IsNotSetUp, IsSetUp};
ghost use Rattle.command_kit.specs.View.{disk_view};

use crate::formatting::{Unformatted, blocks_needed, format};
use byte_streams::Line;
use command_kit::{Answer, Status};
use script::Script;
use sector_disk::Disk;
use thiserror::Error;

/// Why a disk has no area of a script's machine.
#[derive(Clone, Copy, Debug, PartialEq, Eq, Error)]
pub enum Unready {
    /// The disk has `blocks` blocks, and the area needs `need`.
    #[error("{blocks} blocks, of which {need} are needed")]
    Small { blocks: u32, need: u32 },
    #[error("{0}")]
    Unformatted(Unformatted),
}

impl From<Unformatted> for Unready {
    ghost use Rattle.swsusp_cli.specs.declared.setting_up.Unready.TheVariants as unready;

    ghost from_gives = { λ call result. result ≡ unready.Unformatted call };

    fn from(call: Unformatted) -> Unready {
        Unready::Unformatted(call)
    }
}

impl Unready {
    ghost use Rattle.std.specs.Prelude.{◌≡◌};
    ghost use Rattle.command_kit.specs.AnswerOf.{told_by};
    ghost use Rattle.command_kit.specs.Causes.{HasCause};
    ghost use Rattle.swsusp_cli.specs.SettingUp.{IsFailedCall, unready_told};

    /// Returns what the program answers if the set-up fails.
    pub fn answer(self) -> Answer
        ensures told { told_by result ≡ unready_told self }
        ensures cause { HasCause ⊥ (IsFailedCall self) result.status }
    {
        match self {
            Unready::Small { blocks, need } => too_small(blocks, need),
            Unready::Unformatted(call) => unformatted(call),
        }
    }
}

/// Formats the swap area of a script's machine, at the block of its first slot.
pub fn set_up<D: Disk>(script: &Script, disk: &mut D) -> Result<(), Unready>
    requires few_bad { length script.now.bad ≤ 630 }
    ensures outcome { MatchResult result
        (λ _. IsSetUp script.now
        (disk_view D.Disk disk.old)
        (disk_view D.Disk disk.new))
        (IsNotSetUp script.now
        (disk_view D.Disk disk.old)
        (disk_view D.Disk disk.new)) }
{
    let hw = script.hardware();
    let blocks = disk.blocks();
    let need = blocks_needed(hw);
    if blocks < need {
        return Err(Unready::Small { blocks, need });
    }
    format(disk, hw, script.last(), script.bad())?;
    Ok(())
}

fn too_small(blocks: u32, need: u32) -> Answer
    ensures told { told_by result ≡ small_told blocks need }
    ensures status { result.status ≡ Status.Refused }
{
    let mut note = Line::new();
    note.put(b"disk blocks ");
    note.put_number(u64::from(blocks));
    note.put(b" need ");
    note.put_number(u64::from(need));
    note.put(b"\n");
    Answer {
        status: Status::Refused,
        out: Line::new(),
        note,
    }
}

fn unformatted(call: Unformatted) -> Answer
    ensures told { told_by result ≡ unformatted_told call }
    ensures status { result.status ≡ Status.Device }
{
    let mut note = Line::new();
    note.put(match call {
        Unformatted::Write => b"write fault unsure\n",
        Unformatted::Sync => b"sync fault unsure\n",
    });
    Answer {
        status: Status::Device,
        out: Line::new(),
        note,
    }
}
