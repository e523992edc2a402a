//! The resume, call by call.
use crate::call::{Call, failed_call};
use crate::machine::Machine;
use crate::reading::Reading;
use crate::stage::{Move, Stage};
use page_core::Page;

/// A resume: a value of fixed size, which its caller asks for the next call and tells how that call went. Its fields
/// are public so that a caller can keep it in a form of its own; the promises of the clauses hold for a value that
/// began with `new`.
#[derive(Drop)]
pub struct Resume {
    /// The call that is to be made, and the purpose of its answer.
    pub pending: Move,
    /// What was read so far.
    pub reading: Reading,
}

impl Resume {
    ghost use Rattle.std.specs.Prelude.{◌≡◌, ◌≢◌, ℕ, ◌+◌, List, [], ◌∷◌, length};
    ghost use Rattle.definitions.specs.Disk.{DiskImage};
    ghost use Rattle.boot_resume.specs.Asked.{HasAsked, IsSafe, failed_by, left_behind};
    ghost use Rattle.boot_resume.specs.Ends.{IsEnd};
    ghost use Rattle.boot_resume.specs.HandedOut.{Places, saved_frames};
    ghost use Rattle.boot_resume.specs.Standing.{IsAnswer, IsAt, IsTurn};
    ghost use Rattle.boot_resume.specs.Calls.{calls, unmarked_calls};
    ghost use Rattle.boot_resume.specs.OnDisk.{header_in};
    ghost use Rattle.definitions.specs.Bytes.{IsPage};
    ghost use Rattle.definitions.specs.SwapHeader.{image_signature, orig_sig_of, taken_back};
    ghost use Rattle.boot_resume.specs.declared.call.Call.{Call};
    ghost use Rattle.boot_resume.specs.declared.machine.Machine.{Machine};

    /// Returns a resume before its first call.
    pub fn new() -> Resume
        ensures at { (m : Machine) (v : DiskImage) (page : List ℕ) → IsAt m v result page 0 }
        ensures asked { (m : Machine) → HasAsked m result [] }
        // The calls hand out the first pages of the saved page frames, in order, and all of them if they end in `Done`.
        ensures pages { (m : Machine) (v : DiskImage) → Places (calls m v) (saved_frames m v) }
        // Once the block is taken back, another resume finds no image.
        ensures once { (m : Machine) (v : DiskImage) (page : List ℕ) → IsPage page → header_in m v ≡ taken_back page →
            (orig_sig_of page ≢ image_signature) → calls m v ≡ unmarked_calls m }
    {
        Resume {
            pending: Move {
                stage: Stage::FirstSync,
                call: Call::Sync,
            },
            reading: Reading::new(),
        }
    }

    /// Returns the call that is to be made, or how the resume ended.
    pub fn next(&self) -> Call
        ensures call { result ≡ self.now.pending.call }
        // Over a disk that reads as v, the result is call k of the list, with the page that is in the buffer.
        ensures turn { (m : Machine) (v : DiskImage) (page : List ℕ) (k : ℕ) → IsAt m v self.now page k →
            IsTurn m v k result page }
        // Whatever the disk answered.
        ensures safe { (m : Machine) (made : List Call) → HasAsked m self.now made → IsSafe m (result ∷ made) }
    {
        self.pending.call
    }

    /// Records that the pending call was made. `page` is the caller's buffer: after a read it holds what the disk gave,
    /// and if the next call is a write or hands out a page, it receives the page of that call. After the end nothing
    /// changes.
    pub fn answer(&mut self, machine: &Machine, page: &mut Page)
        ensures at { (v : DiskImage) (asked : List ℕ) (k : ℕ) → IsAt machine.now v self.old asked k →
            IsAnswer v self.old.pending.call page.old → (IsEnd self.old.pending.call → ⊥) →
            IsAt machine.now v self.new page.new (k + 1) }
        ensures asked { (made : List Call) → HasAsked machine.now self.old made → (IsEnd self.old.pending.call → ⊥) →
            HasAsked machine.now self.new (self.old.pending.call ∷ made) }
        ensures over { IsEnd self.old.pending.call → self.new ≡ self.old }
        ensures kept { IsEnd self.old.pending.call → page.new ≡ page.old }
    {
        let over = self.pending.call.is_end();
        if over {
            return;
        }
        match self.reading.take(self.pending, machine, page) {
            Ok(next) => self.pending = next,
            Err(cause) => {
                self.pending = Move {
                    stage: Stage::Ended,
                    call: Call::Refused(cause),
                };
            }
        }
    }

    /// Records that the pending call failed: the resume ends. After the end nothing changes.
    pub fn fail(&mut self)
        ensures failed { (m : Machine) (made : List Call) → HasAsked m self.old made →
            (IsEnd self.old.pending.call → ⊥) →
            self.new.pending.call ≡ Call.Failed (failed_by self.old.pending.call) (left_behind (length made)) }
        ensures asked { (m : Machine) (made : List Call) → HasAsked m self.old made → HasAsked m self.new made }
        ensures over { IsEnd self.old.pending.call → self.new ≡ self.old }
    {
        if self.pending.call.is_end() {
            return;
        }
        let call = failed_call(self.pending.call);
        let left = self.pending.stage.left();
        self.pending = Move {
            stage: Stage::Ended,
            call: Call::Failed { call, left },
        };
    }
}
