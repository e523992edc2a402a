//! The check, read by read.
ghost use Rattle.std.specs.Prelude.{◌≡◌, ◌*◌, ◌≤◌, length};

use crate::names::Names;
use crate::stage::{FewWords, Stage, Step, pending_at, stage_after};
use image_check::{
    Finding, Outcome, Report, check_header, format_of, is_compressed, limits_of, mark_in,
};
use image_format::AreaKind;
use image_walk::{BlockFault, words_for};
use page_core::Page;

/// A check of the image of an area: a value of fixed size, which its caller asks for the next block and tells how the
/// read of it went. Its fields are public so that a caller can keep it in a form of its own; the promises of the
/// clauses hold for a value that began with `begin`, if the same words are lent to each call and nobody else writes
/// them.
#[derive(Drop)]
pub struct Check {
    /// The purpose of the pending read, or how the check ended.
    pub stage: Stage,
    /// What was checked so far.
    pub names: Names,
}

impl Check {
    ghost use Rattle.std.specs.Prelude.{◌≡◌, ◌*◌, ◌+◌, ◌/◌, ◌<◌, ◌≤◌, ◌++◌, ◌∷◌, ℕ, [], List, Option, OnErr, OnOk};
    ghost use Rattle.std.specs.Prelude.{IfOk, Ok, length};
    ghost use Rattle.definitions.specs.Disk.{Content};
    ghost use Rattle.image_check.specs.Told.{Tells};
    ghost use Rattle.image_check.specs.declared.finding.Finding.{Finding};
    ghost use Rattle.image_walk.specs.Names.{IsAnswer, IsReadFrom, seen};
    ghost use Rattle.image_walk.specs.declared.visit.BlockFault.{BlockFault};
    ghost use Rattle.boot_check.specs.Found.{HasFound, IsAtName, IsBetween, IsOutcome, IsTurn, pending};
    ghost use Rattle.boot_check.specs.declared.stage.Stage.TheVariants.{Header, Over};
    ghost use Rattle.boot_check.specs.declared.stage.Step.TheVariants.{Read};

    /// Returns a check before its first read, of the image of the area whose header lies in block `header` of a disk.
    /// `words` holds a bit for each block, with any contents.
    pub fn begin(blocks: u32, header: u32, words: &[u64]) -> Result<Check, FewWords>
        ensures found { IfOk result (λ c. (content : Option Content) (lent : List ℕ) →
            HasFound content 0 blocks header c lent [] []) }
        ensures blocks { IfOk result (λ c. c.names.limits.blocks ≡ blocks) }
        ensures room { OnOk result (blocks / 64 + 1 ≤ length words.now) }
        ensures refused { OnErr result (length words.now < blocks / 64 + 1) }
    {
        if words.len() < words_for(blocks) {
            return Err(FewWords);
        }
        let stage = if header < blocks {
            Stage::Header
        } else {
            Stage::Over(Outcome::NoImage)
        };
        Ok(Check {
            stage,
            names: Names::unknown(blocks, header),
        })
    }

    /// Returns the block that is to be read, or how the check ended.
    pub fn next(&self) -> Step
        ensures step { result ≡ pending self.now }
        // Over a disk with this content, on which `faults` reads have failed: a block that wasn't asked for yet; or all
        // that `check` finds was found.
        ensures turn { (content : Option Content) (faults blocks header : ℕ) (words asked : List ℕ)
            (found : List Finding) → HasFound content faults blocks header self.now words asked found →
            IsTurn content faults blocks header asked found result }
    {
        pending_at(self.stage, self.names.limits.header)
    }

    /// Records that the pending read was made and gave this page. After the end nothing changes.
    pub fn answer<R: Report>(&mut self, words: &mut [u64], page: &Page, report: &mut R)
        requires { self.old.names.limits.blocks ≤ 64 * length words.old }
        ensures found { (content : Option Content) (faults blocks header b : ℕ) (asked : List ℕ)
            (found : List Finding) →
            HasFound content faults blocks header self.old words.old asked found → pending self.old ≡ Read b →
            IsReadFrom content b (Ok page.now) → (more : List Finding)
            × (Tells more (R.told report.old) (R.told report.new)
            × HasFound content faults blocks header self.new words.new (b ∷ asked) (found ++ more)) }
        ensures over { (o : _) → self.old.stage ≡ Over o → self.new ≡ self.old }
        ensures told { (o : _) → self.old.stage ≡ Over o → R.told report.new ≡ R.told report.old }
        ensures blocks { self.new.names.limits.blocks ≡ self.old.names.limits.blocks }
        ensures room { length words.new ≡ length words.old }
    {
        match self.stage {
            Stage::Header => self.take_header(words, page, report),
            Stage::Name { .. } => self.take_name(words, Ok(()), page, report),
            Stage::Over(_) => {}
        }
    }

    /// Records that the pending read failed, which is a finding. After the end nothing changes.
    pub fn fail<R: Report>(&mut self, words: &mut [u64], report: &mut R)
        requires { self.old.names.limits.blocks ≤ 64 * length words.old }
        ensures found { (content : Option Content) (faults blocks header b : ℕ) (asked : List ℕ)
            (found : List Finding) →
            HasFound content faults blocks header self.old words.old asked found → pending self.old ≡ Read b →
            (more : List Finding) × (Tells more (R.told report.old) (R.told report.new)
            × HasFound content (faults + 1) blocks header self.new words.new (b ∷ asked) (found ++ more)) }
        ensures over { (o : _) → self.old.stage ≡ Over o → self.new ≡ self.old }
        ensures told { (o : _) → self.old.stage ≡ Over o → R.told report.new ≡ R.told report.old }
        ensures blocks { self.new.names.limits.blocks ≡ self.old.names.limits.blocks }
        ensures room { length words.new ≡ length words.old }
    {
        match self.stage {
            Stage::Header => {
                report.tell(Finding::HeaderUnread(self.names.limits.header));
                self.stage = Stage::Over(Outcome::Checked);
            }
            Stage::Name { block } => {
                let why = BlockFault::Unread(u64::from(block));
                self.take_name(words, Err(why), &Page::zero(), report);
            }
            Stage::Over(_) => {}
        }
    }

    /// Continues with the header block's page.
    fn take_header<R: Report>(&mut self, words: &mut [u64], page: &Page, report: &mut R)
        requires { self.old.names.limits.blocks ≤ 64 * length words.old }
        ensures found { (content : Option Content) (faults blocks header : ℕ) →
            header < blocks → self.old.names.limits.blocks ≡ blocks → self.old.names.limits.header ≡ header →
            IsReadFrom content header (Ok page.now) → (more : List Finding)
            × (Tells more (R.told report.old) (R.told report.new)
            × HasFound content faults blocks header self.new words.new (header ∷ []) more) }
        ensures blocks { self.new.names.limits.blocks ≡ self.old.names.limits.blocks }
        ensures room { length words.new ≡ length words.old }
    {
        let Some(mark) = mark_in(AreaKind::read(page)) else {
            self.stage = Stage::Over(Outcome::NoImage);
            return;
        };
        let blocks = self.names.limits.blocks;
        let header = self.names.limits.header;
        check_header(report, blocks, header, mark.flags, page);
        if is_compressed(mark.flags) {
            self.stage = Stage::Over(Outcome::Checked);
            return;
        }
        let limits = limits_of(blocks, header, page);
        self.names = Names::begin(limits, format_of(mark.flags), words, mark.first);
        self.go_on(words, report);
    }

    /// Continues with the outcome of the block that is named next.
    fn take_name<R: Report>(
        &mut self,
        words: &mut [u64],
        answer: Result<(), BlockFault>,
        page: &Page,
        report: &mut R,
    )
        requires { self.old.names.limits.blocks ≤ 64 * length words.old }
        ensures found { (content : Option Content) (before faults blocks header b : ℕ) (asked : List ℕ)
            (found : List Finding) → IsAtName content before blocks header self.old.names words.old asked found b →
            IsOutcome content before faults b (seen answer page.now) → (more : List Finding)
            × (Tells more (R.told report.old) (R.told report.new)
            × HasFound content faults blocks header self.new words.new (b ∷ asked) (found ++ more)) }
        ensures blocks { self.new.names.limits.blocks ≡ self.old.names.limits.blocks }
        ensures room { length words.new ≡ length words.old }
    {
        self.names.tell(words, answer, page, report);
        self.go_on(words, report);
    }

    /// Continues up to the next block that is read.
    fn go_on<R: Report>(&mut self, words: &mut [u64], report: &mut R)
        requires { self.old.names.limits.blocks ≤ 64 * length words.old }
        ensures found { (content : Option Content) (faults blocks header : ℕ) (asked : List ℕ) (found : List Finding) →
            IsBetween content faults blocks header self.old.names words.old asked found → (more : List Finding)
            × (Tells more (R.told report.old) (R.told report.new)
            × HasFound content faults blocks header self.new words.new asked (found ++ more)) }
        ensures blocks { self.new.names.limits.blocks ≡ self.old.names.limits.blocks }
        ensures room { length words.new ≡ length words.old }
    {
        self.stage = stage_after(self.names.go_on(words, report));
    }
}
