//! The info page: whose image it is, and how many pages it has.
ghost use Rattle.std.specs.Prelude.{◌≡◌, ◌<◌, ◌≤◌, ◌^◌, IfOk};
ghost use Rattle.definitions.specs.InfoPage.{info_of, mismatch};
ghost use Rattle.boot_resume.specs.Facts.{compared_by};
ghost use Rattle.boot_resume.specs.Memory.{Tests};
ghost use Rattle.boot_resume.specs.OnDisk.{counts_cause, field_cause, identity_cause, info_cause, memory_cause};

use crate::cause::Cause;
use crate::machine::{Identity, Machine};
use definitions::number_page_count;
use image_format::info::{Ident, Info, check, decode};
use page_core::{Format, Page};

/// How many bytes an architecture's header has (`struct new_utsname`).
const IDENTITY_SIZE: usize = 390;

/// What an image says of its size.
#[derive(Clone, Copy)]
pub(crate) struct Counts {
    /// How many page frames were saved.
    pub saved: u64,
    /// How many pages its stream has.
    pub pages: u64,
}

/// Returns the counts of an info page, if the image is one of this machine's.
pub(crate) fn read_info(machine: &Machine, format: Format, page: &Page) -> Result<Counts, Cause>
    ensures tests { Tests (info_cause machine.now format page.now) result }
    ensures saved { IfOk result (λ counts. counts.saved ≡ (info_of page.now).image_pages) }
    ensures pages { IfOk result (λ counts. counts.pages ≡ (info_of page.now).pages) }
    ensures some { IfOk result (λ counts. 0 < counts.saved) }
    ensures few { IfOk result (λ counts. counts.saved < 2 ^ 52) }
{
    let info = decode(page);
    check_identity(machine.identity(), &info, page)?;
    check_memory(machine, &info)?;
    check_counts(machine, format, &info)?;
    Ok(Counts {
        saved: info.image_pages,
        pages: info.pages,
    })
}

fn check_identity(identity: Option<Identity>, info: &Info, page: &Page) -> Result<(), Cause>
    requires { info.now ≡ info_of page.now }
    ensures { Tests (identity_cause (compared_by identity.entry) page.now) result }
{
    match identity {
        None => Ok(()),
        Some(Identity::Generic(own)) => check_kernel(info, own),
        Some(Identity::Architecture(own)) => {
            if page.as_bytes()[..IDENTITY_SIZE] == own[..] {
                Ok(())
            } else {
                Err(Cause::Architecture)
            }
        }
    }
}

/// Checks that the image's kernel is the machine's.
fn check_kernel(info: &Info, own: &Ident) -> Result<(), Cause>
    ensures { Tests (field_cause (mismatch info.now.ident own.now)) result }
{
    match check(info, own) {
        Ok(()) => Ok(()),
        Err(field) => Err(Cause::Mismatch { field }),
    }
}

fn check_memory(machine: &Machine, info: &Info) -> Result<(), Cause>
    ensures { Tests (memory_cause machine.now info.now) result }
{
    let own = machine.present();
    if info.physpages != own {
        return Err(Cause::MemorySize {
            image: info.physpages,
            own,
        });
    }
    Ok(())
}

/// Checks that the counts fit the machine and each other (`load_header`, kernel/power/snapshot.c).
fn check_counts(machine: &Machine, format: Format, info: &Info) -> Result<(), Cause>
    ensures tests { Tests (counts_cause machine.now format info.now) result }
    ensures some { IfOk result (λ _. 0 < info.now.image_pages) }
    ensures few { IfOk result (λ _. info.now.image_pages < 2 ^ 52) }
{
    let (saved, pages) = (info.image_pages, info.pages);
    let bad = Cause::BadCounts {
        image_pages: saved,
        pages,
    };
    if saved == 0 || saved > machine.present() {
        return Err(bad);
    }
    let least = number_page_count(saved) + 1;
    let fits = match format {
        Format::Plain => pages == saved + least,
        Format::SkipZeros => least <= pages && pages <= saved + least,
    };
    if fits { Ok(()) } else { Err(bad) }
}
