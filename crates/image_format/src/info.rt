//! The first page of an image, which says whose image it is and how many pages it has (`struct swsusp_info`,
//! kernel/power/power.h; `init_header`, `check_header`, kernel/power/snapshot.c).

ghost use Rattle.std.specs.Prelude.{◌≡◌, ◌<◌, ◌^◌, ◌↔◌, Some, None, length, IsOk, IsTrue, IsErr, IfErr, All};
ghost use Rattle.std.specs.List.{concat};
ghost use Rattle.definitions.specs.Bytes.{IsPage, zero_page, with_bytes};
ghost use Rattle.definitions.specs.InfoPage.{info_page, info_of, IsInfo, names_of, text_of_name, same_name, mismatch};
ghost use Rattle.definitions.specs.declared.info.Field.{Field};
ghost use Rattle.image_format.specs.Counts.{are_bad_counts};

use definitions::number_page_count;
pub use definitions::{Field, Ident, Info};
use page_core::{Format, Page};
use thiserror::Error;

/// The number of bytes of a name, and that of all names (`__NEW_UTS_LEN` + 1).
const NAME_SIZE: usize = 65;

const NAMES_SIZE: usize = 6 * NAME_SIZE;

/// The offsets in bytes of the fields after the names (`struct swsusp_info`, kernel/power/power.h, 64-bit).
const VERSION_CODE: usize = 392;

const NUM_PHYSPAGES: usize = 400;

const IMAGE_PAGES: usize = 416;

const PAGES: usize = 424;

const SIZE: usize = 432;

// The indices of the names in the info page.
const SYSNAME: usize = 0;

const RELEASE: usize = 2;

const VERSION: usize = 3;

const MACHINE: usize = 4;

/// Numbers of pages that don't fit the machine or each other.
#[derive(Clone, Copy, Debug, PartialEq, Eq, Error)]
#[error("bad counts {image_pages} {pages}")]
pub struct BadCounts {
    pub image_pages: u64,
    pub pages: u64,
}

/// Returns a page that begins with the names.
fn page_of_names(names: &[[u8; NAME_SIZE]]) -> Page
    requires { length names.now ≡ 6 }
    ensures whole { All (λ name. length name ≡ 65) names.now }
    ensures bytes { result ≡ with_bytes zero_page 0 (concat names.now) }
    ensures page { IsPage result }
{
    let mut bytes = [0; 4096];
    bytes[..NAMES_SIZE].copy_from_slice(names.as_flattened());
    Page::from_bytes(&bytes)
}

/// Returns the info page of these fields.
pub fn encode(info: &Info) -> Page
    requires { info.now.pages < 2 ^ 52 }
    ensures bytes { result ≡ info_page info.now }
    ensures page { IsPage result }

    // Decoding the page gives these fields again.
    ensures fits { IsInfo info.now }
    ensures again { info_of result ≡ info.now }
{
    let mut page = page_of_names(&info.ident.names);
    page.put_u32(VERSION_CODE, info.ident.version_code);
    page.set_word(NUM_PHYSPAGES / 8, info.physpages);
    page.set_word(IMAGE_PAGES / 8, info.image_pages);
    page.set_word(PAGES / 8, info.pages);
    page.set_word(SIZE / 8, info.pages * 4096);
    page
}

/// Returns what an info page says. Each page can be decoded.
#[tactic(auto, unfolding(definitions::specs::InfoPage::info_of))]
pub fn decode(page: &Page) -> Info
    ensures { result ≡ info_of page.now }
{
    Info {
        ident: Ident {
            version_code: page.u32_at(VERSION_CODE),
            names: names(page),
        },
        physpages: page.word(NUM_PHYSPAGES / 8),
        image_pages: page.word(IMAGE_PAGES / 8),
        pages: page.word(PAGES / 8),
    }
}

fn names(page: &Page) -> [[u8; NAME_SIZE]; 6]
    ensures { result ≡ names_of page.now }
{
    let mut names = [[0; NAME_SIZE]; 6];
    let (chunks, _) = page.as_bytes().as_chunks::<NAME_SIZE>();
    names.copy_from_slice(&chunks[..6]);
    names
}

fn text_len(name: &[u8]) -> usize
    ensures { result ≡ length (text_of_name name.now) }
{
    name.iter().take_while(|b| **b != 0).count()
}

/// Returns a name up to its first zero byte.
fn text(name: &[u8; NAME_SIZE]) -> &[u8]
    ensures { result.now ≡ text_of_name name.now }
{
    let end = text_len(name);
    &name[..end]
}

/// Returns whether a name is the same in both.
fn is_same(a: &Ident, b: &Ident, name: usize) -> bool
    requires { name < 6 }
    ensures { result ≡ same_name name a.now b.now }
{
    text(&a.names[name]) == text(&b.names[name])
}

/// Returns the first field in which an image's identity isn't the machine's.
#[tactic(auto, unfolding(definitions::specs::InfoPage::mismatch))]
fn first_difference(image: &Ident, own: &Ident) -> Option<Field>
    ensures { result ≡ mismatch image.now own.now }
{
    if image.version_code != own.version_code {
        Some(Field::VersionCode)
    } else if !is_same(image, own, SYSNAME) {
        Some(Field::Sysname)
    } else if !is_same(image, own, RELEASE) {
        Some(Field::Release)
    } else if !is_same(image, own, VERSION) {
        Some(Field::Version)
    } else if !is_same(image, own, MACHINE) {
        Some(Field::Machine)
    } else {
        None
    }
}

/// Checks that an image is of this machine (`check_image_kernel`); the error is the first field that differs.
pub fn check(info: &Info, ident: &Ident) -> Result<(), Field>
    ensures same { IsOk result ↔ (mismatch info.now.ident ident.now ≡ None) }
    ensures differs { (field : Field) → (result ≡ Err field) ↔ (mismatch info.now.ident ident.now ≡ Some field) }
{
    match first_difference(&info.ident, ident) {
        Some(field) => Err(field),
        None => Ok(()),
    }
}

/// Checks that the counts of an image fit the machine's number of valid page frames, and each other.
pub fn counts(info: &Info, valid: u32, format: Format) -> Result<(), BadCounts>
    ensures bad { IsErr result ↔ IsTrue (are_bad_counts format valid info.now.image_pages info.now.pages) }
    ensures told { IfErr result (λ e. e ≡ record { image_pages = info.now.image_pages; pages = info.now.pages }) }
{
    let (saved, pages) = (info.image_pages, info.pages);
    let bad = BadCounts {
        image_pages: saved,
        pages,
    };
    if saved == 0 || saved > u64::from(valid) {
        return Err(bad);
    }
    let least = number_page_count(saved) + 1;
    let fits = match format {
        Format::Plain => pages == saved + least,
        Format::SkipZeros => least <= pages && pages <= saved + least,
    };
    if fits { Ok(()) } else { Err(bad) }
}
