ghost use Rattle.std.specs.Prelude.{◌≡◌, ℕ, Option, Ok};
ghost use Rattle.definitions.specs.Disk.{Content};
ghost use Rattle.image_walk.specs.Names.{IsReadFrom};
ghost use Rattle.image_pages.specs.Chain.{IsChainPage};
ghost use Rattle.image_machine.specs.Headings.{IsHeadingBy, area_in, signature_of};
ghost use Rattle.image_machine.specs.Heads.{Heads};

use crate::Heading;
use image_check::mark_in;
use image_format::info::{Info, decode};
use image_format::{Area, AreaKind, Mark, SF_HW_SIG, take_back};
use page_core::Page;

/// What is known of the heading of an image.
#[derive(Clone, Copy)]
pub enum Headed {
    NoImage,
    /// Without its mark, the header block isn't that of a version 1 area.
    NoArea,
    Heading(Heading),
}

/// Returns the heading of an image whose header block and info page were read.
pub fn heading_in(block: &Page, info: &Page) -> Headed
    ensures { (content : Option Content) (header : ℕ) → IsReadFrom content header (Ok block.now) →
        IsChainPage content header 0 info.now → Heads content header result }
{
    let Some(mark) = mark_in(AreaKind::read(block)) else {
        return Headed::NoImage;
    };
    match heading_of(block, &mark, &decode(info)) {
        Some(heading) => Headed::Heading(heading),
        None => Headed::NoArea,
    }
}

/// Returns the heading that follows from a header block with this mark and from what an info page says.
pub(crate) fn heading_of(block: &Page, mark: &Mark, info: &Info) -> Option<Heading>
    ensures { IsHeadingBy block.now mark.now info.now result }
{
    let area = area_in(AreaKind::read(&take_back(block)))?;
    Some(Heading {
        ident: info.ident,
        physpages: info.physpages,
        area,
        hw_sig: signature_of(mark),
    })
}

/// Returns the version 1 area that a header block describes.
fn area_in(kind: AreaKind) -> Option<Area>
    ensures { result ≡ area_in kind }
{
    match kind {
        AreaKind::Swap(area) => Some(area),
        _ => None,
    }
}

/// Returns the hardware signature of a mark, which counts if its flag is set.
fn signature_of(mark: &Mark) -> u32
    ensures { result ≡ signature_of mark.now }
{
    if mark.flags / SF_HW_SIG % 2 == 0 {
        0
    } else {
        mark.hw_sig
    }
}
