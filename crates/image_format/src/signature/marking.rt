ghost use Rattle.std.specs.Cmp.Lexicographic.{pointwise};
ghost use Rattle.std.specs.Prelude.{◌≡◌, ◌↔◌, IsTrue, nat_eq};
ghost use Rattle.definitions.specs.Bytes.{AgreeBut, IsPage};
ghost use Rattle.definitions.specs.SwapHeader.{image_signature, marked, sig_of, taken_back, unmarked_block, IsMarked};

use crate::signature::layout::{self, FLAGS, HW_SIG, ORIG_SIG, SF_HW_SIG, SIG};
use crate::signature::signatures::{self, original_signature, signature, with_signature};
use page_core::Page;

/// Returns the block with the mark of an image (`mark_swapfiles`, kernel/power/swap.c): the signature moves to
/// `orig_sig` and the image's takes its place, and `image` is the block of the first map. If the machine has a hardware
/// signature (`hw` isn't 0), that is set and SF_HW_SIG is added to the flags. All other bytes stay.
pub fn mark(page: &Page, first: u64, flags: u32, hw: u32) -> Page
    ensures marked { result ≡ marked page.now first flags hw }
    ensures page { IsPage result }
    // Taken back, it is the block from before except for the mark's numbers and orig_sig.
    ensures undone { AgreeBut 4056 4086 (taken_back result) page.now }
{
    let original = signature(page);
    mark_over(page, original, first, flags, hw)
}

#[tactic(auto, unfolding(definitions::specs::SwapHeader::marked))]
fn mark_over(page: &Page, original: [u8; 10], first: u64, flags: u32, hw: u32) -> Page
    requires { original ≡ sig_of page.now }
    ensures { result ≡ marked page.now first flags hw }
{
    let mut marked = with_signature(
        &with_signature(page, ORIG_SIG, original),
        SIG,
        signatures::IMAGE,
    );
    marked.set_word(layout::IMAGE / 8, first);
    marked.put_u32(FLAGS, if hw == 0 { flags } else { flags | SF_HW_SIG });
    if hw != 0 {
        marked.put_u32(HW_SIG, hw);
    }
    marked
}

/// Returns the block with its mark taken back (`swsusp_check`, kernel/power/swap.c): `orig_sig` becomes the signature
/// again. All other bytes stay.
#[tactic(auto, unfolding(definitions::specs::SwapHeader::taken_back))]
pub fn take_back(page: &Page) -> Page
    ensures { result ≡ taken_back page.now }
{
    with_signature(page, SIG, original_signature(page))
}

/// Takes the mark of a header block back, if it carries one (`swsusp_unmark`, kernel/power/swap.c).
pub fn unmark(header: &mut Page)
    ensures header { header.new ≡ unmarked_block header.old }
    ensures page { IsPage header.new }
{
    if is_marked(header) {
        *header = take_back(header);
    }
}

/// Returns whether a header block carries the signature of an image.
pub fn is_marked(header: &Page) -> bool
    ensures signature { result ≡ pointwise nat_eq (sig_of header.now) image_signature }
    ensures marked { IsTrue result ↔ IsMarked header.now }
    ensures page { IsPage header.now }
{
    signature(header) == signatures::IMAGE
}
