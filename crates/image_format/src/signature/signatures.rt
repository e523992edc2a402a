ghost use Rattle.std.specs.Prelude.{◌≡◌, ◌≤◌};
ghost use Rattle.definitions.specs.Bytes.{IsPage, with_bytes};
ghost use Rattle.definitions.specs.SwapHeader.{sig_of, orig_sig_of};

use crate::signature::layout::{ORIG_SIG, SIG};
use page_core::Page;

/// The signature of an image: `S1SUSPEND` and a zero byte (HIBERNATE_SIG, kernel/power/swap.c).
pub(crate) const IMAGE: [u8; 10] = *b"S1SUSPEND\0";

/// The signature of a version 0 area.
pub(crate) const OLD: [u8; 10] = *b"SWAP-SPACE";

/// The signature of a version 1 area.
pub(crate) const AREA: [u8; 10] = *b"SWAPSPACE2";

pub(crate) fn signature(page: &Page) -> [u8; 10]
    ensures sig { result ≡ sig_of page.now }
    ensures page { IsPage page.now }
{
    let mut sig = [0; 10];
    sig.copy_from_slice(&page.as_bytes()[SIG..]);
    sig
}

pub(crate) fn original_signature(page: &Page) -> [u8; 10]
    ensures { result ≡ orig_sig_of page.now }
{
    let mut sig = [0; 10];
    sig.copy_from_slice(&page.as_bytes()[ORIG_SIG..SIG]);
    sig
}

/// Returns the page with a signature at offset k.
pub(crate) fn with_signature(page: &Page, k: usize, sig: [u8; 10]) -> Page
    requires { k ≤ 4086 }
    ensures { result ≡ with_bytes page.now k sig }
{
    let mut bytes = *page.as_bytes();
    bytes[k..k + 10].copy_from_slice(&sig);
    Page::from_bytes(&bytes)
}
