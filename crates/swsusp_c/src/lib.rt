//! Resuming an image, giving it up, checking it and reading its header, for programs in C, over `boot_resume`,
//! `boot_check` and `image_format`: with numbers, byte pointers and what the caller lends.
//! include/swsusp.h declares what is exported. Each argument is tested here.
#![tactic(auto)]

mod calls;
mod check;
mod codes;
mod discard;
mod findings;
mod inspect;
mod kept;
mod machine;
mod resume;
mod stages;
mod state;

use boot_resume::FrameRange;
pub use calls::SwsuspCall;
pub use check::{swsusp_check_answer, swsusp_check_begin, swsusp_check_fail, swsusp_check_next};
pub use discard::{
    SwsuspDiscard, swsusp_discard_answer, swsusp_discard_begin, swsusp_discard_fail,
    swsusp_discard_next,
};
pub use findings::{SwsuspFinding, SwsuspFindings};
pub use inspect::{SwsuspHeader, swsusp_inspect};
pub use kept::SwsuspCheck;
pub use machine::SwsuspMachine;
pub use resume::{
    swsusp_resume_answer, swsusp_resume_begin, swsusp_resume_fail, swsusp_resume_next,
};
pub use state::SwsuspResume;
use std::mem::size_of;

// The sizes that include/swsusp.h gives a C compiler. tools/check_header.py compares the fields and their order.
const _: () = prove!(size_of::<SwsuspCall>() == 24);

const _: () = prove!(size_of::<FrameRange>() == 16);

const _: () = prove!(size_of::<SwsuspMachine>() == 816);

const _: () = prove!(size_of::<SwsuspResume>() == 8312);

const _: () = prove!(size_of::<SwsuspDiscard>() == 24);

const _: () = prove!(size_of::<SwsuspHeader>() == 40);

const _: () = prove!(size_of::<SwsuspCheck>() == 6720);

const _: () = prove!(size_of::<SwsuspFinding>() == 56);

const _: () = prove!(size_of::<SwsuspFindings>() == 61608);
