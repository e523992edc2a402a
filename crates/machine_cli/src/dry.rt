//! What a resume would answer, over a disk that is only read.

mod check;

pub use check::would_resume;
