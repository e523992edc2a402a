//! Facts, and their lines: a key, and the numbers of its value or its text.

mod facts;
mod name;
mod values;

pub use facts::Facts;
pub use name::Name;
pub use values::{is_printable, put_hex_word, put_name, put_numbers, put_text};
