//! How stored names, words and texts are printed.
//!
//! `print_name` prints a stored name of bytes or of 16-bit units, `print_word` a word of the command line, and `xml_text` escapes
//! a text for XML. What they print is defined in `name_defs`: characters as they are, but for some that are escaped, and escapes
//! for what is no character. Valid UTF-8 is that of the Unicode Standard, section 3.9.
//!
//!     print_name(alloc, NameRef::Bytes(b"a\xFF"))?      // a\xFF: the byte isn't UTF-8
//!     print_word(alloc, "/img/a\\b")?                   // /img/a\\b: a backslash is doubled, and a slash stays
//!     xml_text(alloc, "a<b")?                           // a&lt;b
#![tactic(auto)]

pub(crate) mod bytes;
pub(crate) mod characters;
mod name;
pub(crate) mod pushing;
pub(crate) mod units;
mod word;
mod xml;

pub use name::{NameRef, print_name};
pub use word::print_word;
pub use xml::xml_text;

/// There was no memory.
pub type NoMemory = std::alloc::AllocError;
