//! The pattern language of file names: what a pattern's text says, and which texts it matches.
//!
//! `*` is any characters, also none, `?` one character, `[..]` one of a class and `[!..]` one not of it; a class has characters and
//! ranges by code point. There are no escapes, and the whole text must match.
//!
//!     let pattern = Pattern::read(alloc, "f*3.dat")?;
//!     pattern.matches("f0013.dat")       // true
//!     pattern.matches("f0013.data")      // false
#![tactic(auto)]

mod class;
mod fault;
mod item;
pub mod laws;
pub(crate) mod letters;
pub(crate) mod matching;
mod pattern;
pub(crate) mod reading;

pub use class::{Class, Member, Members};
pub use fault::{NoMemory, PatternFault};
pub use item::Item;
pub use pattern::Pattern;
