//! Rules: what they ask of a file, what they do to it, and how their text reads.
//!
//! A rule has a condition and an action. A file is settled by the first rule whose condition holds of it; the action says which
//! bytes of the file are claimed. `Reads text rules` says that a text says these rules: today one line with FILENAME, a name in
//! quotes, FILL and a byte in two hexadecimal digits, with one space between the words and at most a line feed behind. A text
//! says one list of rules at most, which is the promised law of `laws`.
//!
//!     FILENAME "a" FILL 0x58      // the files with the name a are filled with 0x58
#![tactic(auto)]

pub mod laws;
mod rules;

pub use rules::Rules;
use rx_ranges::Text;

/// What a rule asks of a file.
#[derive(Debug, Drop)]
pub enum Condition {
    /// The last component of one of its names is this.
    FileName(Text),
}

/// What a rule does to a file that it settles.
#[derive(Clone, Copy, Debug, PartialEq, Eq)]
pub enum Action {
    /// Fills the content with this byte.
    Fill(u8),
}

/// A rule, numbered from 1 in the order of the text.
#[derive(Debug, Drop)]
pub struct Rule {
    pub number: u32,
    pub condition: Condition,
    pub action: Action,
}
