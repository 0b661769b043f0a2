//! The commands of the program: the words that ask for them, what each one says of its texts and its image, and what it answers.
//!
//! One file says what one command does, a line for each status, in the order of its refusals: `PlanSays status text image`
//! is what the status says of the rule text, of the image and of what was written. A text and an image have one answer, which
//! is the promised law of `laws`.
//!
//!     dfredact plan IMAGE RULES            reads the rules and then the image, and writes the report of their plan
//!     dfredact redact IMAGE JOURNAL RULES  carries that plan out through the journal, and writes its report
//!     dfredact resume IMAGE JOURNAL        finishes the plan of a journal that stands open, and writes its report
//!     dfredact report JOURNAL              writes the report of the plan of a journal that stands open
#![tactic(auto)]

mod command;
pub mod laws;
mod status;

pub use command::Command;
pub use status::{JournalRefusal, PlanRefusal, Status};
