//! The commands of the program: the words that name them, what each one does, and what it answers.
//!
//! `parse_words` tells which command the words ask for, `run` carries it out over a store, a source and a sink and answers a
//! `Status`, and `write_status` writes the line that says it, which is empty for Done. The promise of the whole program is the
//! contract of `run`; what a status says of the image, the journal and the rule text is defined in `cmd_defs`.
//!
//!     // the words "plan", "IMAGE" and "RULES", over an image and a rule text
//!     let status = run(alloc, &words, &mut store, &mut rules, &mut out);     // Status::Done, and the report was written
//!     write_status(&status, &mut errors)?;
#![tactic(auto)]

mod carrying;
mod commands;
mod plan_command;
mod planning;
mod redact_command;
mod report_command;
mod resume_command;
mod status;

pub use cmd_defs::{Command, JournalRefusal, PlanRefusal, Status};
pub use cmd_words::{parse_words, write_status};
pub use commands::run;
