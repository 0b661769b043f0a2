//! The words that ask for a command, and the line that says how it ended.
//!
//! A command line is a verb and its operands: `parse_words` answers the command that they ask for, or None where they fit no line
//! of the usage. A status is written as one line of text, which `write_status` hands to a sink; after `Done` there is no line. The
//! texts themselves are definitions of `cmd_defs`: `command_of` and `status_line`.
//!
//!     parse_words(&words)                              // ["report", "journal"] gives Some(Command::Report)
//!     write_status(&Status::NotBuilt, &mut sink)?;     // the sink took "dfredact: not built yet\n"
#![tactic(auto)]

mod line;
mod words;

pub use line::write_status;
pub use words::parse_words;
