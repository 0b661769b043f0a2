//! Carries out a plan through its journal, one call on the store a turn.
//!
//! `Session::begin` takes a plan, and `Session::resume` the plan of a journal that was found open, with its marks. Each `turn`
//! makes the next call of the script that `session_defs` defines, and answers what it did; the turn behind the last call makes
//! none and answers Finished. A session takes its memory when it is made, and none later: a turn fails only where its call on
//! the store fails, and then the session is over. `finish` makes all turns.
//!
//!     let mut session = Session::begin(alloc, &plan)?;
//!     while session.turn(&mut store)? != Turn::Finished {}
#![tactic(auto)]

mod call;
mod session;
mod step;
mod whole;

pub use session::Session;
pub use whole::finish;

/// Memory ran out.
pub type NoMemory = std::alloc::AllocError;
