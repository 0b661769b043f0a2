//! Tests of the parts of the commands: the stores, the sets of ranges, the journal and its session, the report, the words of a command
//! and the lines of its statuses; and of parts that stand alone: fields of slices, printed names, run lists, patterns. Rule texts and
//! plans are tested with whole commands, in `run_tests`, and what reads file systems in `volume_tests`.
//!
//! They are of public calls, on what no clause says: that a call succeeds where memory is ample, what a real file gives, and what is
//! printed. They stand in a crate of their own since a crate that has tests is proved once more with them, and the proofs of these
//! take long.
//!
//!     // a store in memory whose third call fails, and a table of calls with what each answers
//!     store.fail_at(vec![in alloc; 3]?);
#![tactic(auto)]

#[cfg(test)]
mod fields;
#[cfg(test)]
mod journals;
#[cfg(test)]
mod names;
#[cfg(test)]
mod patterns;
#[cfg(test)]
mod ranges;
#[cfg(test)]
mod reports;
#[cfg(test)]
mod runs;
#[cfg(test)]
mod statuses;
#[cfg(test)]
mod stores;
#[cfg(test)]
mod words;
