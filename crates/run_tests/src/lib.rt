//! Tests of the commands over stores, sources and sinks in memory.
//!
//! They run whole commands over small images that are made here, and compare status and text with values worked out by hand: rule
//! texts, several files and names, aliases, the guard, journals, and calls that fail. The small image is a UFS2 of 262,144 bytes with
//! the file `/a`, which holds `abc`.
//!
//!     // the words "plan", "IMAGE" and "RULES", over the small image and the text FILENAME "a" FILL 0x58
//!     run(alloc, &words, &mut store, &mut source, &mut sink)      // Status::Done, with RANGE 86016 3 1 0x58 and FILE 1 /a
#![tactic(auto)]

#[cfg(test)]
mod paths;
#[cfg(test)]
mod plan;
#[cfg(test)]
mod redact;
#[cfg(test)]
mod refusals;
#[cfg(test)]
mod small_image;
