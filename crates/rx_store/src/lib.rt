//! The outside: a store with an image and a journal, a source of text, and a sink for it.
//!
//! `Store`, `Source` and `Sink` are what the program knows of the outside. Each call may fail, and each failure is counted. The
//! stores in memory (`MemStore`, `MemSource`, `MemSink`) tell all that they hold, and fail exactly where they are told to; the
//! edges (`FileStore`, `StdSource`, `StdSink`) stand over real files, readers and writers, and tell no content.
//!
//!     let mut store = MemStore::new(alloc, image, journal, room, changes, log)?;
//!     store.fail_at(vec![in alloc; 3]?);      // its third call fails
#![tactic(auto)]

mod append;
mod changes;
mod fault_counts;
mod file_store;
mod mem_sink;
mod mem_source;
mod mem_store;
mod outside;
mod read_fault;
mod sink;
mod source;
mod std_sink;
mod std_source;
mod store;
mod whole;

pub use disk_defs::{Area, Fault};
pub use fault_defs::{Bound, Sort, What};
pub use file_store::{FileStore, Opened};
pub use mem_sink::MemSink;
pub use mem_source::MemSource;
pub use mem_store::MemStore;
pub use read_fault::ReadFault;
pub use sink::{Sink, write_all};
pub use source::Source;
pub use std_sink::StdSink;
pub use std_source::StdSource;
pub use store::Store;
pub use whole::{ReadError, read_to_end};

/// Memory ran out.
pub type NoMemory = std::alloc::AllocError;
