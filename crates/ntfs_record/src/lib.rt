//! File records of NTFS: a record is mended in the caller's buffer, and lends its attributes.
//!
//! A stored record of 1,024 or 4,096 bytes keeps the last two bytes of each 512 in its update sequence (the public
//! FILE_RECORD_SEGMENT_HEADER and MULTI_SECTOR_HEADER). `FileRecord::mend` puts them back, or refuses by the first check that
//! fails; `attrs` goes over the attributes and lends slices of the buffer; `stored_place` tells where a byte of the record is
//! stored.
//!
//!     let found = FileRecord::mend(&mut buffer)?;
//!     for attribute in found.attrs() { /* attribute.kind, attribute.name, attribute.form */ }
#![tactic(auto)]

mod attr;
mod attrs;
mod ends;
mod mend;
mod record;
mod walk;

pub use attr::{Attr, Form};
pub use attrs::Attrs;
pub use mend::mend_bytes;
pub use record::FileRecord;
