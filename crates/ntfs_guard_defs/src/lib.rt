//! The law that an NTFS volume rests on its guard.
//!
//! An image of the same length with the same bytes in the guard has the same volume and the same guard
//! (`a_volume_rests_on_its_guard`). Each slot of `$MFT` (the public FILE_RECORD_SEGMENT_HEADER) looks only at stored bytes that
//! are no place of its own resident content, each stream is the same whatever is known of `$MFT`, and each attribute of a file
//! stands in a record that its slot holds: these laws of the parts stand in `proofs/`, and the volume follows.
//!
//!     -- where `b` is as long as `a` and has the same bytes in `guard_of (length a) volume`
//!     result_of a (volume_at at len) ≡ Ok volume → result_of b (volume_at at len) ≡ Ok volume
#![tactic(auto)]

pub mod laws;
