//! Reads the leaf records of a tree file of HFS+, one at a time.
//!
//! After Apple's TN1150, "B-Trees": the header node names the first leaf node, and each leaf node the next by its fLink. `Leaves`
//! lends the records in the order of that chain, each with its node, its number there, its place in the image and its bytes. It
//! holds one node, and takes memory for it in `start` alone. The end comes exactly where the chain ends; Damaged names what stops
//! it (TreeHeader, NodeLink, NodeRecord) at its place. After a fault it stands where it stood.
//!
//!     let mut leaves = Leaves::start(alloc, &mut store, pieces, size, place)?;
//!     while let Some(record) = leaves.next(&mut store)? {
//!         record.bytes            // the key's length, the key and the data
//!     }
#![tactic(auto)]

mod head;
mod leaves;
mod node;
mod way;

pub use leaves::{LeafRecord, Leaves};
