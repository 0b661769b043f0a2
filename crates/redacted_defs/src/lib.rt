//! What stays the same in an image that was redacted.
//!
//! The guard of an image is the bytes on which the reading of its files rests, and a plan that would fill one of them is refused.
//! So an image that was filled as its plan says still has the files that it had: the same names, owners and times, and the same
//! places for the same contents. Only the bytes of the contents that rules select have changed. The promised laws (`laws`) say so
//! of the tree, the guard and the kind of the image, and of the bytes of each file that meets no planned byte.
//!
//!     -- where image_tree image ≡ Ok tree, and guarded_byte tree rules ≡ None
//!     image_tree (redacted tree rules image) ≡ Ok tree
#![tactic(auto)]

pub mod laws;
