//! The disk model: the two areas of a store, what it tells of them, and counts of faults.
//!
//! A store has an image and a journal. Its state is the sizes of both areas in bytes and, where it tells that, its past: what
//! they held at first, each change since, and what a change that failed left. What they hold follows from the past. Each call
//! that fails is counted, by the area on which it was made (a sync on both): so "this command makes no call on the journal" is
//! said of every store, also of one whose journal calls would all fail, since such a call would have been counted.
//!
//! A source gives the bytes of a text, and a sink takes them; where they tell it, what is still to come and what was taken are
//! lists of bytes.
//!
//!     -- two bytes are written from byte 2 on over an area of three, which then has four
//!     overwritten (1 ∷ 2 ∷ 3 ∷ []) 2 (8 ∷ 9 ∷ []) ≡ 1 ∷ 2 ∷ 8 ∷ 9 ∷ []
#![tactic(auto)]

/// The areas of a store.
#[derive(Clone, Copy, Debug, PartialEq, Eq)]
pub enum Area {
    Image,
    Journal,
}

/// A call on a store, a source or a sink failed.
#[derive(Clone, Copy, Debug, PartialEq, Eq)]
pub struct Fault;
