//! Lists in order: sorted with level items as they stood, and rising with each item once, over any order.
//!
//! An order is std's `cmp`. `sorted_by_order` is the one list with the same items that is sorted and leaves level items in
//! their order, which is what std's stable sort gives; `distinct` is the one list with the same items that rises strictly. The
//! names of a file are sorted by their bytes (`sorted_names`), and inodes are read by rising number (`rising_numbers`).
//!
//! The promised laws are the contracts of the functions of `laws`, whose bodies are empty: there is one such list, and it
//! has the same items.
//!
//!     rising_numbers (3 ∷ 1 ∷ 3 ∷ []) ≡ 1 ∷ 3 ∷ []
#![tactic(auto)]

pub mod laws;
