//! The plan of a tree and its rules: which bytes are filled, by which rule and with what, and which files are listed.
//!
//! A byte is planned where the claim on some file has it; its rule is the least that claims it. `plan_of` is the plan: the
//! image's length, the longest ranges of equal rule, and the listing in the order of the tree. A settled file whose claim has a
//! byte is listed with each of its names; another file that touches a planned byte is an alias.
//!
//! `guarded_byte` is the least planned byte in the guard, on which the reading of the image rests: such a plan is refused.
//!
//!     // rule 1 claims bytes 8 to 13, and rule 2 bytes 12 to 15: two ranges are planned
//!     bytes 8 to 13 by rule 1, bytes 14 and 15 by rule 2
#![tactic(auto)]
