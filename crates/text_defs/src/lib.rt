//! The texts that the program writes.
//!
//! `report plan state` is the text of a report: four lines on the whole, a line for each planned range, and a line for each
//! listed name. Numbers are decimal, and the byte with which a range is filled is in two upper-case hexadecimal digits.
//!
//!     redaction planned
//!     image 262144
//!     ranges 1
//!     bytes 3
//!     RANGE 86016 3 1 0x58
//!     FILE 1 /a
#![tactic(auto)]

/// How far a plan has been carried out.
#[derive(Clone, Copy, Debug, PartialEq, Eq)]
pub enum ReportState {
    /// It is a plan, and nothing more.
    Planned,
    /// It is acknowledged, and not yet carried out whole.
    Pending,
    /// It is carried out.
    Done,
}
