//! The commands.

use rx_tree::FsKind;

/// What the program is asked to do.
#[derive(Clone, Copy, Debug, PartialEq, Eq)]
pub enum Command {
    /// To list what the image holds.
    Inventory,
    /// To report what the rules would fill.
    Plan,
    /// To fill what the rules say.
    Redact,
    /// To finish what the journal holds.
    Resume,
    /// To report what the journal holds.
    Report,
    /// To try the program on an image that it makes.
    Selftest {
        kind: FsKind,
        number: u32,
        files: u32,
    },
}
