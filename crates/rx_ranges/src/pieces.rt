//! The pieces of a file's part.
use crate::items::Items;

/// Where the bytes of a piece come from.
#[derive(Clone, Copy, Debug, PartialEq, Eq)]
pub enum PieceKind {
    /// From the image.
    Disk,
    /// They are zeros that stand nowhere.
    Zero,
}

/// A piece of a part: `len` of its bytes from its byte `from` on. They stand in the image from byte `at` on; the `at` of
/// zeros is 0.
#[derive(Clone, Copy, Debug, PartialEq, Eq)]
pub struct Piece {
    pub from: u64,
    pub len: u64,
    pub kind: PieceKind,
    pub at: u64,
}

/// The pieces of a part, in the order of its bytes.
pub type Pieces = Items<Piece>;
