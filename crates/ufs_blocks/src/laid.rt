//! What is found of a stream, and the parts of an inode.
use range_defs::Range;
use rx_ranges::Piece;
use rx_tree::Part;
use std::marker::Model;

/// A pointer: the place in the image where it stands, and the fragment that it names, counted from the volume's first byte; 0 is a
/// hole.
#[derive(Debug, Drop)]
pub(crate) struct Pointer {
    pub at: u64,
    pub value: i64,
}

impl Model for Pointer {
    ghost use Rattle.ufs_inode_defs.specs.Stream.{Pointer};

    ghost Value = { Pointer };

    ghost view = { λ p. record { at = p.at; value = p.value } };
}

/// What was found of a stream so far: the blocks that were passed, their pieces, the slack, and the blocks of pointers that were
/// visited; and the runs that were counted before.
#[derive(Debug, Drop)]
pub struct Laid {
    pub block: u64,
    pub pieces: Vec<Piece>,
    pub slack: Vec<Range>,
    pub visited: u64,
    pub before: u64,
}

impl Model for Laid {
    ghost use Rattle.ufs_inode_defs.specs.Blocks.{Laid};

    ghost Value = { Laid };

    ghost view = { λ l. record {
      block = l.block;
      pieces = l.pieces.items;
      slack = l.slack.items;
      visited = l.visited;
      before = l.before;
    } };
}

/// The parts of an inode so far, and the runs that were counted.
#[derive(Debug, Drop)]
pub struct Parted {
    pub parts: Vec<Part>,
    pub runs: u64,
}

impl Model for Parted {
    ghost use Rattle.ufs_volume_defs.specs.Files.{Parted};

    ghost Value = { Parted };

    ghost view = { λ p. record { parts = p.parts.items; runs = p.runs } };
}
