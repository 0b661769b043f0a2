//! The parts of a file: its content, and what else it has in the image.
ghost use Rattle.std.specs.Prelude.{◌≡◌};
ghost use Rattle.rx_tree.specs.PartOrder.{ArePartsSorted};

use rx_ranges::{Items, Pieces, RangeList, Text};
use std::marker::Model;

/// What a part is to its file.
#[derive(Clone, Copy, Debug, PartialEq, Eq)]
pub enum Role {
    /// Its bytes are what a reader of the file gets.
    Content,
    /// The file system keeps it beside the content.
    Other,
}

/// A part of a file: `size` bytes that its pieces give, and the slack, which is what is allocated for the part and
/// isn't content. Sizes are in bytes.
///
/// The pieces of a readable part cover its bytes in order, and are the longest possible. Those of an unreadable part stand
/// on the disk, the longest possible too; their `from` counts the bytes of what the file system keeps for the part, and it
/// has no slack.
#[derive(Debug, Drop)]
pub struct Part {
    pub role: Role,
    pub unreadable: bool,
    pub name: Text,
    pub size: u64,
    pub pieces: Pieces,
    pub slack: RangeList,
}

impl Model for Part {
    ghost use Rattle.rx_tree.specs.PartValue.{PartValue};
    ghost use Rattle.rx_tree.specs.PartPieces.{AreOfPart, ArePlain};

    ghost Value = { PartValue };

    ghost view = { λ p. record {
      role = p.role;
      name = p.name;
      size = p.size;
      pieces = p.pieces;
      slack = p.slack;
      unreadable = p.unreadable;
    } };

    ghost invariant = { λ p. AreOfPart p.unreadable p.size p.pieces p.slack × ArePlain p.pieces };
}

/// The parts of a file: by role, Content first, and then by the bytes of their names.
#[derive(Debug, Drop)]
pub struct Parts {
    parts: Items<Part>,
}

impl Model for Parts {
    ghost use Rattle.std.specs.Prelude.{List};
    ghost use Rattle.rx_tree.specs.PartValue.{PartValue};
    ghost use Rattle.rx_tree.specs.PartOrder.{ArePartsSorted};

    ghost Value = { List PartValue };

    ghost view = { λ p. p.parts };

    ghost invariant = { λ p. ArePartsSorted p.parts };
}

impl Parts {
    /// These parts.
    pub fn from_vec(items: Vec<Part>) -> Self
        requires { ArePartsSorted items.items }
        ensures { result ≡ items.items }
    {
        Parts {
            parts: Items::from_vec(items),
        }
    }

    /// The parts in order.
    pub fn items(&self) -> &[Part]
        ensures items { result.now ≡ self.now }
        ensures sorted { ArePartsSorted self.now }
    {
        self.parts.items()
    }
}
