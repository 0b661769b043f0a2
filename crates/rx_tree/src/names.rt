//! The names of a file: printed paths.
ghost use Rattle.std.specs.Prelude.{◌≡◌, All, ◌<◌, ◌≤◌, OnOk, IfOk, IsErrOf, IsSorted, length};
ghost use Rattle.std.specs.Cmp.Lexicographic.{slice_cmp};
ghost use Rattle.std.specs.Ordering.{nat_cmp};
ghost use Rattle.rx_ranges.specs.Path.{IsPath};
ghost use Rattle.rx_tree.specs.Path.{joined_path};

use rx_ranges::{Items, MAX_PATH, Text};
use std::alloc::{AllocError, Global};
use std::marker::Model;

/// The names of a file, sorted by their bytes. Equal ones stay, each by itself. Each is a path: it begins with a slash, has
/// no control character, and has at most 65,535 bytes.
#[derive(Debug, Drop)]
pub struct Names {
    names: Items<Text>,
}

impl Model for Names {
    ghost use Rattle.std.specs.Prelude.{List, ℕ, All, IsSorted};
    ghost use Rattle.std.specs.Cmp.Lexicographic.{slice_cmp};
    ghost use Rattle.std.specs.Ordering.{nat_cmp};
    ghost use Rattle.rx_ranges.specs.Path.{IsPath};

    ghost Value = { List (List ℕ) };

    ghost view = { λ n. n.names };

    ghost invariant = { λ n. IsSorted (slice_cmp nat_cmp) n.names × All IsPath n.names };
}

impl Names {
    /// These names.
    pub fn from_vec(items: Vec<Text>) -> Self
        requires sorted { IsSorted (slice_cmp nat_cmp) items.items }
        requires paths { All IsPath items.items }
        ensures { result ≡ items.items }
    {
        Names {
            names: Items::from_vec(items),
        }
    }

    /// The names in order.
    pub fn items(&self) -> &[Text]
        ensures items { result.now ≡ self.now }
        ensures sorted { IsSorted (slice_cmp nat_cmp) self.now }
        ensures paths { All IsPath self.now }
    {
        self.names.items()
    }
}

/// Why a path can't be.
#[derive(Clone, Copy, Debug, PartialEq, Eq)]
pub enum PathFault {
    /// It would have more than 65,535 bytes.
    TooLong,
    /// There was no memory.
    NoMemory,
}

impl From<AllocError> for PathFault {
    ghost use Rattle.rx_tree.specs.declared.names.PathFault.TheVariants.{NoMemory};

    ghost from_gives = { λ _ fault. fault ≡ NoMemory };

    fn from(_: AllocError) -> Self {
        PathFault::NoMemory
    }
}

/// The path of a name in a directory: the directory's path, a slash where that isn't the root's, and the name.
pub fn join_path(alloc: Global, parent: &Text, name: &Text) -> Result<Text, PathFault>
    ensures joined { IfOk result (λ path. path ≡ joined_path parent.now name.now) }
    ensures fits { OnOk result (length (joined_path parent.now name.now) ≤ MAX_PATH) }
    ensures too_long { IsErrOf result PathFault.TooLong → MAX_PATH < length (joined_path parent.now name.now) }
{
    let directory = parent.as_str();
    let slash = if directory == "/" { "" } else { "/" };
    let last = name.as_str();
    let len = directory
        .len()
        .saturating_add(slash.len())
        .saturating_add(last.len());
    if len > MAX_PATH {
        return Err(PathFault::TooLong);
    }
    let mut path = String::with_capacity(alloc, len)?;
    path.push_str(directory)?;
    path.push_str(slash)?;
    path.push_str(last)?;
    Ok(Text::from_string(path))
}
