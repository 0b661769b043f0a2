//! The names that were found.
ghost use Rattle.std.specs.Prelude.{◌≡◌, ◌+◌, ◌^◌, ◌<◌, ◌≤◌, ◌≢◌, ◌∷◌, [], Err, IfOk, length};
ghost use Rattle.ufs_blocks.specs.UnderWay.{Settles};
ghost use Rattle.ufs_volume_defs.specs.Names as spec;
ghost use Rattle.ufs_volume_defs.specs.Names.{is_known, longest_path, most_names, most_path_bytes, path_bytes};

use crate::name::Name;
use rx_store::{Bound, ReadFault};
use std::alloc::{AllocError, Global};
use std::collections::BTreeSet;
use std::marker::Model;

/// The most names of a volume.
const MOST_NAMES: usize = 1_000_000;

/// The most bytes of all paths together.
const MOST_PATH_BYTES: u64 = 1_073_741_824;

/// The names that were found, in the order of the walk, and the runs that were counted; and, so that the walk is fast, the
/// bytes of all paths together and the numbers that have a name.
#[derive(Debug, Drop)]
pub struct Walk {
    pub names: Vec<Name>,
    pub runs: u64,
    bytes: u64,
    known: BTreeSet<u32>,
}

impl Model for Walk {
    ghost use Rattle.std.specs.Prelude.{◌≡◌, ℕ};
    ghost use Rattle.std.specs.BTreeSet.{contains};
    ghost use Rattle.std.specs.Ordering.{nat_cmp};
    ghost use Rattle.ufs_volume_defs.specs.Names.{Walk, is_known, path_bytes};

    ghost Value = { Walk };

    ghost view = { λ w. record { names = w.names.items; runs = w.runs } };

    ghost invariant = { λ w. (w.bytes ≡ path_bytes w.names.items) × ((number : ℕ) → contains nat_cmp w.known number ≡ is_known number w.names.items) };
}

impl Walk {
    /// No name.
    fn none(alloc: Global) -> Walk
        ensures { result ≡ record { names = []; runs = 0 } }
    {
        Walk {
            names: Vec::new(alloc),
            runs: 0,
            bytes: 0,
            known: BTreeSet::new(alloc),
        }
    }

    /// One more name.
    fn with_name(mut self, name: Name) -> Result<Walk, AllocError>
        requires { path_bytes self.names + length name.path < 2 ^ 64 }
        ensures { IfOk result (λ walk. walk ≡ spec.with_name self name) }
    {
        let len = name.path.as_str().len() as u64;
        self.known.insert(name.number)?;
        self.names.push(name)?;
        self.bytes += len;
        Ok(self)
    }

    /// The root's name alone.
    pub(crate) fn of_root(alloc: Global, root: Name) -> Result<Walk, AllocError>
        requires { length root.path ≤ longest_path }
        ensures { IfOk result (λ walk. walk ≡ record { names = root ∷ []; runs = 0 }) }
    {
        Walk::none(alloc).with_name(root)
    }

    /// The same names with another count of runs.
    pub(crate) fn with_runs(mut self, runs: u64) -> Walk
        ensures { result ≡ record self { runs = runs } }
    {
        self.runs = runs;
        self
    }

    /// The names alone. What the walk keeps to be fast takes no more memory.
    pub fn into_names(self) -> Vec<Name>
        ensures { result.items ≡ self.names }
    {
        self.names
    }

    /// Whether the inode of a number has a name.
    pub(crate) fn knows(&self, number: u32) -> bool
        ensures { result ≡ is_known number self.now.names }
    {
        self.known.contains(&number)
    }

    /// One more name within the limits.
    pub(crate) fn counted_name(self, name: Name) -> Result<Walk, ReadFault>
        requires fits { length name.path ≤ longest_path }
        requires few { path_bytes self.names ≤ most_path_bytes }
        ensures settles { Settles result (spec.counted_name self name) }
        ensures value { IfOk result (λ walk. walk ≡ spec.with_name self name) }
        ensures few { IfOk result (λ walk. length walk.names ≤ most_names) }
        ensures short { IfOk result (λ walk. path_bytes walk.names ≤ most_path_bytes) }
        ensures calm { result ≢ Err ReadFault.Device }
    {
        if self.names.len() >= MOST_NAMES {
            return Err(ReadFault::Limit(Bound::Names, MOST_NAMES as u64));
        }
        if self.bytes + name.path.as_str().len() as u64 > MOST_PATH_BYTES {
            return Err(ReadFault::Limit(Bound::PathBytes, MOST_PATH_BYTES));
        }
        Ok(self.with_name(name)?)
    }
}
