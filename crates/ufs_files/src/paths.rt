//! The paths of a file.
ghost use Rattle.std.specs.Prelude.{◌≡◌, ◌++◌, ◌∷◌, [], IfOk};

use rx_ranges::{NoMemory, Text};
use std::alloc::Global;
use std::marker::Model;

/// The paths of a file, of which there is at least one. The first stands here, so that a file with one path takes no list.
#[derive(Debug, Drop)]
pub(crate) struct Paths {
    first: Text,
    more: Vec<Text>,
}

impl Model for Paths {
    ghost use Rattle.std.specs.Prelude.{List, ℕ, ◌∷◌};

    ghost Value = { List (List ℕ) };

    ghost view = { λ p. p.first ∷ p.more.items };
}

impl Paths {
    /// This path alone.
    pub(crate) fn of(alloc: Global, path: Text) -> Paths
        ensures { result ≡ path ∷ [] }
    {
        Paths {
            first: path,
            more: Vec::new(alloc),
        }
    }

    /// One more path behind them.
    pub(crate) fn push(&mut self, path: Text) -> Result<(), NoMemory>
        ensures { IfOk result (λ _. self.new ≡ self.old ++ path ∷ []) }
    {
        self.more.push(path)?;
        Ok(())
    }

    /// The paths as a list.
    pub(crate) fn into_vec(self) -> Result<Vec<Text>, NoMemory>
        ensures { IfOk result (λ paths. paths.items ≡ self) }
    {
        let mut paths = self.more;
        paths.insert(0, self.first)?;
        Ok(paths)
    }
}
