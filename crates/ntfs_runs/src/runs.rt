//! A list of runs.
ghost use Rattle.std.specs.Prelude.{◌≡◌};

use ntfs_defs::Run;
use std::marker::Model;

/// The runs of an attribute, in the order of its virtual clusters.
#[derive(Debug, Drop)]
pub struct Runs {
    runs: Vec<Run>,
}

impl Model for Runs {
    ghost use Rattle.std.specs.Prelude.{List};
    ghost use Rattle.ntfs_defs.specs.declared.runs.Run.{Run};

    ghost Value = { List Run };

    ghost view = { λ r. r.runs.items };
}

impl Runs {
    /// These runs.
    pub fn from_vec(items: Vec<Run>) -> Self
        ensures { result ≡ items.items }
    {
        Runs { runs: items }
    }

    /// The runs in order.
    pub fn items(&self) -> &[Run]
        ensures { result.now ≡ self.now }
    {
        self.runs.as_slice()
    }
}
