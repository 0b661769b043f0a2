//! The path of a name.
ghost use Rattle.std.specs.Prelude.{◌≢◌, Err, IfOk};
ghost use Rattle.name_defs.specs.Texts.{bytes_text};
ghost use Rattle.rx_ranges.specs.Path.{IsPath};
ghost use Rattle.rx_store.specs.Answers.{Answers};
ghost use Rattle.rx_tree.specs.Path.{joined_path};
ghost use Rattle.ufs_names.specs.Walked.{limited_path};

use rx_names::{NameRef, print_name};
use rx_ranges::{MAX_PATH, Text};
use rx_store::{Bound, ReadFault};
use rx_tree::{PathFault, join_path};
use std::alloc::Global;

/// The path of a name in a directory.
pub(crate) fn path_of(alloc: Global, parent: &Text, name: &[u8]) -> Result<Text, ReadFault>
    requires { IsPath parent.now }
    ensures joined { Answers result (limited_path (joined_path parent.now (bytes_text name.now))) }
    ensures path { IfOk result IsPath }
    ensures calm { result ≢ Err ReadFault.Device }
{
    let text = print_name(alloc, NameRef::Bytes(name))?;
    match join_path(alloc, parent, &text) {
        Ok(path) => Ok(path),
        Err(PathFault::TooLong) => Err(ReadFault::Limit(Bound::Path, MAX_PATH as u64)),
        Err(PathFault::NoMemory) => Err(ReadFault::NoMemory),
    }
}
