//! Names.
ghost use Rattle.std.specs.Prelude.{◌≡◌, IfOk};

use crate::kept::KeptInode;
use rx_ranges::Text;
use std::alloc::{AllocError, Global};
use std::marker::Model;

/// A name: the number and the inode that it is given to, its path, and the entry that gives it, which stands in the directory of a
/// number at a byte of its content. The root's name stands in no directory.
#[derive(Debug, Drop)]
pub struct Name {
    pub number: u32,
    pub directory: u32,
    pub inode: KeptInode,
    pub path: Text,
    pub offset: u64,
}

impl Model for Name {
    ghost use Rattle.ufs_volume_defs.specs.Names.{Named};

    ghost Value = { Named };

    ghost view = { λ n. record {
      number = n.number;
      inode = n.inode;
      path = n.path;
      directory = n.directory;
      offset = n.offset;
    } };
}

impl Name {
    /// The same name once more.
    pub fn copy(&self, alloc: Global) -> Result<Name, AllocError>
        ensures { IfOk result (λ copy. copy ≡ self.now) }
    {
        Ok(Name {
            number: self.number,
            inode: KeptInode::of(alloc, &self.inode.inode())?,
            path: Text::from_str(alloc, self.path.as_str())?,
            directory: self.directory,
            offset: self.offset,
        })
    }
}
