//! Files.
ghost use Rattle.std.specs.Prelude.{◌≡◌};
ghost use Rattle.rx_tree.specs.Order.{HaveRisingIds};

use crate::names::Names;
use crate::part::Parts;
use crate::times::Times;
use std::marker::Model;

/// Which file: its volume, and its number there (an inode, a record or a catalog id).
#[derive(Clone, Copy, Debug, PartialEq, Eq)]
pub struct FileId {
    pub volume: u32,
    pub number: u64,
}

/// What a file is.
#[derive(Clone, Copy, Debug, PartialEq, Eq)]
pub enum Kind {
    File,
    Dir,
    Link,
    Other,
    System,
}

/// A file with all its names and parts. Its mode, number of links, owner and group are None where the file system doesn't
/// say them.
#[derive(Debug, Drop)]
pub struct FileEntry {
    pub id: FileId,
    pub kind: Kind,
    pub names: Names,
    pub mode: Option<u16>,
    pub links: Option<u16>,
    pub uid: Option<u32>,
    pub gid: Option<u32>,
    pub times: Times,
    pub parts: Parts,
}

/// The files of an image, by rising id, no two with one id.
#[derive(Debug, Drop)]
pub struct Files {
    files: Vec<FileEntry>,
}

impl Model for Files {
    ghost use Rattle.std.specs.Prelude.{List};
    ghost use Rattle.rx_tree.specs.declared.file.FileEntry.{FileEntry};
    ghost use Rattle.rx_tree.specs.Order.{HaveRisingIds};

    ghost Value = { List FileEntry };

    ghost view = { λ f. f.files.items };

    ghost invariant = { λ f. HaveRisingIds f.files.items };
}

impl Files {
    /// These files.
    pub fn from_vec(items: Vec<FileEntry>) -> Self
        requires { HaveRisingIds items.items }
        ensures { result ≡ items.items }
    {
        Files { files: items }
    }

    /// The files in order.
    pub fn items(&self) -> &[FileEntry]
        ensures items { result.now ≡ self.now }
        ensures rising { HaveRisingIds self.now }
    {
        self.files.as_slice()
    }
}
