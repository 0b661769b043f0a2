//! Volumes: the file systems of an image.
ghost use Rattle.std.specs.Prelude.{◌≡◌};
ghost use Rattle.rx_tree.specs.Order.{HaveRisingNumbers};

use std::marker::Model;

/// The kinds of file systems that a tree can name.
#[derive(Clone, Copy, Debug, PartialEq, Eq)]
pub enum FsKind {
    Ntfs,
    Ufs1,
    Ufs2,
    HfsPlus,
}

/// A file system in the image: its number, and the `len` bytes from byte `at` on that it has.
#[derive(Clone, Copy, Debug, PartialEq, Eq)]
pub struct Volume {
    pub number: u32,
    pub kind: FsKind,
    pub at: u64,
    pub len: u64,
}

/// The volumes of an image, by rising number, no two with one number.
#[derive(Debug, Drop)]
pub struct Volumes {
    volumes: Vec<Volume>,
}

impl Model for Volumes {
    ghost use Rattle.std.specs.Prelude.{List};
    ghost use Rattle.rx_tree.specs.declared.volume.Volume.{Volume};
    ghost use Rattle.rx_tree.specs.Order.{HaveRisingNumbers};

    ghost Value = { List Volume };

    ghost view = { λ v. v.volumes.items };

    ghost invariant = { λ v. HaveRisingNumbers v.volumes.items };
}

impl Volumes {
    /// These volumes.
    pub fn from_vec(items: Vec<Volume>) -> Self
        requires { HaveRisingNumbers items.items }
        ensures { result ≡ items.items }
    {
        Volumes { volumes: items }
    }

    /// The volumes in order.
    pub fn items(&self) -> &[Volume]
        ensures items { result.now ≡ self.now }
        ensures rising { HaveRisingNumbers self.now }
    {
        self.volumes.as_slice()
    }
}
