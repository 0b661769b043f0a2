//! Inodes as they are kept while the directories are walked.
ghost use Rattle.std.specs.Prelude.{◌≡◌, IfOk};
ghost use Rattle.ufs_names.specs.Kept.{lone};

use std::alloc::{AllocError, Global};
use std::marker::Model;
use ufs_inode_defs::Inode;

/// The pointers of an inode.
#[derive(Clone, Copy, Debug, PartialEq, Eq)]
struct Pointers {
    ext: [i64; 2],
    direct: [i64; 12],
    indirect: [i64; 3],
}

impl Pointers {
    /// A pointer to the first block of the content, and no other.
    fn lone(first: i64) -> Pointers
        ensures { result ≡ lone first }
    {
        Pointers {
            ext: [0; 2],
            direct: [first, 0, 0, 0, 0, 0, 0, 0, 0, 0, 0, 0],
            indirect: [0; 3],
        }
    }
}

/// The pointers of an inode as they are kept: that to the first block of its content where all others are 0, or all of them.
#[derive(Debug, Drop)]
enum KeptPointers {
    Lone(i64),
    Many(Box<Pointers>),
}

/// An inode that takes little memory where all pointers but that to the first block of its content are 0.
#[derive(Debug, Drop)]
pub struct KeptInode {
    at: u64,
    mode: u16,
    nlink: u16,
    uid: u32,
    gid: u32,
    size: u64,
    blocks: u64,
    atime: i64,
    mtime: i64,
    ctime: i64,
    birth: i64,
    flags: u32,
    extsize: u32,
    pointers: KeptPointers,
}

impl Model for KeptInode {
    ghost use Rattle.ufs_inode_defs.specs.declared.inode.Inode.{Inode};
    ghost use Rattle.ufs_names.specs.Kept.{pointers_of};

    ghost Value = { Inode };

    ghost view = { λ k. record {
      at = k.at;
      mode = k.mode;
      nlink = k.nlink;
      uid = k.uid;
      gid = k.gid;
      size = k.size;
      blocks = k.blocks;
      atime = k.atime;
      mtime = k.mtime;
      ctime = k.ctime;
      birth = k.birth;
      flags = k.flags;
      extsize = k.extsize;
      ext = (pointers_of k.pointers).ext;
      direct = (pointers_of k.pointers).direct;
      indirect = (pointers_of k.pointers).indirect;
    } };
}

impl KeptInode {
    /// Keeps an inode.
    pub fn of(alloc: Global, inode: &Inode) -> Result<KeptInode, AllocError>
        ensures { IfOk result (λ kept. kept ≡ inode.now) }
    {
        let pointers = Pointers {
            ext: inode.ext,
            direct: inode.direct,
            indirect: inode.indirect,
        };
        let first = inode.direct[0];
        let kept = if pointers == Pointers::lone(first) {
            KeptPointers::Lone(first)
        } else {
            KeptPointers::Many(Box::new(alloc, pointers)?)
        };
        Ok(KeptInode {
            at: inode.at,
            mode: inode.mode,
            nlink: inode.nlink,
            uid: inode.uid,
            gid: inode.gid,
            size: inode.size,
            blocks: inode.blocks,
            atime: inode.atime,
            mtime: inode.mtime,
            ctime: inode.ctime,
            birth: inode.birth,
            flags: inode.flags,
            extsize: inode.extsize,
            pointers: kept,
        })
    }

    /// The inode, whole.
    pub fn inode(&self) -> Inode
        ensures { result ≡ self.now }
    {
        let Pointers {
            ext,
            direct,
            indirect,
        } = match &self.pointers {
            KeptPointers::Lone(first) => Pointers::lone(*first),
            KeptPointers::Many(pointers) => **pointers,
        };
        Inode {
            at: self.at,
            mode: self.mode,
            nlink: self.nlink,
            uid: self.uid,
            gid: self.gid,
            size: self.size,
            blocks: self.blocks,
            atime: self.atime,
            mtime: self.mtime,
            ctime: self.ctime,
            birth: self.birth,
            flags: self.flags,
            extsize: self.extsize,
            ext,
            direct,
            indirect,
        }
    }
}
