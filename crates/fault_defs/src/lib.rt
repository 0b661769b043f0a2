//! What may be wrong with an image: sorts of damage, values that aren't supported, and limits that may be passed.
//!
//! The definitions of all file systems stop with one type, `Refusal`: another file system (`NotThis`), a clause of the format
//! that is false at a place (`Damaged`), a value that isn't read (`Unsupported`), or more of something than is counted
//! (`Limit`). A place is a byte of the image, counted from 0; the number of a `Limit` is the limit that was passed.
//!
//!     // the superblock's block size, at byte 48 of it, isn't a power of two
//!     Refusal::Damaged(Sort::SuperField, 65_536 + 48)
#![tactic(auto)]

/// The sorts of damage of an image. Each refusal names the place of one of these beside it.
#[derive(Clone, Copy, Debug, PartialEq, Eq)]
pub enum Sort {
    // NTFS
    /// The boot sector says no sectors or more than the volume has, or a first $MFT cluster that isn't in the volume.
    BootField,
    /// A slot of the $MFT begins neither with `FILE` nor with four zeros.
    RecordMagic,
    /// A slot with a file record has a byte that isn't stored.
    MftHole,
    /// A field of a file record in use has a value that the record can't have.
    RecordField,
    /// The end of a 512-byte stride of a file record in use doesn't hold the record's check number.
    Fixup,
    /// A run list breaks a rule of run lists.
    RunList,
    /// The clusters of a run list aren't as many as the attribute's first and last cluster say.
    RunCount,
    /// The segments of a stream don't run on from its start without a gap, or a stream stands twice.
    SegmentGap,
    /// A stream or the run lists of an unreadable part have more than 2^62 bytes.
    Sizes,
    /// An entry of an attribute list has a bad length, or its name lies outside it.
    ListEntry,
    /// An entry of an attribute list names an attribute that isn't there.
    AttributeMissing,
    /// The $MFT has no content of its own that can be read, or its segments don't map the next ones.
    MftMap,
    /// The name of a file isn't stored in the record, is cut short or empty, or is of an unknown name space.
    BadName,

    // UFS
    /// A field of the superblock has a value that it can't have.
    SuperField,
    /// The root inode is no directory.
    RootKind,
    /// The number of an inode is past the last one, or the inode passes the volume's end.
    InodeNumber,
    /// An inode that is reached is free.
    DeadInode,
    /// A file is larger than 2^62 bytes or than its pointers reach, or its extended area is larger than two blocks.
    FileSize,
    /// A pointer that is used is negative, or its block passes the volume's end.
    BlockPointer,
    /// The size of a directory isn't a multiple of 512, or the directory has a hole.
    DirSize,
    /// An entry of a directory has a bad length, or no name that fits into it.
    DirEntry,
    /// Two entries name one directory, or one names the root.
    DirTwice,

    // HFS+
    /// A field of the volume header has a value that it can't have, or the volume is too short for one.
    HeaderField,
    /// An extent passes the volume's blocks.
    ForkExtent,
    /// The extents of a fork don't have as many blocks as the fork says, or fewer than its size takes.
    ForkSum,
    /// The header node of a tree has another kind, or a node size that a tree can't have.
    TreeHeader,
    /// A node on the chain of leaves lies outside the tree or is no leaf, or the chain is longer than the tree.
    NodeLink,
    /// The records of a node aren't in order inside it, or a key passes its record.
    NodeRecord,
    /// A record of the catalog has an unknown type, is too short, or its name passes its key.
    CatalogRecord,
    /// A record of the extents file has a key of another length, or is too short.
    ExtentsRecord,
    /// Two files or folders have one number, or one has a number that is kept for another file.
    CatalogTwice,
    /// The folder of a file or folder isn't in the catalog, or the root folder is missing.
    FolderMissing,
}

/// What an image may have that isn't supported.
#[derive(Clone, Copy, Debug, PartialEq, Eq)]
pub enum What {
    /// A size of sectors, clusters or file records of NTFS that isn't read here.
    BootGeometry,
    /// A snapshot of UFS.
    Snapshot,
    /// An extents file of HFS+ that has more extents than its header holds.
    ExtentsFork,
}

/// What is counted, and may pass its limit.
#[derive(Clone, Copy, Debug, PartialEq, Eq)]
pub enum Bound {
    /// The bytes of an image.
    Image,
    /// The slots of the $MFT.
    Slots,
    /// The names of files.
    Names,
    /// The bytes of all paths together, as they are printed.
    PathBytes,
    /// The bytes of one path, as it is printed.
    Path,
    /// The directories on the way from the root to a file.
    Depth,
    /// The pieces of all parts of files, and the indirect blocks that were visited.
    Runs,
    /// The bytes of an attribute list of NTFS.
    AttributeList,
    /// The bytes of a rule text.
    RuleText,
    /// The bytes of a line of a rule text, without its end.
    RuleLine,
    /// The rules of a rule text.
    Rules,
    /// The ranges of a plan.
    Ranges,
    /// The bytes of a stream that a rule reads.
    Stream,
}

/// Why what an image says ends without a value.
#[derive(Clone, Copy, Debug, PartialEq, Eq)]
pub enum Refusal {
    /// It is something else: the magic doesn't fit.
    NotThis,
    /// It is damaged: the sort, and the place in the image.
    Damaged(Sort, u64),
    /// It has what isn't supported, at this place in the image.
    Unsupported(What, u64),
    /// It has more of something than the limit, which this number is.
    Limit(Bound, u64),
}
