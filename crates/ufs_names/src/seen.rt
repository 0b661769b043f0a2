//! What a walk has seen.
use range_defs::Range;
use ufs_inode::InodeBlock;

/// The ranges at which a walk looked, and the block of the inode table that it read last.
#[derive(Debug, Drop)]
pub(crate) struct Seen {
    pub(crate) looked: Vec<Range>,
    pub(crate) inodes: InodeBlock,
}
