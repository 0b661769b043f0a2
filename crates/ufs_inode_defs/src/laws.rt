//! The law of streams: the contract of this function is the law, and its body is empty.
ghost use Rattle.ufs_inode_defs.specs.StreamLaws.{StreamLaw};

/// The pieces that a walk over the pointers of a stream finds cover it in order, are the longest, and put each byte where it
/// stands; the slack is what its last block has behind the end.
pub fn pieces_are_the_stream()
    ensures { StreamLaw }
{}
