//! The law of the guard: the contract of this function is the law, and its body is empty.
ghost use Rattle.ufs_guard_defs.specs.Guard.{UfsGuardLaw};

/// The guard of a volume that is read has the bytes by which kinds are known, the superblock, each inode that is reached, the
/// content of each directory and each block of pointers that is used, and no others.
pub fn the_guard_is_what_is_reached()
    ensures { UfsGuardLaw }
{}
