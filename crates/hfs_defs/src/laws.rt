//! Laws of headers, of forks and of tree files: the contract of each of these functions is a law, and its body is empty.
ghost use Rattle.hfs_defs.specs.Chain.{LeavesLaw};
ghost use Rattle.hfs_defs.specs.ForkDamage.{ForkDamageLaw};
ghost use Rattle.hfs_defs.specs.Forks.{ForkLaw};
ghost use Rattle.hfs_defs.specs.HeaderDamage.{HeaderLaw};

/// A header is that of its volume, and no clause of it is false. What is refused hasn't the magic, or has a clause that is
/// false.
#[tactic(auto, using(crate::proofs::HeaderDamage::header_law))]
pub fn headers_are_true()
    ensures { HeaderLaw }
{}

/// The pieces of a fork without a fault cover it in order, are as long as possible, and put each byte where it stands.
#[tactic(auto, using(crate::proofs::ForkLaws::fork_law))]
pub fn pieces_are_the_fork()
    ensures { ForkLaw }
{}

/// What is told to be wrong with a fork is wrong with it, and nothing is wrong with a fork of which nothing is told.
#[tactic(auto, using(crate::proofs::ForkDamage::fork_damage_law))]
pub fn fork_damage_is_there()
    ensures { ForkDamageLaw }
{}

/// The leaf records of a tree file are those of its chain, from the first leaf node to the last, and what stops them is
/// a false clause.
#[tactic(auto, using(crate::proofs::LeafLaws::leaves_law))]
pub fn leaves_are_the_chain()
    ensures { LeavesLaw }
{}
