//! What is proved of damage: the contract of each of these functions is a law, and its body is empty.
ghost use Rattle.ufs_damage_defs.specs.Damage.{UfsDamageLaw};

/// A volume is something else exactly where no magic of it fits. What else refuses a volume is wrong with it: a clause that is
/// false at its place, something that isn't supported, or a limit that is passed. Nothing is wrong with a volume that is read, and
/// one with which nothing is wrong is read.
#[tactic(auto, using(crate::proofs::VolumeDamage::ufs_damage_law))]
pub fn refusals_are_true()
    ensures { UfsDamageLaw }
{}
