//! Laws of whole volumes: the contract of each of these functions is a law, and its body is empty.
ghost use Rattle.hfs_volume_defs.specs.Damage.{HfsDamageLaw};
ghost use Rattle.hfs_volume_defs.specs.Volume.{HfsFootprintLaw};

/// The law of the footprint for HFS+: an image that has the same length and the same bytes in the guard has the same
/// tree and the same guard.
#[tactic(auto, using(crate::proofs::Footprint::hfs_footprint_law))]
pub fn volumes_rest_on_their_guard()
    ensures { HfsFootprintLaw }
{}

/// A volume is something else exactly where its magic doesn't fit. What else refuses a volume is wrong with it: a clause that
/// is false at its place, something that isn't supported, or a limit that is passed. Nothing is wrong with a volume that has
/// a tree, and one with which nothing is wrong has a tree.
#[tactic(auto, using(crate::proofs::VolumeDamage::hfs_damage_law))]
pub fn refusals_are_true()
    ensures { HfsDamageLaw }
{}
