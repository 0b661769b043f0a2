//! Laws of a volume.
ghost use Rattle.ntfs_guard_defs.specs.VolumeLaws.{FootprintLaw};

/// The law of the footprint: an image that has the same length, and the same bytes in the guard of a volume, has that
/// volume with all its files, and the same guard.
#[tactic(auto, using(crate::proofs::VolumeLaws::footprint_law))]
pub fn a_volume_rests_on_its_guard()
    ensures { FootprintLaw }
{}
