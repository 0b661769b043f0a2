//! Laws of whole volumes: the contract of each of these functions is a law, and its body is empty.
ghost use Rattle.ufs_volume_defs.specs.Volume.{UfsFootprintLaw};

/// The law of the footprint for UFS: an image that has the same length and the same bytes in the guard has the same tree, and
/// the same guard.
pub fn volumes_rest_on_their_guard()
    ensures { UfsFootprintLaw }
{}
