//! What is proved of damage: the contract of each of these functions is a law, and its body is empty.
ghost use Rattle.ntfs_damage_defs.specs.DamageLaws.{SlotRefusedLaw, SlotReadLaw, StreamRefusedLaw, StreamReadLaw, ListRefusedLaw, ListReadLaw, ContentRefusedLaw, ContentReadLaw, BootRefusedLaw, BootReadLaw, MftRefusedLaw, MftReadLaw, FileRefusedLaw, VolumeRefusedLaw, VolumeReadLaw};

/// A slot that is refused for damage has what is wrong, at the place that is told; one that is read has nothing wrong.
#[tactic(auto, using(crate::proofs::SlotDamage::slot_refuses, crate::proofs::SlotDamage::slot_is_sound))]
pub fn slots_are_refused_for_what_is_wrong()
    ensures refused { SlotRefusedLaw }
    ensures read { SlotReadLaw }
{}

/// The same of a stream, from its segments.
#[tactic(auto, using(crate::proofs::StreamDamage::stream_refuses, crate::proofs::StreamDamage::stream_is_sound))]
pub fn streams_are_refused_for_what_is_wrong()
    ensures refused { StreamRefusedLaw }
    ensures read { StreamReadLaw }
{}

/// The same of the entries of an attribute list.
#[tactic(auto, using(crate::proofs::ListDamage::list_refuses, crate::proofs::ListDamage::list_is_sound))]
pub fn lists_are_refused_for_what_is_wrong()
    ensures refused { ListRefusedLaw }
    ensures read { ListReadLaw }
{}

/// The same of the content of an attribute list.
#[tactic(auto, using(crate::proofs::EntryDamage::content_refuses, crate::proofs::EntryDamage::content_is_sound))]
pub fn contents_of_lists_are_refused_for_what_is_wrong()
    ensures refused { ContentRefusedLaw }
    ensures read { ContentReadLaw }
{}

/// A boot sector is refused for damage only where a rule of it is broken at that place; one that is read breaks none.
#[tactic(auto, using(crate::proofs::BootDamage::boot_refuses, crate::proofs::SoundBoot::boot_is_sound))]
pub fn the_boot_sector_is_refused_for_what_is_wrong()
    ensures refused { BootRefusedLaw }
    ensures read { BootReadLaw }
{}

/// Where the boot sector is sound, `$MFT` is refused for damage only where a rule of the volume is broken at that place; one that
/// is found breaks no rule of its map.
#[tactic(auto, using(crate::proofs::MapDamage::mft_refuses, crate::proofs::SoundBoot::mft_is_sound))]
pub fn the_mft_is_refused_for_what_is_wrong()
    ensures refused { MftRefusedLaw }
    ensures read { MftReadLaw }
{}

/// The same of the file of a slot.
#[tactic(auto, using(crate::proofs::FileDamage::file_refuses))]
pub fn files_are_refused_for_what_is_wrong()
    ensures { FileRefusedLaw }
{}

/// A volume is refused for damage only where a rule of it is broken at that place; one that is read has no rule that is broken.
#[tactic(auto, using(crate::proofs::VolumeDamage::volume_refuses, crate::proofs::SoundVolume::volume_is_sound))]
pub fn a_volume_is_refused_for_what_is_wrong()
    ensures refused { VolumeRefusedLaw }
    ensures read { VolumeReadLaw }
{}
