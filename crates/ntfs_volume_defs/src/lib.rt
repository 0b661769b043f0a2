//! What an NTFS volume says: its boot sector, its `$MFT`, its files.
//!
//! The boot sector (the public PACKED_BOOT_SECTOR) says where `$MFT`, the master file table, begins. It is found through itself:
//! slot 0 names its segments, and each further segment is read through those in front. A file is a base record with the
//! attributes that its attribute list names (ATTRIBUTE_LIST_ENTRY); its parts are its streams, its names are the `$FILE_NAME`
//! attributes that aren't of the DOS space, and a path goes up by parent references to record 5. The guard is the boot sector,
//! the slots less their own resident content, and the attribute lists in clusters.
//!
//!     // 14 clusters, each a sector of 512 bytes, and records of 1,024 bytes; whole volumes are computed in `proofs/VolumeRows`
//!     boot_at 0 7168 gives Boot { at: 0, len: 7168, cluster: 512, clusters: 14, mft_cluster: 1, record_size: 1024 }
#![tactic(auto)]

mod boot;

pub use boot::Boot;
