//! When an NTFS volume is damaged: the rules of its structures, each with the place that is told where it is broken.
//!
//! `IsFalseAt` says when a volume is damaged, with a constructor for each rule: the boot sector (PACKED_BOOT_SECTOR), slots and
//! their records (FILE_RECORD_SEGMENT_HEADER), the run lists and segments of streams, attribute lists and their entries
//! (ATTRIBUTE_LIST_ENTRY), `$MFT` through itself, and names. It knows nothing of the order in which a reader meets them.
//!
//! The promised laws of `laws` are of slots, streams, attribute lists and their content, and of a whole volume: a refusal for
//! damage has its broken rule at its place, and what is read has none. The boot sector and `$MFT` have both laws by themselves
//! too, for their own rules, and each file the first.
//!
//!     -- the boot sector of the volume from byte `at` on says no sectors, or more than its `len` bytes have
//!     IsFalseAt image at len BootField (at + 0x28)
#![tactic(auto)]

pub mod laws;
