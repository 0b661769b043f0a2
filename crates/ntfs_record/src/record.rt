//! Records.
ghost use Rattle.std.specs.Prelude.{◌≡◌, ◌<◌, length, IfOk, IfErr, OnOk, Err, IsOk};
ghost use Rattle.image_defs.specs.Ask.{result_of};
ghost use Rattle.bytes_defs.specs.Numbers.{little_at};
ghost use Rattle.ntfs_record_defs.specs.Stored as spec;
ghost use Rattle.ntfs_record_defs.specs.Record.{record_of};
ghost use Rattle.ntfs_record_defs.specs.Lent.{lent_attributes, AreApart, IsRecordSize, mended};

use crate::attrs::Attrs;
use crate::mend::mend_bytes;
use bytes_defs::{Order, u16_at, u64_at};
use ntfs_record_defs::RecordFault;
use std::marker::Model;

/// A record whose true bytes stand in place.
#[derive(Debug, Drop)]
pub struct FileRecord<'a> {
    bytes: &'a [u8],
}

impl<'a> Model for FileRecord<'a> {
    ghost use Rattle.std.specs.Prelude.{List, ℕ};
    ghost use Rattle.ntfs_record_defs.specs.Lent.{IsMended};

    ghost Value = { List ℕ };

    ghost view = { λ r. r.bytes.now };

    ghost invariant = { λ r. IsMended r.bytes.now };
}

impl<'a> FileRecord<'a> {
    /// The record that these stored bytes hold: its true bytes are put back at the stride ends. The first check that
    /// fails is answered, and the bytes are then as they were, as `mend_bytes` ensures.
    pub fn mend(bytes: &'a mut [u8]) -> Result<FileRecord<'a>, RecordFault>
        requires { IsRecordSize (length bytes.old) }
        ensures refused { IfErr result (λ fault. result_of bytes.old (record_of (length bytes.old)) ≡ Err fault) }
        ensures sound { OnOk result (IsOk (result_of bytes.old (record_of (length bytes.old)))) }
        ensures mended { IfOk result (λ found. found ≡ mended bytes.old) }
    {
        match mend_bytes(bytes) {
            Ok(()) => Ok(FileRecord { bytes }),
            Err(fault) => Err(fault),
        }
    }

    /// The sequence number.
    pub fn sequence(&self) -> u16
        ensures { result ≡ little_at 2 self.now 16 }
    {
        u16_at(Order::Little, self.bytes, 16)
    }

    /// The number of links.
    pub fn links(&self) -> u16
        ensures { result ≡ little_at 2 self.now 18 }
    {
        u16_at(Order::Little, self.bytes, 18)
    }

    /// The flags: 1 of a record in use, and 2 of a directory.
    pub fn flags(&self) -> u16
        ensures { result ≡ little_at 2 self.now 22 }
    {
        u16_at(Order::Little, self.bytes, 22)
    }

    /// The reference to the base record; 0 in a base record.
    pub fn base(&self) -> u64
        ensures { result ≡ little_at 8 self.now 32 }
    {
        u64_at(Order::Little, self.bytes, 32)
    }

    /// The attributes in order.
    #[tactic(auto, using(ntfs_record_defs::proofs::LentLaws::mended_apart))]
    pub fn attrs(&self) -> Attrs<'a>
        ensures all { result ≡ lent_attributes self.now }
        ensures rise { AreApart self.now }
    {
        Attrs::new(self.bytes)
    }

    /// The place in the stored record of a byte of the record.
    #[tactic(auto, unfolding(ntfs_record_defs::specs::Stored::stored_place, ntfs_record_defs::specs::Record::header_of))]
    pub fn stored_place(&self, i: usize) -> usize
        requires { i < length self.now }
        ensures place { result ≡ spec.stored_place (little_at 2 self.now 4) i }
        ensures inside { result < length self.now }
    {
        let stride = i / 512;
        let k = i % 512;
        if k < 510 {
            return i;
        }
        usize::from(u16_at(Order::Little, self.bytes, 4)) + 2 * (stride + 1) + (k - 510)
    }
}
