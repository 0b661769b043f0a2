//! The records of the extents file.
ghost use Rattle.std.specs.Prelude.{◌≡◌, ◌≤◌, length, All, IsTrue, IfOk, IfErr, IfSome};
ghost use Rattle.disk_defs.specs.Disk.{size_of, told_image};
ghost use Rattle.disk_defs.specs.declared.Area.TheVariants.{Image};
ghost use Rattle.hfs_btree.specs.Cursor.{rest_of};
ghost use Rattle.hfs_btree.specs.Lent.{leaf};
ghost use Rattle.hfs_defs.specs.Overflow as spec;
ghost use Rattle.hfs_defs.specs.Overflow.{checked_overflow, overflow_records};
ghost use Rattle.hfs_extents.specs.Extents.{AreNear};
ghost use Rattle.hfs_extents.specs.Overflow.{IsNear, IsRecordRefusal};
ghost use Rattle.piece_defs.specs.Places.{AreWithin};
ghost use Rattle.range_defs.specs.declared.TheConstants.{LONGEST_IMAGE};
ghost use Rattle.rx_store.specs.Answers.{Answers};
ghost use Rattle.rx_store.specs.ReadFaults.{IsReadCounted};

use bytes_defs::Order::Big;
use bytes_defs::{u16_at, u32_at};
use hfs_btree::{LeafRecord, Leaves};
use hfs_defs::{Extent, OverflowRecord};
use range_defs::LONGEST_IMAGE;
use rx_ranges::Items;
use rx_store::{ReadFault, Sort, Store};
use std::alloc::Global;

/// Whether a leaf record has a key of ten bytes and a body of eight extents.
#[tactic(auto, unfolding(hfs_defs::specs::Overflow::is_overflow_record))]
fn is_overflow_record(bytes: &[u8]) -> bool
    requires { 2 ≤ length bytes.now }
    ensures value { result ≡ spec.is_overflow_record bytes.now }
    ensures long { IsTrue result → 76 ≤ length bytes.now }
{
    u16_at(Big, bytes, 0) == 10 && bytes.len() >= 76
}

/// The overflow record that a leaf record is.
#[tactic(auto, unfolding(hfs_defs::specs::Overflow::checked_overflow))]
fn overflow_record(lent: LeafRecord<'_>) -> Result<OverflowRecord, ReadFault>
    requires sized { 2 ≤ length lent.bytes.now }
    ensures told { lent.entry.at ≤ LONGEST_IMAGE → Answers result (checked_overflow (leaf lent.entry)) }
    ensures near { IfOk result (λ overflow. overflow.at ≤ LONGEST_IMAGE) }
    ensures refusals { IfErr result (λ fault. fault ≡ ReadFault.Damaged Sort.ExtentsRecord lent.entry.at) }
{
    let LeafRecord { at, bytes, .. } = lent;
    if !is_overflow_record(bytes) {
        return Err(ReadFault::Damaged(Sort::ExtentsRecord, at));
    }
    Ok(OverflowRecord {
        file: u32_at(Big, bytes, 4),
        fork_type: bytes[2],
        start: u32_at(Big, bytes, 8),
        extents: [
            Extent::from_bytes(bytes, 12),
            Extent::from_bytes(bytes, 20),
            Extent::from_bytes(bytes, 28),
            Extent::from_bytes(bytes, 36),
            Extent::from_bytes(bytes, 44),
            Extent::from_bytes(bytes, 52),
            Extent::from_bytes(bytes, 60),
            Extent::from_bytes(bytes, 68),
        ],
        // what a store tells stands in front of it; of one that tells nothing that isn't known
        at: at.min(LONGEST_IMAGE),
    })
}

/// The overflow records of the leaf records that are to come.
pub(crate) fn read_records<S: Store>(
    alloc: Global,
    store: &mut S,
    mut leaves: Leaves,
) -> Result<Items<OverflowRecord>, ReadFault>
    requires within { AreWithin (size_of Image (S.state store.old)) leaves.pieces }
    requires near { IfSome (told_image (S.state store.old)) (λ image. All IsNear (rest_of image leaves).records) }
    ensures told { IfSome (told_image (S.state store.old)) (λ image. Answers result (overflow_records (rest_of image leaves))) }
    ensures near { IfOk result AreNear }
    ensures refusals { IfErr result IsRecordRefusal }
    ensures same { S.state store.new ≡ S.state store.old }
    ensures counted { IsReadCounted Image result (S.faults store.old) (S.faults store.new) }
{
    let mut records = Vec::new(alloc);
    'reading: while let Some(lent) = leaves.next(store)? {
        records.push(overflow_record(lent)?)?;
    }
    Ok(Items::from_vec(records))
}
