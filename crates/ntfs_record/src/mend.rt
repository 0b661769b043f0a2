//! A stored record is mended: its checks, and its true bytes in place.
ghost use Rattle.std.specs.Prelude.{◌≡◌, ◌≤◌, length, OnOk, OnErr};
ghost use Rattle.ntfs_record_defs.specs.Record.{header_of};
ghost use Rattle.ntfs_record_defs.specs.Lent.{IsRecordSize, mended};
ghost use Rattle.ntfs_record.specs.Mending.{header_check, sizes_check, stored_check, record_check};

use crate::attrs::check_attributes;
use crate::ends::{check_ends, put_check_numbers, put_true_ends};
use crate::walk::part_of;
use bytes_defs::{Order, u16_at, u32_at};
use ntfs_record_defs::RecordFault;

/// A record has to begin with `FILE`, and its array has to have an entry for each stride and one for the check number,
/// and to stand behind the header, at an even place, and in front of the first bytes that are replaced.
#[tactic(auto, unfolding(ntfs_record_defs::specs::Record::header_of, bytes_defs::specs::Bytes::part))]
fn check_header(bytes: &[u8]) -> Result<(), RecordFault>
    requires { 1024 ≤ length bytes.now }
    ensures { result ≡ header_check bytes.now }
{
    if part_of(bytes, 0, 4) != b"FILE".as_slice() {
        return Err(RecordFault::NotFile);
    }
    let entries = bytes.len() / 512 + 1;
    if usize::from(u16_at(Order::Little, bytes, 6)) != entries {
        return Err(RecordFault::BadField { at: 6 });
    }
    let array = usize::from(u16_at(Order::Little, bytes, 4));
    if array >= 42 && array % 2 == 0 && array + 2 * entries <= 510 {
        Ok(())
    } else {
        Err(RecordFault::BadField { at: 4 })
    }
}

/// The first attribute has to begin behind the array, and the used bytes to end in the record and to have place for the
/// mark that ends the attributes.
#[tactic(auto, unfolding(ntfs_record_defs::specs::Record::header_of))]
fn check_sizes(bytes: &[u8]) -> Result<(), RecordFault>
    requires { 1024 ≤ length bytes.now }
    ensures { result ≡ sizes_check bytes.now }
{
    let array_end = usize::from(u16_at(Order::Little, bytes, 4)) + 2 * (bytes.len() / 512 + 1);
    let first = usize::from(u16_at(Order::Little, bytes, 20));
    if first < array_end {
        return Err(RecordFault::BadField { at: 20 });
    }
    let used = u32_at(Order::Little, bytes, 24) as usize;
    if used <= bytes.len() && first + 4 <= used {
        Ok(())
    } else {
        Err(RecordFault::BadField { at: 24 })
    }
}

/// All that is checked before the true bytes are put back.
#[tactic(auto, using(crate::proofs::Mends::array_in_front))]
fn check_stored(bytes: &[u8]) -> Result<(), RecordFault>
    requires { 1024 ≤ length bytes.now }
    ensures { result ≡ stored_check bytes.now }
{
    if let Err(fault) = check_header(bytes) {
        return Err(fault);
    }
    if let Err(fault) = check_ends(bytes) {
        return Err(fault);
    }
    check_sizes(bytes)
}

/// Puts the true bytes of a stored record back at the ends of its strides. Where it is no record, the bytes stay.
#[tactic(auto, using(crate::proofs::Mends::array_now, crate::proofs::Mends::used_now, crate::proofs::Mends::first_now, crate::proofs::Mends::checked_now, crate::proofs::Mends::restored_now, crate::proofs::Mends::size_now))]
pub fn mend_bytes(bytes: &mut [u8]) -> Result<(), RecordFault>
    requires { IsRecordSize (length bytes.old) }
    ensures checked { result ≡ record_check bytes.old }
    ensures mended { OnOk result (bytes.new ≡ mended bytes.old) }
    ensures kept { OnErr result (bytes.new ≡ bytes.old) }
{
    if let Err(fault) = check_stored(bytes) {
        return Err(fault);
    }
    put_true_ends(bytes);
    match check_attributes(bytes) {
        Ok(()) => Ok(()),
        Err(fault) => {
            put_check_numbers(bytes);
            Err(fault)
        }
    }
}
