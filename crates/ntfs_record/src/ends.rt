//! The ends of the strides of a stored record.
ghost use Rattle.std.specs.Prelude.{◌≡◌, ℕ, ◌+◌, ◌*◌, ◌/◌, ◌%◌, ◌<◌, ◌≤◌, Ok, length};
ghost use Rattle.ntfs_record_defs.specs.Lent.{IsRecordSize, mended};
ghost use Rattle.ntfs_record_defs.specs.Record.{header_of};
ghost use Rattle.ntfs_record.specs.Mending.{ends_check, filled, stored_check};

use crate::walk::part_of;
use bytes_defs::{Order, u16_at};
use ntfs_record_defs::RecordFault;

/// The bytes of a stride.
const STRIDE: usize = 512;

/// Each stride has to end with the check number, which stands in front of the array.
#[tactic(auto, unfolding(ntfs_record_defs::specs::Record::header_of))]
pub(crate) fn check_ends(bytes: &[u8]) -> Result<(), RecordFault>
    requires size { 1024 ≤ length bytes.now }
    requires array { (header_of bytes.now).array + 2 ≤ 510 }
    ensures { result ≡ ends_check bytes.now }
{
    let number = part_of(bytes, usize::from(u16_at(Order::Little, bytes, 4)), 2);
    for stride in 0..bytes.len() / STRIDE {
        if part_of(bytes, STRIDE * stride + 510, 2) != number {
            return Err(RecordFault::BadFixup { stride });
        }
    }
    Ok(())
}

/// Copies two bytes to the end of each stride: those at `from` to that of the first one, and for each next one those
/// that stand `step` bytes further.
fn fill_ends(bytes: &mut [u8], from: usize, step: usize)
    requires strides { length bytes.old % 512 ≡ 0 }
    requires front { (stride : ℕ) → stride < length bytes.old / 512 → from + step * stride + 2 ≤ 510 }
    ensures { bytes.new ≡ filled from step bytes.old }
{
    for stride in 0..bytes.len() / STRIDE {
        let place = from + step * stride;
        let first = bytes[place];
        let second = bytes[place + 1];
        let end = STRIDE * stride + 510;
        bytes[end] = first;
        bytes[end + 1] = second;
    }
}

/// Where the array of a record stands.
#[tactic(auto, unfolding(ntfs_record_defs::specs::Record::header_of))]
fn array_at(bytes: &[u8]) -> usize
    requires { 1024 ≤ length bytes.now }
    ensures value { result ≡ (header_of bytes.now).array }
    ensures small { result ≤ 65535 }
{
    usize::from(u16_at(Order::Little, bytes, 4))
}

/// Puts the true bytes that the array has for each stride at the stride's end.
#[tactic(auto, using(crate::proofs::Mends::long_record, crate::proofs::Mends::whole_strides, crate::proofs::Mends::entries_in_front, crate::proofs::Mends::filled_mends))]
pub(crate) fn put_true_ends(bytes: &mut [u8])
    requires size { IsRecordSize (length bytes.old) }
    requires sound { stored_check bytes.old ≡ Ok tt }
    ensures { bytes.new ≡ mended bytes.old }
{
    let array = array_at(bytes);
    fill_ends(bytes, array + 2, 2);
}

/// Puts the check number, which the array begins with, at the end of each stride.
pub(crate) fn put_check_numbers(bytes: &mut [u8])
    requires size { IsRecordSize (length bytes.old) }
    requires front { (header_of bytes.old).array + 2 ≤ 510 }
    ensures { bytes.new ≡ filled (header_of bytes.old).array 0 bytes.old }
{
    let array = array_at(bytes);
    fill_ends(bytes, array, 0);
}
