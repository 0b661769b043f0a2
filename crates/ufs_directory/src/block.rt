//! The entries of a block.
ghost use Rattle.std.specs.Prelude.{◌≡◌, ◌+◌, ◌%◌, ◌<◌, ◌≤◌, ◌≢◌, All, Err, IfOk, length};
ghost use Rattle.range_defs.specs.declared.TheConstants.{LONGEST_IMAGE};
ghost use Rattle.ufs_volume_defs.specs.Directory.{entries_of};
ghost use Rattle.ufs_volume_defs.specs.Names.{leading};
ghost use Rattle.rx_store.specs.Answers.{Answers};

use crate::entry::{Entry, entry_at, is_entry, leads_on};
use bytes_defs::Order;
use rx_ranges::Items;
use rx_store::{ReadFault, Sort};
use std::alloc::Global;

/// The entries that lead to files, of a block of a directory that stands in the image from byte `at` on, in order.
pub fn leading_entries<'a>(
    alloc: Global,
    order: Order,
    at: u64,
    bytes: &'a [u8],
) -> Result<Items<Entry<'a>>, ReadFault>
    requires whole { length bytes.now % 512 ≡ 0 }
    requires near { at + length bytes.now ≤ LONGEST_IMAGE }
    ensures entries { Answers result (leading at (entries_of order bytes.now)) }
    ensures inside { IfOk result (All (λ entry. entry.at < length bytes.now)) }
    ensures calm { result ≢ Err ReadFault.Device }
{
    let mut found = Vec::new(alloc);
    let mut place = 0;
    while place < bytes.len() {
        if !is_entry(order, bytes, place) {
            return Err(ReadFault::Damaged(Sort::DirEntry, at + place as u64));
        }
        let entry = entry_at(order, bytes, place);
        place += usize::from(entry.len);
        if leads_on(&entry) {
            found.push(entry)?;
        }
    }
    Ok(Items::from_vec(found))
}
