//! The names that the entries of a block give.
ghost use Rattle.std.specs.Prelude.{◌≡◌, ◌+◌, ◌*◌, ◌%◌, ◌^◌, ◌<◌, ◌≤◌, None, All, IfOk, OnOk};
ghost use Rattle.disk_defs.specs.Disk.{size_of, told_image};
ghost use Rattle.disk_defs.specs.declared.Area.TheVariants.{Image};
ghost use Rattle.image_defs.specs.Through.{through};
ghost use Rattle.image_reads.specs.Steps.{ReadsAs, KeptWithin};
ghost use Rattle.range_defs.specs.declared.TheConstants.{LONGEST_IMAGE};
ghost use Rattle.rx_ranges.specs.Path.{IsPath};
ghost use Rattle.rx_store.specs.ReadFaults.{IsReadCounted};
ghost use Rattle.ufs_inode.specs.Block.{IsBlockOf};
ghost use Rattle.ufs_inode_defs.specs.Superblock as superblock_spec;
ghost use Rattle.ufs_inode_defs.specs.Superblock.{wrong_field};
ghost use Rattle.ufs_volume_defs.specs.Names as names_spec;
ghost use Rattle.ufs_names.specs.Walked.{IsWalked, LiesIn};

use crate::entry::{Block, Place, entry_name};
use crate::name::Name;
use crate::seen::Seen;
use crate::walk::Walk;
use image_reads::bytes_at;
use rx_store::{ReadFault, Store};
use std::alloc::Global;
use ufs_directory::{Entry, leading_entries};
use ufs_inode_defs::Super;
use ufs_super::content_len;

/// The names that entries of a block give, behind those that were found.
fn entries_names<S: Store>(
    alloc: Global,
    store: &mut S,
    sup: &Super,
    place: &Place<'_>,
    mut walk: Walk,
    entries: &[Entry<'_>],
    seen: &mut Seen,
) -> Result<Walk, ReadFault>
    requires sound { wrong_field sup.now ≡ None }
    requires inside { sup.now.at + sup.now.len ≤ size_of Image (S.state store.old) }
    requires path { IsPath place.now.directory.now.path }
    requires walked { IsWalked sup.now walk }
    requires offsets { All (λ entry. place.now.block.now.index * superblock_spec.block_size sup.now + entry.at < 2 ^ 64) entries.now }
    requires places { All (λ entry. place.now.block.now.at + entry.at < 2 ^ 64) entries.now }
    requires inodes { IsBlockOf (told_image (S.state store.old)) seen.old.inodes }
    ensures reads { ReadsAs (told_image (S.state store.old)) (through (names_spec.entry_name sup.now place.now.directory.now place.now.block.now) walk entries.now) seen.old.looked.items seen.new.looked.items result }
    ensures walked { IfOk result (IsWalked sup.now) }
    ensures kept { OnOk result (KeptWithin (sup.now.at + sup.now.len) seen.old.looked.items seen.new.looked.items) }
    ensures inodes { OnOk result (IsBlockOf (told_image (S.state store.new)) seen.new.inodes) }
    ensures same { S.state store.new ≡ S.state store.old }
    ensures counted { IsReadCounted Image result (S.faults store.old) (S.faults store.new) }
{
    for entry in entries {
        walk = entry_name(alloc, store, sup, place, walk, entry, seen)?;
    }
    Ok(walk)
}

/// The names that the entries of a block of a directory give, behind those that were found.
pub(crate) fn block_names<S: Store>(
    alloc: Global,
    store: &mut S,
    sup: &Super,
    directory: &Name,
    walk: Walk,
    block: &Block,
    seen: &mut Seen,
) -> Result<Walk, ReadFault>
    requires sound { wrong_field sup.now ≡ None }
    requires inside { sup.now.at + sup.now.len ≤ size_of Image (S.state store.old) }
    requires near { sup.now.at + sup.now.len ≤ LONGEST_IMAGE }
    requires path { IsPath directory.now.path }
    requires whole { directory.now.inode.size % 512 ≡ 0 }
    requires short { directory.now.inode.size ≤ 4611686018427387904 }
    requires lies { LiesIn sup.now directory.now.inode.size block.now }
    requires walked { IsWalked sup.now walk }
    requires inodes { IsBlockOf (told_image (S.state store.old)) seen.old.inodes }
    ensures reads { ReadsAs (told_image (S.state store.old)) (names_spec.block_names sup.now directory.now walk block.now) seen.old.looked.items seen.new.looked.items result }
    ensures walked { IfOk result (IsWalked sup.now) }
    ensures kept { OnOk result (KeptWithin (sup.now.at + sup.now.len) seen.old.looked.items seen.new.looked.items) }
    ensures inodes { OnOk result (IsBlockOf (told_image (S.state store.new)) seen.new.inodes) }
    ensures same { S.state store.new ≡ S.state store.old }
    ensures counted { IsReadCounted Image result (S.faults store.old) (S.faults store.new) }
{
    let inode = directory.inode.inode();
    let len = content_len(sup, inode.size, block.index);
    let bytes = bytes_at(alloc, store, block.at, len, &mut seen.looked)?;
    let entries = leading_entries(alloc, sup.order, block.at, &bytes)?;
    let place = Place { directory, block };
    entries_names(alloc, store, sup, &place, walk, entries.items(), seen)
}
