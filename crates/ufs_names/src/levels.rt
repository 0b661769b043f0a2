//! The walk from level to level.
ghost use Rattle.std.specs.Prelude.{◌≡◌, ◌+◌, ◌≤◌, None, All, IfOk, OnOk, suc};
ghost use Rattle.disk_defs.specs.Disk.{size_of, told_image};
ghost use Rattle.disk_defs.specs.declared.Area.TheVariants.{Image};
ghost use Rattle.image_defs.specs.Through.{through};
ghost use Rattle.image_reads.specs.Steps.{ReadsAs, KeptWithin};
ghost use Rattle.range_defs.specs.declared.TheConstants.{LONGEST_IMAGE};
ghost use Rattle.rx_store.specs.ReadFaults.{IsReadCounted};
ghost use Rattle.ufs_inode.specs.Block.{IsBlockOf};
ghost use Rattle.ufs_inode_defs.specs.Superblock.{wrong_field};
ghost use Rattle.ufs_volume_defs.specs.Names as spec;
ghost use Rattle.ufs_volume_defs.specs.Names.{deepest};
ghost use Rattle.ufs_names.specs.Walked.{IsNamed, IsWalked};

use crate::directory::directory_names;
use crate::name::Name;
use crate::seen::Seen;
use crate::sizes::is_directory;
use crate::walk::Walk;
use rx_ranges::Items;
use rx_store::{Bound, ReadFault, Store};
use std::alloc::{AllocError, Global};
use ufs_inode_defs::Super;

/// The most directories on the way from the root to a file, without the root.
const DEEPEST: u64 = 1_024;

/// Copies of the directories among the names behind a number of them.
pub(crate) fn directories_behind(
    alloc: Global,
    count: usize,
    names: &[Name],
) -> Result<Items<Name>, AllocError>
    ensures { IfOk result (λ found. found ≡ spec.directories_behind count names.now) }
{
    let mut found = Vec::new(alloc);
    let first = count.min(names.len());
    for name in &names[first..] {
        if is_directory(&name.inode.inode()) {
            found.push(name.copy(alloc)?)?;
        }
    }
    Ok(Items::from_vec(found))
}

/// The names that the entries of directories give, behind those that were found.
fn level_names<S: Store>(
    alloc: Global,
    store: &mut S,
    sup: &Super,
    mut walk: Walk,
    directories: &[Name],
    seen: &mut Seen,
) -> Result<Walk, ReadFault>
    requires sound { wrong_field sup.now ≡ None }
    requires inside { sup.now.at + sup.now.len ≤ size_of Image (S.state store.old) }
    requires near { sup.now.at + sup.now.len ≤ LONGEST_IMAGE }
    requires named { All (IsNamed sup.now) directories.now }
    requires walked { IsWalked sup.now walk }
    requires inodes { IsBlockOf (told_image (S.state store.old)) seen.old.inodes }
    ensures reads { ReadsAs (told_image (S.state store.old)) (through (spec.directory_names sup.now) walk directories.now) seen.old.looked.items seen.new.looked.items result }
    ensures walked { IfOk result (IsWalked sup.now) }
    ensures kept { OnOk result (KeptWithin (sup.now.at + sup.now.len) seen.old.looked.items seen.new.looked.items) }
    ensures inodes { OnOk result (IsBlockOf (told_image (S.state store.new)) seen.new.inodes) }
    ensures same { S.state store.new ≡ S.state store.old }
    ensures counted { IsReadCounted Image result (S.faults store.old) (S.faults store.new) }
{
    for directory in directories {
        walk = directory_names(alloc, store, sup, walk, directory, seen)?;
    }
    Ok(walk)
}

/// The names below the directories of one depth, and then those below the directories among them, down 1,025 depths.
pub(crate) fn names_below<S: Store>(
    alloc: Global,
    store: &mut S,
    sup: &Super,
    mut walk: Walk,
    mut directories: Items<Name>,
    seen: &mut Seen,
) -> Result<Walk, ReadFault>
    requires sound { wrong_field sup.now ≡ None }
    requires inside { sup.now.at + sup.now.len ≤ size_of Image (S.state store.old) }
    requires near { sup.now.at + sup.now.len ≤ LONGEST_IMAGE }
    requires named { All (IsNamed sup.now) directories }
    requires walked { IsWalked sup.now walk }
    requires inodes { IsBlockOf (told_image (S.state store.old)) seen.old.inodes }
    ensures reads { ReadsAs (told_image (S.state store.old)) (spec.names_below (suc deepest) sup.now walk directories) seen.old.looked.items seen.new.looked.items result }
    ensures walked { IfOk result (IsWalked sup.now) }
    ensures kept { OnOk result (KeptWithin (sup.now.at + sup.now.len) seen.old.looked.items seen.new.looked.items) }
    ensures inodes { OnOk result (IsBlockOf (told_image (S.state store.new)) seen.new.inodes) }
    ensures same { S.state store.new ≡ S.state store.old }
    ensures counted { IsReadCounted Image result (S.faults store.old) (S.faults store.new) }
{
    for _depth in 0..DEEPEST + 1 {
        if directories.items().is_empty() {
            return Ok(walk);
        }
        let count = walk.names.len();
        walk = level_names(alloc, store, sup, walk, directories.items(), seen)?;
        directories = directories_behind(alloc, count, walk.names.as_slice())?;
    }
    if directories.items().is_empty() {
        Ok(walk)
    } else {
        Err(ReadFault::Limit(Bound::Depth, DEEPEST))
    }
}
