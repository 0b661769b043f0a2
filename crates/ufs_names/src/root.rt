//! The walk from the root.
ghost use Rattle.std.specs.Prelude.{◌≡◌, ◌+◌, ◌≤◌, None, All, IfOk, OnOk, length};
ghost use Rattle.disk_defs.specs.Disk.{size_of, told_image};
ghost use Rattle.disk_defs.specs.declared.Area.TheVariants.{Image};
ghost use Rattle.image_reads.specs.Steps.{ReadsAs, KeptWithin};
ghost use Rattle.range_defs.specs.declared.TheConstants.{LONGEST_IMAGE};
ghost use Rattle.rx_store.specs.ReadFaults.{IsReadCounted};
ghost use Rattle.ufs_inode.specs.Block.{IsBlockOf};
ghost use Rattle.ufs_inode_defs.specs.Blocks.{most_runs};
ghost use Rattle.ufs_inode_defs.specs.Superblock.{wrong_field};
ghost use Rattle.ufs_volume_defs.specs.Names as spec;
ghost use Rattle.ufs_volume_defs.specs.Names.{most_names, most_path_bytes, path_bytes, volume_names};
ghost use Rattle.ufs_names.specs.Walked.{IsInodeOf, IsNamed, IsWalked};

use crate::kept::KeptInode;
use crate::levels::names_below;
use crate::name::Name;
use crate::seen::Seen;
use crate::sizes::{is_directory, super_place};
use crate::walk::Walk;
use range_defs::Range;
use rx_ranges::{Items, Text};
use rx_store::{ReadFault, Sort, Store};
use std::alloc::{AllocError, Global};
use std::mem;
use ufs_inode::{InodeBlock, look_at_inode};
use ufs_inode_defs::{Inode, Super};

/// The number of the root's inode (ROOTINO of dinode.h).
const ROOT: u32 = 2;

/// The root, which is a directory.
fn root_inode<S: Store>(store: &mut S, sup: &Super, seen: &mut Seen) -> Result<Inode, ReadFault>
    requires sound { wrong_field sup.now ≡ None }
    requires inside { sup.now.at + sup.now.len ≤ size_of Image (S.state store.old) }
    requires near { sup.now.at + sup.now.len ≤ LONGEST_IMAGE }
    requires inodes { IsBlockOf (told_image (S.state store.old)) seen.old.inodes }
    ensures reads { ReadsAs (told_image (S.state store.old)) (spec.root_inode sup.now) seen.old.looked.items seen.new.looked.items result }
    ensures of { IfOk result (IsInodeOf sup.now 2) }
    ensures kept { OnOk result (KeptWithin (sup.now.at + sup.now.len) seen.old.looked.items seen.new.looked.items) }
    ensures inodes { OnOk result (IsBlockOf (told_image (S.state store.new)) seen.new.inodes) }
    ensures same { S.state store.new ≡ S.state store.old }
    ensures counted { IsReadCounted Image result (S.faults store.old) (S.faults store.new) }
{
    let inode = look_at_inode(
        store,
        sup,
        ROOT,
        super_place(sup),
        &mut seen.inodes,
        &mut seen.looked,
    )?;
    if !is_directory(&inode) {
        return Err(ReadFault::Damaged(Sort::RootKind, inode.at));
    }
    Ok(inode)
}

/// The root's name, the path of which is a slash alone.
fn root_name(alloc: Global, inode: Inode) -> Result<Name, AllocError>
    ensures { IfOk result (λ name. name ≡ spec.root_name inode) }
{
    Ok(Name {
        number: ROOT,
        inode: KeptInode::of(alloc, &inode)?,
        path: Text::from_str(alloc, "/")?,
        directory: 0,
        offset: 0,
    })
}

/// The names from the root on.
fn names_from<S: Store>(
    alloc: Global,
    store: &mut S,
    sup: &Super,
    inode: Inode,
    seen: &mut Seen,
) -> Result<Walk, ReadFault>
    requires sound { wrong_field sup.now ≡ None }
    requires inside { sup.now.at + sup.now.len ≤ size_of Image (S.state store.old) }
    requires near { sup.now.at + sup.now.len ≤ LONGEST_IMAGE }
    requires of { IsInodeOf sup.now 2 inode }
    requires inodes { IsBlockOf (told_image (S.state store.old)) seen.old.inodes }
    ensures reads { ReadsAs (told_image (S.state store.old)) (spec.names_from sup.now inode) seen.old.looked.items seen.new.looked.items result }
    ensures walked { IfOk result (IsWalked sup.now) }
    ensures kept { OnOk result (KeptWithin (sup.now.at + sup.now.len) seen.old.looked.items seen.new.looked.items) }
    ensures inodes { OnOk result (IsBlockOf (told_image (S.state store.new)) seen.new.inodes) }
    ensures same { S.state store.new ≡ S.state store.old }
    ensures counted { IsReadCounted Image result (S.faults store.old) (S.faults store.new) }
{
    let walk = Walk::of_root(alloc, root_name(alloc, inode)?)?;
    let root = vec![in alloc; root_name(alloc, inode)?]?;
    names_below(alloc, store, sup, walk, Items::from_vec(root), seen)
}

/// The names of a volume, by what was seen of it.
fn names_at<S: Store>(
    alloc: Global,
    store: &mut S,
    sup: &Super,
    seen: &mut Seen,
) -> Result<Walk, ReadFault>
    requires sound { wrong_field sup.now ≡ None }
    requires inside { sup.now.at + sup.now.len ≤ size_of Image (S.state store.old) }
    requires near { sup.now.at + sup.now.len ≤ LONGEST_IMAGE }
    requires inodes { IsBlockOf (told_image (S.state store.old)) seen.old.inodes }
    ensures reads { ReadsAs (told_image (S.state store.old)) (volume_names sup.now) seen.old.looked.items seen.new.looked.items result }
    ensures walked { IfOk result (IsWalked sup.now) }
    ensures kept { OnOk result (KeptWithin (sup.now.at + sup.now.len) seen.old.looked.items seen.new.looked.items) }
    ensures same { S.state store.new ≡ S.state store.old }
    ensures counted { IsReadCounted Image result (S.faults store.old) (S.faults store.new) }
{
    let inode = root_inode(store, sup, seen)?;
    names_from(alloc, store, sup, inode, seen)
}

/// The names of a volume with this superblock, in the order of the walk from the root, and the runs that were counted. The
/// ranges at which one looks for them are kept.
pub fn read_names<S: Store>(
    alloc: Global,
    store: &mut S,
    sup: &Super,
    looked: &mut Vec<Range>,
) -> Result<Walk, ReadFault>
    requires sound { wrong_field sup.now ≡ None }
    requires inside { sup.now.at + sup.now.len ≤ size_of Image (S.state store.old) }
    requires near { sup.now.at + sup.now.len ≤ LONGEST_IMAGE }
    ensures reads { ReadsAs (told_image (S.state store.old)) (volume_names sup.now) looked.old.items looked.new.items result }
    ensures named { IfOk result (λ walk. All (IsNamed sup.now) walk.names) }
    ensures few { IfOk result (λ walk. length walk.names ≤ most_names) }
    ensures short { IfOk result (λ walk. path_bytes walk.names ≤ most_path_bytes) }
    ensures few_runs { IfOk result (λ walk. walk.runs ≤ most_runs) }
    ensures kept { OnOk result (KeptWithin (sup.now.at + sup.now.len) looked.old.items looked.new.items) }
    ensures same { S.state store.new ≡ S.state store.old }
    ensures counted { IsReadCounted Image result (S.faults store.old) (S.faults store.new) }
{
    let inodes = InodeBlock::new(alloc)?;
    let mut seen = Seen {
        looked: mem::replace(looked, Vec::new(alloc)),
        inodes,
    };
    let walk = names_at(alloc, store, sup, &mut seen);
    *looked = seen.looked;
    walk
}
