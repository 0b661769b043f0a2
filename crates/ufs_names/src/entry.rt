//! The names that entries give.
ghost use Rattle.std.specs.Prelude.{◌≡◌, ◌≢◌, ◌&&◌, ◌+◌, ◌*◌, ◌^◌, ◌<◌, ◌≤◌, None, Err, IfOk, OnOk};
ghost use Rattle.disk_defs.specs.Disk.{size_of, told_image};
ghost use Rattle.disk_defs.specs.declared.Area.TheVariants.{Image};
ghost use Rattle.image_reads.specs.Steps.{ReadsAs, KeptWithin};
ghost use Rattle.rx_ranges.specs.Path.{IsPath};
ghost use Rattle.rx_store.specs.ReadFaults.{IsReadCounted};
ghost use Rattle.ufs_blocks.specs.UnderWay.{Settles};
ghost use Rattle.ufs_inode.specs.Block.{IsBlockOf};
ghost use Rattle.ufs_inode_defs.specs.Inode as inode_spec;
ghost use Rattle.ufs_inode_defs.specs.Superblock as superblock_spec;
ghost use Rattle.ufs_inode_defs.specs.Superblock.{wrong_field};
ghost use Rattle.rx_store.specs.Answers.{Answers};
ghost use Rattle.ufs_volume_defs.specs.Names as names_spec;
ghost use Rattle.ufs_volume_defs.specs.Names.{is_known};
ghost use Rattle.ufs_names.specs.Walked.{IsInodeOf, IsNamed, IsWalked, limited_name};

use crate::kept::KeptInode;
use crate::name::Name;
use crate::path::path_of;
use crate::seen::Seen;
use crate::sizes::is_directory;
use crate::walk::Walk;
use rx_store::{ReadFault, Sort, Store};
use std::alloc::Global;
use std::marker::Model;
use ufs_directory::Entry;
use ufs_inode::look_at_inode;
use ufs_inode_defs::{Inode, Super};
use ufs_super::block_size;

/// A block of a directory's content: its number there, and its place in the image.
#[derive(Debug, Drop)]
pub(crate) struct Block {
    pub index: u64,
    pub at: u64,
}

impl Model for Block {
    ghost use Rattle.ufs_volume_defs.specs.Names.{Block};

    ghost Value = { Block };

    ghost view = { λ b. record { index = b.index; at = b.at } };
}

/// Where entries stand: a directory, and one of its blocks.
#[derive(Debug, Drop)]
pub(crate) struct Place<'a> {
    pub directory: &'a Name,
    pub block: &'a Block,
}

/// The name that an entry in a block of a directory gives an inode.
fn name_by(
    alloc: Global,
    sup: &Super,
    place: &Place<'_>,
    entry: &Entry<'_>,
    inode: Inode,
) -> Result<Name, ReadFault>
    requires sound { wrong_field sup.now ≡ None }
    requires path { IsPath place.now.directory.now.path }
    requires of { IsInodeOf sup.now entry.now.inode inode }
    requires offset { place.now.block.now.index * superblock_spec.block_size sup.now + entry.now.at < 2 ^ 64 }
    ensures limited { Answers result (limited_name (names_spec.name_by sup.now place.now.directory.now place.now.block.now entry.now inode)) }
    ensures named { IfOk result (IsNamed sup.now) }
    ensures calm { result ≢ Err ReadFault.Device }
{
    let directory = place.directory;
    let block = place.block;
    let path = path_of(alloc, &directory.path, entry.name)?;
    Ok(Name {
        number: entry.inode,
        inode: KeptInode::of(alloc, &inode)?,
        path,
        directory: directory.number,
        offset: block.index * block_size(sup) + entry.at as u64,
    })
}

/// Whether an inode of a number is a directory that has a name.
fn is_known_directory(walk: &Walk, number: u32, inode: &Inode) -> bool
    ensures { result ≡ (inode_spec.is_directory inode.now && is_known number walk.now.names) }
{
    is_directory(inode) && walk.knows(number)
}

/// The names with that of an inode that an entry names: a directory has no other name.
fn found_name(
    alloc: Global,
    sup: &Super,
    place: &Place<'_>,
    walk: Walk,
    entry: &Entry<'_>,
    inode: Inode,
) -> Result<Walk, ReadFault>
    requires sound { wrong_field sup.now ≡ None }
    requires path { IsPath place.now.directory.now.path }
    requires of { IsInodeOf sup.now entry.now.inode inode }
    requires walked { IsWalked sup.now walk }
    requires offset { place.now.block.now.index * superblock_spec.block_size sup.now + entry.now.at < 2 ^ 64 }
    requires place { place.now.block.now.at + entry.now.at < 2 ^ 64 }
    ensures settles { Settles result (names_spec.found_name sup.now place.now.directory.now place.now.block.now walk entry.now inode) }
    ensures walked { IfOk result (IsWalked sup.now) }
    ensures calm { result ≢ Err ReadFault.Device }
{
    let block = place.block;
    if is_known_directory(&walk, entry.inode, &inode) {
        return Err(ReadFault::Damaged(Sort::DirTwice, block.at + entry.at as u64));
    }
    let name = name_by(alloc, sup, place, entry, inode)?;
    walk.counted_name(name)
}

/// The name that an entry gives.
pub(crate) fn entry_name<S: Store>(
    alloc: Global,
    store: &mut S,
    sup: &Super,
    place: &Place<'_>,
    walk: Walk,
    entry: &Entry<'_>,
    seen: &mut Seen,
) -> Result<Walk, ReadFault>
    requires sound { wrong_field sup.now ≡ None }
    requires inside { sup.now.at + sup.now.len ≤ size_of Image (S.state store.old) }
    requires path { IsPath place.now.directory.now.path }
    requires walked { IsWalked sup.now walk }
    requires offset { place.now.block.now.index * superblock_spec.block_size sup.now + entry.now.at < 2 ^ 64 }
    requires place { place.now.block.now.at + entry.now.at < 2 ^ 64 }
    requires inodes { IsBlockOf (told_image (S.state store.old)) seen.old.inodes }
    ensures reads { ReadsAs (told_image (S.state store.old)) (names_spec.entry_name sup.now place.now.directory.now place.now.block.now walk entry.now) seen.old.looked.items seen.new.looked.items result }
    ensures walked { IfOk result (IsWalked sup.now) }
    ensures kept { OnOk result (KeptWithin (sup.now.at + sup.now.len) seen.old.looked.items seen.new.looked.items) }
    ensures inodes { OnOk result (IsBlockOf (told_image (S.state store.new)) seen.new.inodes) }
    ensures same { S.state store.new ≡ S.state store.old }
    ensures counted { IsReadCounted Image result (S.faults store.old) (S.faults store.new) }
{
    let block = place.block;
    let at = block.at + entry.at as u64;
    let inode = look_at_inode(
        store,
        sup,
        entry.inode,
        at,
        &mut seen.inodes,
        &mut seen.looked,
    )?;
    found_name(alloc, sup, place, walk, entry, inode)
}
