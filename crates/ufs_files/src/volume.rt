//! A volume and its tree.
ghost use Rattle.std.specs.Prelude.{◌≡◌, ◌+◌, ◌≤◌, IfOk, IfSome, OnOk, [], ◌∷◌};
ghost use Rattle.bytes_defs.specs.declared.order.Order.TheVariants.{Little};
ghost use Rattle.disk_defs.specs.Disk.{size_of, told_image};
ghost use Rattle.disk_defs.specs.declared.Area.TheVariants.{Image};
ghost use Rattle.image_reads.specs.Steps.{ReadsAs, KeptWithin};
ghost use Rattle.range_defs.specs.declared.TheConstants.{LONGEST_IMAGE};
ghost use Rattle.rx_store.specs.Answers.{Answers};
ghost use Rattle.rx_store.specs.ReadFaults.{IsReadCounted};
ghost use Rattle.ufs_volume_defs.specs.Volume.{volume_at, volume_tree};
ghost use Rattle.ufs_files.specs.Filed.{AreFilesOf};
ghost use Rattle.ufs_files.specs.Guarded.{RestsOnGuard};

use crate::second::read_files;
use crate::tree::tree_of;
use range_defs::{LONGEST_IMAGE, Range};
use rx_store::{Area, Bound, ReadFault, Store};
use rx_tree::{Files, Tree};
use std::alloc::Global;
use std::marker::Model;
use ufs_inode_defs::Super;
use ufs_names::read_names;
use ufs_super::{look_for_super, read_super};

/// What was found of a volume: its superblock, and its files by rising number.
#[derive(Debug, Drop)]
struct FoundVolume {
    superblock: Super,
    files: Files,
}

impl Model for FoundVolume {
    ghost use Rattle.ufs_volume_defs.specs.Volume.{FoundVolume};

    ghost Value = { FoundVolume };

    ghost view = { λ f. record { superblock = f.superblock; files = f.files } };
}

/// The volume of `len` bytes from byte `at` on, in an image of `size` bytes; the ranges at which one looks for it are kept.
fn read_volume<S: Store>(
    alloc: Global,
    store: &mut S,
    size: u64,
    at: u64,
    len: u64,
    number: u32,
    looked: &mut Vec<Range>,
) -> Result<FoundVolume, ReadFault>
    requires sized { size ≡ size_of Image (S.state store.old) }
    requires inside { at + len ≤ size }
    requires near { size ≤ LONGEST_IMAGE }
    ensures reads { ReadsAs (told_image (S.state store.old)) (volume_at (Little ∷ []) size (record { at = at; len = len }) number) looked.old.items looked.new.items result }
    ensures begins { IfOk result (λ found. found.superblock.at ≡ at) }
    ensures long { IfOk result (λ found. found.superblock.len ≡ len) }
    ensures files { IfOk result (λ found. AreFilesOf found.superblock number found.files) }
    ensures kept_within { OnOk result (KeptWithin (at + len) looked.old.items looked.new.items) }
    ensures same { S.state store.new ≡ S.state store.old }
    ensures counted { IsReadCounted Image result (S.faults store.old) (S.faults store.new) }
{
    let superblock = look_for_super(store, at, len, looked)?;
    let walk = read_names(alloc, store, &superblock, looked)?;
    let filed = read_files(alloc, store, &superblock, number, walk.into_names(), looked)?;
    Ok(FoundVolume {
        superblock,
        files: Files::from_vec(filed.files),
    })
}

/// The tree of the UFS volume of `len` bytes from byte `at` on, which has a number among the volumes of the image. It rests on the
/// bytes of its guard alone: an image of the same length with the same bytes there has the same tree.
pub fn read_ufs<S: Store>(
    alloc: Global,
    store: &mut S,
    at: u64,
    len: u64,
    volume: u32,
) -> Result<Tree, ReadFault>
    requires { at + len ≤ size_of Image (S.state store.old) }
    ensures told { IfSome (told_image (S.state store.old)) (λ image. Answers result (volume_tree (Little ∷ []) image (record { at = at; len = len }) volume)) }
    ensures rests { IfOk result (λ tree. IfSome (told_image (S.state store.old)) (RestsOnGuard (record { at = at; len = len }) volume tree)) }
    ensures sized { IfOk result (λ tree. tree.image_len ≡ size_of Image (S.state store.old)) }
    ensures same { S.state store.new ≡ S.state store.old }
    ensures counted { IsReadCounted Image result (S.faults store.old) (S.faults store.new) }
{
    let size = store.len(Area::Image)?;
    if size > LONGEST_IMAGE {
        read_super(store, at, len)?;
        return Err(ReadFault::Limit(Bound::Image, LONGEST_IMAGE));
    }
    let mut looked = Vec::new(alloc);
    let FoundVolume { superblock, files } = read_volume(
        alloc,
        store,
        size,
        at,
        len,
        volume,
        &mut looked,
    )?;
    Ok(tree_of(alloc, size, &superblock, volume, files, looked)?)
}
