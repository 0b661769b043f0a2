//! The reads of the superblock.
ghost use Rattle.std.specs.Prelude.{◌≡◌, ◌≢◌, Err, None, ◌+◌, ◌≤◌, true, [], ◌∷◌, ◌++◌, length, IfOk, IfSome, OnOk};
ghost use Rattle.bytes_defs.specs.Bytes.{part};
ghost use Rattle.bytes_defs.specs.declared.order.Order.TheVariants.{Little};
ghost use Rattle.disk_defs.specs.Count.{IsCountedIn};
ghost use Rattle.disk_defs.specs.Disk.{size_of, told_image};
ghost use Rattle.disk_defs.specs.declared.Area.TheVariants.{Image};
ghost use Rattle.image_defs.specs.Ask.{result_of};
ghost use Rattle.image_reads.specs.Steps.{KeptWithin, ReadsAs};
ghost use Rattle.rx_store.specs.Answers.{Answers};
ghost use Rattle.rx_store.specs.ReadFaults.{IsReadCounted};
ghost use Rattle.ufs_inode_defs.specs.Layout.{layout_of};
ghost use Rattle.ufs_inode_defs.specs.Superblock as superblock_spec;
ghost use Rattle.ufs_inode_defs.specs.Superblock.{super_place, checked_super, super_in, volume_super};
ghost use Rattle.ufs_super.specs.Looks.{super_looks};
ghost use Rattle.ufs_super.specs.Magic as magic_spec;

use crate::fields::{super_from, wrong_field};
use bytes_defs::Order::Little;
use bytes_defs::u32_at;
use range_defs::Range;
use rx_store::{Area, Fault, NoMemory, ReadFault, Sort, Store};
use ufs_inode_defs::Super;

/// The place of the superblock of a version in the volume: `SBLOCK_UFS1` and `SBLOCK_UFS2`.
fn superblock_at(version: u8) -> u64
    ensures { result ≡ (layout_of version).superblock_at }
{
    if version == 1 { 8192 } else { 65_536 }
}

/// The magic of a version: `FS_UFS1_MAGIC` and `FS_UFS2_MAGIC`.
fn magic_of(version: u8) -> u32
    ensures { result ≡ (layout_of version).magic }
{
    if version == 1 {
        0x0001_1954
    } else {
        0x1954_0119
    }
}

/// The bytes of the image from a place on, a fixed number of them.
pub fn read_bytes<const N: usize, S: Store>(store: &mut S, at: u64) -> Result<[u8; N], Fault>
    requires { at + N ≤ size_of Image (S.state store.old) }
    ensures bytes { IfOk result (λ bytes. IfSome (told_image (S.state store.old)) (λ image. bytes ≡ part image at N)) }
    ensures len { IfOk result (λ bytes. length bytes ≡ N) }
    ensures same { S.state store.new ≡ S.state store.old }
    ensures counted { IsCountedIn Image result (S.faults store.old) (S.faults store.new) }
{
    let mut bytes = [0; N];
    store.read_at(Area::Image, at, &mut bytes)?;
    Ok(bytes)
}

/// Whether the volume of `len` bytes at `at` has the magic of a version.
fn has_magic<S: Store>(store: &mut S, at: u64, len: u64, version: u8) -> Result<bool, Fault>
    requires inside { at + len ≤ size_of Image (S.state store.old) }
    ensures told { IfOk result (λ has. IfSome (told_image (S.state store.old)) (λ image. has ≡ magic_spec.has_magic image at len version)) }
    ensures whole { IfOk result (λ has. has ≡ true → (layout_of version).superblock_at + 1376 ≤ len) }
    ensures same { S.state store.new ≡ S.state store.old }
    ensures counted { IsCountedIn Image result (S.faults store.old) (S.faults store.new) }
{
    let place = superblock_at(version) + 1372;
    if len < place + 4 {
        return Ok(false);
    }
    let bytes = read_bytes::<4, S>(store, at + place)?;
    Ok(u32_at(Little, &bytes, 0) == magic_of(version))
}

/// A superblock, where no field of it is wrong.
fn checked(sup: Super) -> Result<Super, ReadFault>
    requires ends { super_place sup + 1376 ≤ 18446744073709551615 }
    ensures answer { Answers result (checked_super sup (superblock_spec.wrong_field sup)) }
    ensures is { IfOk result (λ found. found ≡ sup) }
    ensures sound { IfOk result (λ found. superblock_spec.wrong_field found ≡ None) }
    ensures calm { result ≢ Err ReadFault.Device }
    ensures lean { result ≢ Err ReadFault.NoMemory }
{
    match wrong_field(&sup) {
        None => Ok(sup),
        Some(place) => Err(ReadFault::Damaged(
            Sort::SuperField,
            sup.at + superblock_at(sup.version) + place,
        )),
    }
}

/// The superblock of a version in the volume of `len` bytes at `at`.
fn read_fields<S: Store>(store: &mut S, at: u64, len: u64, version: u8) -> Result<Super, ReadFault>
    requires inside { at + len ≤ size_of Image (S.state store.old) }
    requires whole { (layout_of version).superblock_at + 1376 ≤ len }
    ensures told { IfSome (told_image (S.state store.old)) (λ image. Answers result (result_of image (super_in (record { at = at; len = len }) version Little))) }
    ensures sound { IfOk result (λ sup. superblock_spec.wrong_field sup ≡ None) }
    ensures begins { IfOk result (λ sup. sup.at ≡ at) }
    ensures long { IfOk result (λ sup. sup.len ≡ len) }
    ensures version { IfOk result (λ sup. sup.version ≡ version) }
    ensures lean { result ≢ Err ReadFault.NoMemory }
    ensures same { S.state store.new ≡ S.state store.old }
    ensures counted { IsReadCounted Image result (S.faults store.old) (S.faults store.new) }
{
    let bytes = read_bytes::<1376, S>(store, at + superblock_at(version))?;
    checked(super_from(at, len, version, Little, &bytes))
}

/// The superblock of the volume of `len` bytes at `at`, whose numbers have the lowest byte first.
pub fn read_super<S: Store>(store: &mut S, at: u64, len: u64) -> Result<Super, ReadFault>
    requires inside { at + len ≤ size_of Image (S.state store.old) }
    ensures told { IfSome (told_image (S.state store.old)) (λ image. Answers result (result_of image (volume_super (Little ∷ []) (record { at = at; len = len })))) }
    ensures sound { IfOk result (λ sup. superblock_spec.wrong_field sup ≡ None) }
    ensures begins { IfOk result (λ sup. sup.at ≡ at) }
    ensures long { IfOk result (λ sup. sup.len ≡ len) }
    ensures whole { IfOk result (λ sup. (layout_of sup.version).superblock_at + 1376 ≤ len) }
    ensures lean { result ≢ Err ReadFault.NoMemory }
    ensures same { S.state store.new ≡ S.state store.old }
    ensures counted { IsReadCounted Image result (S.faults store.old) (S.faults store.new) }
{
    if has_magic(store, at, len, 1)? {
        return read_fields(store, at, len, 1);
    }
    if has_magic(store, at, len, 2)? {
        return read_fields(store, at, len, 2);
    }
    Err(ReadFault::NotThis)
}

/// A range.
fn range(at: u64, len: u64) -> Range
    ensures { result ≡ record { at = at; len = len } }
{
    Range { at, len }
}

/// Keeps the ranges at which one looks for the superblock of a version in the volume at `at`.
fn keep_looks(at: u64, version: u8, looked: &mut Vec<Range>) -> Result<(), NoMemory>
    requires ends { at + (layout_of version).superblock_at + 1376 ≤ 18446744073709551615 }
    ensures kept { OnOk result (looked.new.items ≡ looked.old.items ++ super_looks at version) }
{
    looked.extend_from_slice(&[
        range(at + 3, 8),
        range(at + 510, 2),
        range(at + 1024, 4),
        range(at + 9564, 4),
    ])?;
    if version == 1 {
        looked.extend_from_slice(&[range(at + 8192, 1376)])
    } else {
        looked.extend_from_slice(&[range(at + 66_908, 4), range(at + 65_536, 1376)])
    }
}

/// The same as `read_super`, with the ranges at which one looks for the superblock kept.
pub fn look_for_super<S: Store>(
    store: &mut S,
    at: u64,
    len: u64,
    looked: &mut Vec<Range>,
) -> Result<Super, ReadFault>
    requires inside { at + len ≤ size_of Image (S.state store.old) }
    ensures reads { ReadsAs (told_image (S.state store.old)) (volume_super (Little ∷ []) (record { at = at; len = len })) looked.old.items looked.new.items result }
    ensures sound { IfOk result (λ sup. superblock_spec.wrong_field sup ≡ None) }
    ensures begins { IfOk result (λ sup. sup.at ≡ at) }
    ensures long { IfOk result (λ sup. sup.len ≡ len) }
    ensures whole { IfOk result (λ sup. (layout_of sup.version).superblock_at + 1376 ≤ len) }
    ensures within { OnOk result (KeptWithin (at + len) looked.old.items looked.new.items) }
    ensures same { S.state store.new ≡ S.state store.old }
    ensures counted { IsReadCounted Image result (S.faults store.old) (S.faults store.new) }
{
    let sup = read_super(store, at, len)?;
    keep_looks(at, sup.version, looked)?;
    Ok(sup)
}
