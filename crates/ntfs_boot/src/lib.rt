//! The boot sector of an NTFS volume.
//!
//! It has 512 bytes (the public PACKED_BOOT_SECTOR): `NTFS` and four blanks at 3, the bytes of a sector at 0x0B, the sectors of a
//! cluster at 0x0D, all sectors at 0x28, the first cluster of `$MFT` at 0x30, and the size of a file record at 0x40, where a
//! negative number is a power of two. `read_boot` answers its fields, or NotThis, Unsupported(BootGeometry) or
//! Damaged(BootField) at the field. It takes no memory.
//!
//!     let boot = read_boot(&mut store, 0, len)?;
//!     boot.cluster        // the bytes of a cluster
#![tactic(auto)]

pub(crate) mod sector;

ghost use Rattle.std.specs.Prelude.{◌≡◌, ◌+◌, ◌≤◌, length, IfOk, IfErr, IfSome};
ghost use Rattle.disk_defs.specs.Count.{IsCountedIn};
ghost use Rattle.disk_defs.specs.Disk.{size_of, told_image};
ghost use Rattle.disk_defs.specs.declared.Area.TheVariants.{Image};
ghost use Rattle.bytes_defs.specs.Bytes.{part};
ghost use Rattle.image_defs.specs.Ask.{result_of};
ghost use Rattle.rx_store.specs.Answers.{Answers};
ghost use Rattle.rx_store.specs.ReadFaults.{IsReadCounted};
ghost use Rattle.ntfs_volume_defs.specs.Boot.{boot_at};
ghost use Rattle.ntfs_boot.specs.Sector.{IsSoundBoot, IsBootRefusal};

use crate::sector::boot_from;
use ntfs_volume_defs::Boot;
use rx_store::{Area, Fault, ReadFault, Store};

/// The bytes of the sector at a place of the image.
fn read_sector<S: Store>(store: &mut S, at: u64) -> Result<[u8; 512], Fault>
    requires { at + 512 ≤ size_of Image (S.state store.old) }
    ensures bytes { IfOk result (λ bytes. IfSome (told_image (S.state store.old)) (λ image. bytes ≡ part image at 512)) }
    ensures len { IfOk result (λ bytes. length bytes ≡ 512) }
    ensures same { S.state store.new ≡ S.state store.old }
    ensures counted { IsCountedIn Image result (S.faults store.old) (S.faults store.new) }
{
    let mut bytes = [0; 512];
    match store.read_at(Area::Image, at, &mut bytes) {
        Ok(()) => Ok(bytes),
        Err(fault) => Err(fault),
    }
}

/// The geometry of the volume whose `len` bytes stand from byte `at` of the image on.
pub fn read_boot<S: Store>(store: &mut S, at: u64, len: u64) -> Result<Boot, ReadFault>
    requires { at + len ≤ size_of Image (S.state store.old) }
    ensures told { IfSome (told_image (S.state store.old)) (λ image. Answers result (result_of image (boot_at at len))) }
    ensures sound { IfOk result (λ boot. IsSoundBoot at len boot) }
    ensures refusals { IfErr result (λ fault. IsBootRefusal fault) }
    ensures same { S.state store.new ≡ S.state store.old }
    ensures counted { IsReadCounted Image result (S.faults store.old) (S.faults store.new) }
{
    if len < 512 {
        return Err(ReadFault::NotThis);
    }
    match read_sector(store, at) {
        Ok(bytes) => match boot_from(at, len, &bytes) {
            Ok(boot) => Ok(boot),
            Err(refusal) => Err(ReadFault::from(refusal)),
        },
        Err(_) => Err(ReadFault::Device),
    }
}
