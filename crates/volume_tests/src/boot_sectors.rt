//! Boot sectors that are worked out by hand.
use crate::bytes::{Written, put, with};
use ntfs_boot::read_boot;
use ntfs_volume_defs::Boot;
use rx_store::{MemStore, ReadFault, Sort, What};
use std::alloc::{AllocError, Global};
use std::test::Fail;

/// A boot sector at byte 512 of an image of 8,192 bytes: 15 sectors of 512 bytes, one in each cluster, `$MFT` at cluster
/// 1, and records of 2^10 bytes.
const IMAGE: &[Written] = &[
    (512 + 3, b"NTFS    "),
    (512 + 0x0C, &[2, 1]),
    (512 + 0x28, &[15]),
    (512 + 0x30, &[1]),
    (512 + 0x40, &[0xF6]),
    (512 + 510, &[0x55, 0xAA]),
];

/// What is read of the volume behind the first 512 bytes, where one byte of its boot sector is another.
fn read_with(alloc: Global, place: u16, byte: u8) -> Result<Result<Boot, ReadFault>, AllocError> {
    let mut image: [u8; 8192] = with(IMAGE);
    put(&mut image, 512 + usize::from(place), &[byte]);
    let mut store = MemStore::of_image(alloc, &image)?;
    Ok(read_boot(&mut store, 512, 7680))
}

#[test]
fn geometry(rt: HostRuntime) -> Result<(), Fail> {
    let boot = read_with(rt.alloc(), 0x0D, 1)?;
    assert_eq!(rt;
        boot,
        Ok(Boot {
            at: 512,
            len: 7680,
            cluster: 512,
            clusters: 15,
            mft_cluster: 1,
            record_size: 1024
        })
    );
    let two = read_with(rt.alloc(), 0x40, 2)?;
    assert_eq!(rt; two.map(|boot| boot.record_size), Ok(1024));
    Ok(())
}

/// Bytes of the boot sector, and what is refused where they are others.
const REFUSED: [(u16, u8, ReadFault); 8] = [
    (6, b'T', ReadFault::NotThis),
    (510, 0, ReadFault::NotThis),
    (
        0x0C,
        3,
        ReadFault::Unsupported(What::BootGeometry, 512 + 0x0B),
    ),
    (
        0x0D,
        3,
        ReadFault::Unsupported(What::BootGeometry, 512 + 0x0D),
    ),
    (
        0x40,
        0xF5,
        ReadFault::Unsupported(What::BootGeometry, 512 + 0x40),
    ),
    (0x28, 16, ReadFault::Damaged(Sort::BootField, 512 + 0x28)),
    (0x28, 0, ReadFault::Damaged(Sort::BootField, 512 + 0x28)),
    (0x30, 15, ReadFault::Damaged(Sort::BootField, 512 + 0x30)),
];

#[test]
fn refused(rt: HostRuntime) -> Result<(), Fail> {
    for (place, byte, fault) in REFUSED {
        assert_eq!(rt; read_with(rt.alloc(), place, byte)?, Err(fault), "{place}");
    }
    Ok(())
}
