//! A header of HFS+, and a device that fails at each call.
use crate::bytes::{Written, put, with};
use hfs_defs::Extent;
use hfs_header::read_header;
use rx_store::{MemStore, ReadFault, Sort};
use std::test::Fail;

/// A volume of eight blocks of 512 bytes, whose catalog has 1,000 bytes in blocks 3 and 4.
const VOLUME: &[Written] = &[
    (1024, b"H+\x00\x04"),
    (1066, &[2, 0, 0, 0, 0, 8]),
    (1302, &[3, 232]),
    (1311, &[2, 0, 0, 0, 3, 0, 0, 0, 2]),
];

#[test]
fn the_fields_are_those_of_the_header(rt: HostRuntime) -> Result<(), Fail> {
    let bytes: [u8; 4096] = with(VOLUME);
    let mut store = MemStore::of_image(rt.alloc(), &bytes)?;
    let header = read_header(&mut store, 0, 4096)?;
    assert_eq!(rt; (header.signature, header.version), (0x482B, 4));
    assert_eq!(rt; (header.block_size, header.total_blocks), (512, 8));
    assert_eq!(rt; header.catalog.logical_size, 1000);
    assert_eq!(rt; header.catalog.extents[0], Extent { start: 3, count: 2 });
    Ok(())
}

#[test]
fn a_block_more_passes_the_volume(rt: HostRuntime) -> Result<(), Fail> {
    let mut bytes: [u8; 4096] = with(VOLUME);
    put(&mut bytes, 1071, &[9]);
    let mut store = MemStore::of_image(rt.alloc(), &bytes)?;
    assert_eq!(rt;
        [
            read_header(&mut store, 0, 4096).err(),
            read_header(&mut store, 0, 2559).err(),
            read_header(&mut store, 1, 4000).err()
        ],
        [
            Some(ReadFault::Damaged(Sort::HeaderField, 1068)),
            Some(ReadFault::Damaged(Sort::HeaderField, 1024)),
            Some(ReadFault::NotThis)
        ]
    );
    Ok(())
}

#[test]
fn a_device_that_fails_is_told(rt: HostRuntime) -> Result<(), Fail> {
    let bytes: [u8; 4096] = with(VOLUME);
    for call in 1..3 {
        let mut store = MemStore::of_image(rt.alloc(), &bytes)?;
        store.fail_at(vec![in rt.alloc(); call]?);
        assert_eq!(rt;
            read_header(&mut store, 0, 4096).err(),
            Some(ReadFault::Device)
        );
        assert_eq!(rt; store.faults(), 1);
        assert!(rt; read_header(&mut store, 0, 4096).is_ok());
    }
    Ok(())
}
