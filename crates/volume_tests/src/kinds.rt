//! Images of another kind, and a device that fails at each call that asks for it.
use crate::bytes::{Written, with};
use image_reader::{ImageFault, read_image};
use rx_store::{MemStore, ReadFault};
use std::test::Fail;

/// Images of 2,048 bytes, and whether they are of another kind: NTFS has two magics, HFS+ one of two.
const IMAGES: &[(&[Written], bool)] = &[
    (&[(3, b"NTFS    "), (510, b"\x55\xAA")], true),
    (&[(3, b"NTFS    ")], false),
    (&[(1024, b"H+\x00\x04")], true),
    (&[(1024, b"HX\x00\x05")], true),
    (&[(1024, b"H+\x00\x05")], false),
    (&[(1024, b"HX\x00\x04")], false),
];

#[test]
fn magics_tell_the_kind(rt: HostRuntime) -> Result<(), Fail> {
    for (table, other) in IMAGES {
        let image: [u8; 2048] = with(*table);
        let mut store = MemStore::of_image(rt.alloc(), &image)?;
        let found = read_image(rt.alloc(), &mut store).err();
        assert_eq!(rt; found == Some(ImageFault::OtherKind), *other);
    }
    Ok(())
}

#[test]
fn each_call_that_fails_is_a_fault_of_the_device(rt: HostRuntime) -> Result<(), Fail> {
    let image: [u8; 2048] = with(&[(1024, b"H+\x00\x04")]);
    for call in 1..=4 {
        let mut store = MemStore::of_image(rt.alloc(), &image)?;
        store.fail_at(vec![in rt.alloc(); call]?);
        assert_eq!(rt;
            read_image(rt.alloc(), &mut store).err(),
            Some(ImageFault::Read(ReadFault::Device)),
            "call {call}"
        );
    }
    Ok(())
}
