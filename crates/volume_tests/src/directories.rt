//! Blocks of a directory, after sys/ufs/ufs/dir.h.
use crate::bytes::{Written, put, with};
use bytes_defs::Order;
use rx_store::{ReadFault, Sort};
use std::test::Fail;
use ufs_directory::leading_entries;

/// `.` and `..`, each of 12 bytes, and then the file "a" of inode 3, whose record takes the other 488.
const BLOCK: &[Written] = &[
    (0, &[2, 0, 0, 0, 12, 0, 4, 1, b'.']),
    (12, &[2, 0, 0, 0, 12, 0, 4, 2, b'.', b'.']),
    (24, &[3, 0, 0, 0, 0xE8, 1, 8, 1, b'a']),
];

#[test]
fn the_file_leads_on_and_the_dots_do_not(rt: HostRuntime) -> Result<(), Fail> {
    let bytes: [u8; 512] = with(BLOCK);
    let found = leading_entries(rt.alloc(), Order::Little, 8_192, &bytes)?;
    assert_eq!(rt; found.items().len(), 1);
    let first = &found.items()[0];
    assert_eq!(rt; (first.at, first.inode, first.len), (24, 3, 488));
    assert!(rt; first.name == b"a".as_slice());
    Ok(())
}

#[test]
fn the_highest_byte_may_come_first(rt: HostRuntime) -> Result<(), Fail> {
    let bytes: [u8; 512] = with(&[(3, &[9, 2, 0, 0, 2, b'b', b'c'])]);
    let found = leading_entries(rt.alloc(), Order::Big, 0, &bytes)?;
    assert_eq!(rt; found.items().len(), 1);
    let first = &found.items()[0];
    assert_eq!(rt; (first.at, first.inode, first.len), (0, 9, 512));
    assert!(rt; first.name == b"bc".as_slice());
    Ok(())
}

#[test]
fn a_record_that_passes_its_512_bytes_is_damage(rt: HostRuntime) {
    let mut bytes: [u8; 512] = with(BLOCK);
    put(&mut bytes, 28, &[0xEC]);
    let found = leading_entries(rt.alloc(), Order::Little, 8_192, &bytes);
    assert!(rt; matches!(found, Err(ReadFault::Damaged(Sort::DirEntry, 8_216))));
}
