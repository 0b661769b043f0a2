//! Inodes of a UFS1 and of a UFS2, at places worked out by the macros, and a device that fails.
use crate::ufs_volumes::{ufs1, ufs2};
use range_defs::Range;
use rx_store::{MemStore, ReadFault, Sort, What};
use std::test::Fail;
use ufs_inode::{InodeBlock, look_at_inode, read_inode};
use ufs_super::read_super;

#[test]
fn the_fields_are_those_of_the_inode(rt: HostRuntime) -> Result<(), Fail> {
    let mut store = MemStore::of_image(rt.alloc(), &ufs1())?;
    let sup = read_super(&mut store, 0, 49_664)?;
    let mut looked = Vec::new(rt.alloc());
    let mut block = InodeBlock::new(rt.alloc())?;
    let root = look_at_inode(&mut store, &sup, 2, 65_536, &mut block, &mut looked)?;
    assert_eq!(rt; (root.mode, root.size), (0o040_755, 512));
    assert_eq!(rt; (root.direct[0], root.direct[1]), (40, -1));
    let kept = [Range {
        at: 12_544,
        len: 128,
    }];
    assert_eq!(rt; looked.as_slice(), kept.as_slice());
    Ok(())
}

#[test]
fn what_is_wrong_is_told_with_its_place(rt: HostRuntime) -> Result<(), Fail> {
    let mut store = MemStore::of_image(rt.alloc(), &ufs1())?;
    let sup = read_super(&mut store, 0, 49_664)?;
    assert_eq!(rt;
        [
            read_inode(&mut store, &sup, 5, 7).err(),
            read_inode(&mut store, &sup, 34, 7).err(),
            read_inode(&mut store, &sup, 64, 7).err()
        ],
        [
            Some(ReadFault::Damaged(Sort::DeadInode, 12_928)),
            Some(ReadFault::Unsupported(What::Snapshot, 49_508)),
            Some(ReadFault::Damaged(Sort::InodeNumber, 7))
        ]
    );
    Ok(())
}

#[test]
fn a_block_of_the_table_is_read_once(rt: HostRuntime) -> Result<(), Fail> {
    let mut store = MemStore::of_image(rt.alloc(), &ufs1())?;
    let sup = read_super(&mut store, 0, 49_664)?;
    store.fail_at(vec![in rt.alloc(); 4]?);
    let mut looked = Vec::new(rt.alloc());
    let mut block = InodeBlock::new(rt.alloc())?;
    assert_eq!(rt;
        [
            look_at_inode(&mut store, &sup, 2, 7, &mut block, &mut looked).err(),
            look_at_inode(&mut store, &sup, 3, 7, &mut block, &mut looked).err(),
            look_at_inode(&mut store, &sup, 34, 7, &mut block, &mut looked).err(),
            look_at_inode(&mut store, &sup, 34, 7, &mut block, &mut looked).err()
        ],
        [
            None,
            None,
            Some(ReadFault::Device),
            Some(ReadFault::Unsupported(What::Snapshot, 49_508))
        ]
    );
    Ok(())
}

#[test]
fn a_device_that_fails_is_told(rt: HostRuntime) -> Result<(), Fail> {
    let mut store = MemStore::of_image(rt.alloc(), &ufs1())?;
    store.fail_at(vec![in rt.alloc(); 3]?);
    let sup = read_super(&mut store, 0, 49_664)?;
    assert_eq!(rt;
        read_inode(&mut store, &sup, 2, 7).err(),
        Some(ReadFault::Device)
    );
    assert_eq!(rt; store.faults(), 1);
    assert!(rt; read_inode(&mut store, &sup, 2, 7).is_ok());
    Ok(())
}

#[test]
fn the_fields_are_those_of_a_ufs2_inode(rt: HostRuntime) -> Result<(), Fail> {
    let mut store = MemStore::of_image(rt.alloc(), &ufs2())?;
    let sup = read_super(&mut store, 0, 196_608)?;
    let inode = read_inode(&mut store, &sup, 3, 7)?;
    assert_eq!(rt;
        (inode.mode, inode.uid, inode.size),
        (0o100_644, 3, 393_217)
    );
    assert_eq!(rt;
        (inode.birth, inode.direct[11], inode.indirect[0]),
        (6, 24, 32)
    );
    Ok(())
}
