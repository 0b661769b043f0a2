//! The superblock of a UFS1, and a device that fails at each call.
use crate::bytes::put;
use crate::ufs_volumes::ufs1;
use range_defs::Range;
use rx_store::{MemStore, ReadFault, Sort};
use std::test::Fail;
use ufs_super::{look_for_super, read_super, stated_block_size};

#[test]
fn the_fields_are_those_of_the_superblock(rt: HostRuntime) -> Result<(), Fail> {
    let mut store = MemStore::of_image(rt.alloc(), &ufs1())?;
    let sup = read_super(&mut store, 0, 49_664)?;
    assert_eq!(rt; stated_block_size(&sup), 4096);
    assert_eq!(rt; (sup.ncg, sup.ipg, sup.fpg), (2, 32, 64));
    assert_eq!(rt; (sup.nindir, sup.inopb), (1024, 32));
    assert_eq!(rt; sup.version, 1);
    let short = read_super(&mut store, 0, 9567);
    let late = read_super(&mut store, 1, 9567);
    assert_eq!(rt;
        (short.err(), late.err()),
        (Some(ReadFault::NotThis), Some(ReadFault::NotThis))
    );
    Ok(())
}

#[test]
fn a_group_without_inodes_is_damage(rt: HostRuntime) -> Result<(), Fail> {
    let mut bytes = ufs1();
    put(&mut bytes, 8376, &[0]);
    let mut store = MemStore::of_image(rt.alloc(), &bytes)?;
    assert_eq!(rt;
        read_super(&mut store, 0, 9568).err(),
        Some(ReadFault::Damaged(Sort::SuperField, 8376))
    );
    Ok(())
}

#[test]
fn the_probes_and_the_superblock_are_kept(rt: HostRuntime) -> Result<(), Fail> {
    let mut store = MemStore::of_image(rt.alloc(), &ufs1())?;
    let mut looked = Vec::new(rt.alloc());
    look_for_super(&mut store, 0, 9568, &mut looked)?;
    let kept = [
        Range { at: 3, len: 8 },
        Range { at: 510, len: 2 },
        Range { at: 1024, len: 4 },
        Range { at: 9564, len: 4 },
        Range {
            at: 8192,
            len: 1376,
        },
    ];
    assert_eq!(rt; looked.as_slice(), kept.as_slice());
    Ok(())
}

#[test]
fn a_device_that_fails_is_told(rt: HostRuntime) -> Result<(), Fail> {
    for call in 1..3 {
        let mut store = MemStore::of_image(rt.alloc(), &ufs1())?;
        store.fail_at(vec![in rt.alloc(); call]?);
        assert_eq!(rt;
            read_super(&mut store, 0, 9568).err(),
            Some(ReadFault::Device)
        );
        assert_eq!(rt; store.faults(), 1);
        assert!(rt; read_super(&mut store, 0, 9568).is_ok());
    }
    Ok(())
}
