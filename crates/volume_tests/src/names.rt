//! The names of a UFS1, and inodes that are kept.
use crate::bytes::put;
use crate::ufs_volumes::ufs1;
use range_defs::Range;
use rx_store::{MemStore, ReadFault, Sort};
use std::mem::size_of;
use std::test::Fail;
use ufs_inode_defs::Inode;
use ufs_names::{KeptInode, Name, read_names};
use ufs_super::read_super;

#[test]
fn names_come_breadth_first(rt: HostRuntime) -> Result<(), Fail> {
    let mut store = MemStore::of_image(rt.alloc(), &ufs1())?;
    let sup = read_super(&mut store, 0, 49_664)?;
    let mut looked = Vec::new(rt.alloc());
    let walk = read_names(rt.alloc(), &mut store, &sup, &mut looked)?;
    let paths = ["/", "/z", "/dir", "/dir/b"];
    assert_eq!(rt; walk.names.len(), 4);
    for (name, path) in walk.names.iter().zip(&paths) {
        assert_eq!(rt; name.path.as_str(), *path);
    }
    let last = &walk.names[3];
    assert_eq!(rt; (last.number, last.directory, last.offset), (3, 4, 0));
    assert_eq!(rt; walk.names[2].offset, 36);
    assert_eq!(rt; looked.len(), 5);
    assert_eq!(rt;
        looked[3],
        Range {
            at: 20_992,
            len: 512
        }
    );
    Ok(())
}

#[test]
fn the_root_has_no_other_name(rt: HostRuntime) -> Result<(), Fail> {
    let mut bytes = ufs1();
    put(&mut bytes, 20_992, &[2]);
    let mut store = MemStore::of_image(rt.alloc(), &bytes)?;
    let sup = read_super(&mut store, 0, 49_664)?;
    let mut looked = Vec::new(rt.alloc());
    let walk = read_names(rt.alloc(), &mut store, &sup, &mut looked);
    assert_eq!(rt;
        walk.err(),
        Some(ReadFault::Damaged(Sort::DirTwice, 20_992))
    );
    Ok(())
}

#[test]
fn a_read_that_fails_in_mid_walk_is_told(rt: HostRuntime) -> Result<(), Fail> {
    let mut store = MemStore::of_image(rt.alloc(), &ufs1())?;
    let sup = read_super(&mut store, 0, 49_664)?;
    store.fail_at(vec![in rt.alloc(); 5]?);
    let mut looked = Vec::new(rt.alloc());
    let walk = read_names(rt.alloc(), &mut store, &sup, &mut looked);
    assert_eq!(rt; walk.err(), Some(ReadFault::Device));
    Ok(())
}

/// An inode with one pointer to a block of its content, and one through three levels.
fn inode_with(first: i64, third: i64) -> Inode {
    Inode {
        at: 1,
        mode: 2,
        nlink: 3,
        uid: 4,
        gid: 5,
        size: 6,
        blocks: 7,
        atime: -8,
        mtime: -9,
        ctime: -10,
        birth: -11,
        flags: 12,
        extsize: 13,
        ext: [0, 0],
        direct: [first, 0, 0, 0, 0, 0, 0, 0, 0, 0, 0, 0],
        indirect: [0, 0, third],
    }
}

#[test]
fn a_kept_inode_is_given_back(rt: HostRuntime) -> Result<(), Fail> {
    for third in [0, 41] {
        let inode = inode_with(40, third);
        let kept = KeptInode::of(rt.alloc(), &inode)?;
        assert_eq!(rt; kept.inode(), inode);
    }
    assert_eq!(rt; size_of::<Name>(), 136);
    Ok(())
}
