//! The tree of a UFS1.
use crate::ufs_volumes::ufs1;
use range_defs::Range;
use rx_store::{MemStore, ReadFault};
use rx_time::Moment;
use rx_tree::{FileEntry, Kind};
use std::test::Fail;
use ufs_files::read_ufs;

/// The path of a file by its place among its paths.
fn path_of(file: &FileEntry, place: usize) -> Option<&str> {
    Some(file.names.items().get(place)?.as_str())
}

/// Where one looked: the probes, the superblock, the inodes 2 to 4, and the blocks of both directories.
const GUARD: [Range; 6] = [
    Range { at: 3, len: 8 },
    Range { at: 510, len: 2 },
    Range { at: 1024, len: 4 },
    Range {
        at: 8192,
        len: 1376,
    },
    Range {
        at: 12_544,
        len: 384,
    },
    Range {
        at: 20_480,
        len: 1024,
    },
];

#[test]
fn a_volume_is_read(rt: HostRuntime) -> Result<(), Fail> {
    let mut store = MemStore::of_image(rt.alloc(), &ufs1())?;
    let tree = read_ufs(rt.alloc(), &mut store, 0, 49_664, 7)?;
    assert_eq!(rt; tree.guard.items(), GUARD.as_slice());
    let files = tree.files.items();
    assert_eq!(rt; files.len(), 3);
    let (root, file, directory) = (&files[0], &files[1], &files[2]);
    assert_eq!(rt; (root.id.volume, root.id.number), (7, 2));
    assert_eq!(rt; (root.kind, path_of(root, 0)), (Kind::Dir, Some("/")));
    assert_eq!(rt; (file.id.number, file.kind), (3, Kind::File));
    assert_eq!(rt;
        (path_of(file, 0), path_of(file, 1)),
        (Some("/dir/b"), Some("/z"))
    );
    assert_eq!(rt; file.times.modified, Some(Moment::from_unix(1)));
    assert_eq!(rt; file.times.created, None);
    assert_eq!(rt; path_of(directory, 0), Some("/dir"));
    Ok(())
}

#[test]
fn no_volume_is_found(rt: HostRuntime) -> Result<(), Fail> {
    let mut store = MemStore::of_image(rt.alloc(), &ufs1())?;
    let found = read_ufs(rt.alloc(), &mut store, 1, 17_407, 0);
    assert_eq!(rt; found.err(), Some(ReadFault::NotThis));
    Ok(())
}
