//! Files, made from their inodes, names and parts.
ghost use Rattle.std.specs.Prelude.{◌≡◌, All, IfOk};
ghost use Rattle.order_defs.specs.Sorted.{sorted_names};
ghost use Rattle.rx_ranges.specs.Path.{IsPath};
ghost use Rattle.rx_tree.specs.PartOrder.{ArePartsSorted};
ghost use Rattle.ufs_volume_defs.specs.Files as spec;
ghost use Rattle.ufs_volume_defs.specs.Files.{file_of};

use crate::group::Group;
use rx_ranges::{NoMemory, Text};
use rx_time::Moment;
use rx_tree::{FileEntry, FileId, Kind, Names, Part, Parts, Times};
use ufs_inode_defs::{Inode, Super};

/// What a file is, by the bits IFMT of its mode.
fn kind_of(inode: &Inode) -> Kind
    ensures { result ≡ spec.kind_of inode.now }
{
    match inode.mode & 0xF000 {
        0x4000 => Kind::Dir,
        0x8000 => Kind::File,
        0xA000 => Kind::Link,
        _ => Kind::Other,
    }
}

/// The times of an inode. Only UFS2 says when it was made.
fn times_of(sup: &Super, inode: &Inode) -> Times
    ensures { result ≡ spec.times_of sup.now inode.now }
{
    let created = if sup.version == 2 {
        Some(Moment::from_unix(inode.birth))
    } else {
        None
    };
    Times {
        modified: Some(Moment::from_unix(inode.mtime)),
        changed: Some(Moment::from_unix(inode.ctime)),
        accessed: Some(Moment::from_unix(inode.atime)),
        created,
    }
}

/// The names of a file: its paths, sorted by their bytes.
fn names_of(mut paths: Vec<Text>) -> Names
    requires { All IsPath paths.items }
    ensures { result ≡ sorted_names paths.items }
{
    paths.sort_unstable_by(|a, b| a.as_str().cmp(b.as_str()));
    Names::from_vec(paths)
}

/// The file of a group of names in a volume, with these parts.
pub(crate) fn file_from(
    sup: &Super,
    volume: u32,
    group: Group,
    parts: Vec<Part>,
) -> Result<FileEntry, NoMemory>
    requires paths { All IsPath group.paths }
    requires sorted { ArePartsSorted parts.items }
    ensures { IfOk result (λ file. file ≡ file_of sup.now volume group.number group.inode group.paths parts.items) }
{
    let inode = group.inode.inode();
    Ok(FileEntry {
        id: FileId {
            volume,
            number: u64::from(group.number),
        },
        kind: kind_of(&inode),
        mode: Some(inode.mode),
        links: Some(inode.nlink),
        uid: Some(inode.uid),
        gid: Some(inode.gid),
        times: times_of(sup, &inode),
        names: names_of(group.paths.into_vec()?),
        parts: Parts::from_vec(parts),
    })
}
