//! The tree of a volume.
ghost use Rattle.std.specs.Prelude.{◌≡◌, ◌+◌, ◌≤◌, true, IfOk, [], ◌∷◌, All};
ghost use Rattle.range_defs.specs.Places.{covers, longest_ranges};
ghost use Rattle.range_defs.specs.declared.TheConstants.{LONGEST_IMAGE};
ghost use Rattle.rx_tree.specs.Within.{AreRangesWithin, AreFilesWithin};
ghost use Rattle.rx_tree.specs.NameLimits.{has_few_names};
ghost use Rattle.ufs_volume_defs.specs.Volume as spec;
ghost use Rattle.ufs_volume_defs.specs.Volume.{kind_of_version};

use range_defs::Range;
use rx_ranges::{NoMemory, RangeList};
use rx_tree::{Files, FsKind, Tree, Volume, Volumes};
use std::alloc::Global;
use ufs_inode_defs::Super;

/// The file system of a version.
fn kind_of(version: u8) -> FsKind
    ensures { result ≡ kind_of_version version }
{
    if version == 1 {
        FsKind::Ufs1
    } else {
        FsKind::Ufs2
    }
}

/// The volume of a superblock, alone.
fn volumes_of(alloc: Global, sup: &Super, number: u32) -> Result<Volumes, NoMemory>
    ensures { IfOk result (λ volumes. volumes ≡ record { number = number; kind = kind_of_version sup.now.version; at = sup.now.at; len = sup.now.len } ∷ []) }
{
    let volume = Volume {
        number,
        kind: kind_of(sup.version),
        at: sup.at,
        len: sup.len,
    };
    Ok(Volumes::from_vec(vec![in alloc; volume]?))
}

/// No byte.
#[tactic(auto, using(crate::proofs::TreeLaws::none_is))]
fn no_ranges(alloc: Global) -> Result<RangeList, NoMemory>
    ensures { IfOk result (λ ranges. ranges ≡ []) }
{
    RangeList::from_ranges(alloc, Vec::new(alloc))
}

/// The bytes of some ranges of an image of so many bytes.
fn guard_from(alloc: Global, size: u64, looked: Vec<Range>) -> Result<RangeList, NoMemory>
    requires reach { size ≤ LONGEST_IMAGE }
    requires within { AreRangesWithin size looked.items }
    ensures guard { IfOk result (λ guard. guard ≡ longest_ranges (covers looked.items) 0 size) }
    ensures within { IfOk result (AreRangesWithin size) }
{
    RangeList::from_ranges(alloc, looked)
}

/// The tree of the volume of a number in an image of `size` bytes, in which these files were found, and these ranges were
/// looked at.
pub(crate) fn tree_of(
    alloc: Global,
    size: u64,
    sup: &Super,
    number: u32,
    files: Files,
    looked: Vec<Range>,
) -> Result<Tree, NoMemory>
    requires reach { size ≤ LONGEST_IMAGE }
    requires inside { sup.now.at + sup.now.len ≤ size }
    requires within { AreFilesWithin size files }
    requires in_volume { All (λ file. file.id.volume ≡ number) files }
    requires few_names { has_few_names files ≡ true }
    requires looked { AreRangesWithin size looked.items }
    ensures { IfOk result (λ tree. tree ≡ spec.tree_of size (record { at = sup.now.at; len = sup.now.len }) number
        (longest_ranges (covers looked.items) 0 size) (record { superblock = sup.now; files = files })) }
{
    Ok(Tree {
        image_len: size,
        volumes: volumes_of(alloc, sup, number)?,
        unread: no_ranges(alloc)?,
        files,
        guard: guard_from(alloc, size, looked)?,
    })
}
