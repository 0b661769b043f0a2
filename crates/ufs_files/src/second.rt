//! The second pass over a volume: the files of the inodes that have names.
ghost use Rattle.std.specs.Prelude.{◌≡◌, ◌+◌, ◌≤◌, None, Ok, All, IfOk, IfSome, OnOk, [], length};
ghost use Rattle.disk_defs.specs.Disk.{size_of, told_image};
ghost use Rattle.disk_defs.specs.declared.Area.TheVariants.{Image};
ghost use Rattle.image_defs.specs.Ask.{result_of};
ghost use Rattle.image_reads.specs.Steps.{ReadsAs, KeptWithin};
ghost use Rattle.range_defs.specs.declared.TheConstants.{LONGEST_IMAGE};
ghost use Rattle.rx_store.specs.ReadFaults.{IsReadCounted};
ghost use Rattle.rx_tree.specs.PartOrder.{ArePartsSorted};
ghost use Rattle.ufs_inode_defs.specs.Blocks.{most_runs};
ghost use Rattle.ufs_inode_defs.specs.Inode.{inode_at};
ghost use Rattle.ufs_inode_defs.specs.Layout.{layout_of};
ghost use Rattle.ufs_inode_defs.specs.Superblock.{wrong_field};
ghost use Rattle.ufs_volume_defs.specs.Files.{named_files};
ghost use Rattle.ufs_volume_defs.specs.Names.{most_names, most_path_bytes, path_bytes};
ghost use Rattle.ufs_names.specs.Walked.{IsNamed};
ghost use Rattle.ufs_files.specs.Filed.{group_file, with_group, IsGoodGroup, HasFile, AreFilesOf};

use crate::file::file_from;
use crate::group::{Group, groups_of};
use crate::rest::Rest;
use image_reads::keep;
use range_defs::Range;
use rx_store::{ReadFault, Store};
use rx_tree::FileEntry;
use std::alloc::{AllocError, Global};
use std::marker::Model;
use ufs_blocks::{Parted, inode_parts};
use ufs_inode_defs::{Inode, Super};
use ufs_names::Name;
use ufs_super::inode_len;

/// The files so far, and the runs that were counted.
#[derive(Debug, Drop)]
pub(crate) struct Filed {
    pub(crate) files: Vec<FileEntry>,
    pub(crate) runs: u64,
}

impl Model for Filed {
    ghost use Rattle.ufs_volume_defs.specs.Files.{Filed};

    ghost Value = { Filed };

    ghost view = { λ f. record { files = f.files.items; runs = f.runs } };
}

impl Filed {
    /// No file, and room for so many.
    fn none(alloc: Global, room: usize) -> Result<Filed, AllocError>
        ensures { IfOk result (λ filed. filed ≡ record { files = []; runs = 0 }) }
    {
        Ok(Filed {
            files: Vec::with_capacity(alloc, room)?,
            runs: 0,
        })
    }

    /// One more file: that of a group, with the parts that were found.
    fn with_group(
        mut self,
        sup: &Super,
        volume: u32,
        group: Group,
        parted: Parted,
    ) -> Result<Filed, AllocError>
        requires good { IsGoodGroup sup.now group }
        requires sorted { ArePartsSorted parted.parts }
        ensures { IfOk result (λ filed. filed ≡ with_group sup.now volume self group parted) }
    {
        self.files
            .push(file_from(sup, volume, group, parted.parts)?)?;
        self.runs = parted.runs;
        Ok(self)
    }
}

/// The bytes of an inode.
fn range_of(sup: &Super, inode: &Inode) -> Range
    ensures { result ≡ record { at = inode.now.at; len = (layout_of sup.now.version).inode_len } }
{
    Range {
        at: inode.at,
        len: u64::from(inode_len(sup.version)),
    }
}

/// One more file: that of a group of names. Its inode isn't read once more, but its bytes are kept.
fn group_file<S: Store>(
    alloc: Global,
    store: &mut S,
    sup: &Super,
    volume: u32,
    filed: Filed,
    group: Group,
    looked: &mut Vec<Range>,
) -> Result<Filed, ReadFault>
    requires sound { wrong_field sup.now ≡ None }
    requires inside { sup.now.at + sup.now.len ≤ size_of Image (S.state store.old) }
    requires near { sup.now.at + sup.now.len ≤ LONGEST_IMAGE }
    requires few { filed.runs ≤ most_runs }
    requires good { IsGoodGroup sup.now group }
    ensures reads { ReadsAs (told_image (S.state store.old)) (group_file sup.now volume filed group) looked.old.items looked.new.items result }
    ensures added { IfOk result (HasFile sup.now volume filed group) }
    ensures kept_within { OnOk result (KeptWithin (sup.now.at + sup.now.len) looked.old.items looked.new.items) }
    ensures same { S.state store.new ≡ S.state store.old }
    ensures counted { IsReadCounted Image result (S.faults store.old) (S.faults store.new) }
{
    let inode = group.inode.inode();
    keep(looked, range_of(sup, &inode))?;
    let parted = inode_parts(alloc, store, sup, &inode, filed.runs, looked)?;
    Ok(filed.with_group(sup, volume, group, parted)?)
}

/// The files of the inodes that have these names, which the first pass found.
pub(crate) fn read_files<S: Store>(
    alloc: Global,
    store: &mut S,
    sup: &Super,
    volume: u32,
    names: Vec<Name>,
    looked: &mut Vec<Range>,
) -> Result<Filed, ReadFault>
    requires sound { wrong_field sup.now ≡ None }
    requires inside { sup.now.at + sup.now.len ≤ size_of Image (S.state store.old) }
    requires near { sup.now.at + sup.now.len ≤ LONGEST_IMAGE }
    requires named { All (IsNamed sup.now) names.items }
    requires few { length names.items ≤ most_names }
    requires short { path_bytes names.items ≤ most_path_bytes }
    requires known { IfSome (told_image (S.state store.old))
        (λ image. All (λ name. result_of image (inode_at sup.now name.number) ≡ Ok name.inode) names.items) }
    ensures reads { ReadsAs (told_image (S.state store.old)) (named_files sup.now volume names.items) looked.old.items looked.new.items result }
    ensures files { IfOk result (λ filed. AreFilesOf sup.now volume filed.files) }
    ensures kept_within { OnOk result (KeptWithin (sup.now.at + sup.now.len) looked.old.items looked.new.items) }
    ensures same { S.state store.new ≡ S.state store.old }
    ensures counted { IsReadCounted Image result (S.faults store.old) (S.faults store.new) }
{
    let all = groups_of(alloc, names)?;
    let mut filed = Filed::none(alloc, all.len())?;
    let mut groups = Rest::of(all);
    while let Some(group) = groups.next() {
        filed = group_file(alloc, store, sup, volume, filed, group, looked)?;
    }
    Ok(filed)
}
