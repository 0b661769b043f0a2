//! The parts of an inode.
ghost use Rattle.std.specs.Prelude.{◌≡◌, ◌≢◌, ◌+◌, ◌≤◌, ◌++◌, ◌∷◌, [], true, false, None, Err, IfOk, IfSome, OnOk, All};
ghost use Rattle.disk_defs.specs.Disk.{size_of, told_image};
ghost use Rattle.disk_defs.specs.declared.Area.TheVariants.{Image};
ghost use Rattle.image_defs.specs.Ask.{Done};
ghost use Rattle.image_defs.specs.Through.{through};
ghost use Rattle.image_reads.specs.Steps.{KeptWithin, ReadsAs};
ghost use Rattle.piece_defs.specs.Covering.{covers_from};
ghost use Rattle.range_defs.specs.Places.{EndsInReach, IsRangeList};
ghost use Rattle.range_defs.specs.declared.TheConstants.{LONGEST_IMAGE};
ghost use Rattle.rx_store.specs.ReadFaults.{IsReadCounted};
ghost use Rattle.rx_tree.specs.PartOrder.{ArePartsSorted};
ghost use Rattle.rx_tree.specs.PartPieces.{ArePlain};
ghost use Rattle.rx_tree.specs.Within.{ArePartsWithin};
ghost use Rattle.ufs_blocks.specs.Placed.{AreExtendedBy, ArePartsOf};
ghost use Rattle.ufs_blocks.specs.Sections as sections_spec;
ghost use Rattle.ufs_blocks.specs.Sections.{IsContentAlone, extended_list};
ghost use Rattle.ufs_blocks.specs.UnderWay.{Settles};
ghost use Rattle.ufs_inode_defs.specs.Blocks.{most_runs, runs_of};
ghost use Rattle.ufs_inode_defs.specs.Inode as inode_spec;
ghost use Rattle.ufs_inode_defs.specs.Inode.{sound_inode};
ghost use Rattle.ufs_inode_defs.specs.Superblock.{wrong_field};
ghost use Rattle.ufs_volume_defs.specs.Files as files_spec;
ghost use Rattle.ufs_volume_defs.specs.Files.{section_part, sections_of};

use crate::laid::{Laid, Parted};
use crate::streams::{content_blocks, extended_blocks};
use range_defs::Range;
use rx_ranges::{Pieces, RangeList, Text};
use rx_store::{ReadFault, Store};
use rx_tree::{Part, Role};
use std::alloc::{AllocError, Global};
use ufs_inode_defs::{Inode, Super};

/// The bits of the mode that say what a file is.
fn type_bits(inode: &Inode) -> u16
    ensures { result ≡ inode_spec.type_bits inode.now }
{
    inode.mode & 0xF000
}

/// Whether an inode has parts: devices, pipes and sockets have none.
fn has_parts(inode: &Inode) -> bool
    ensures { result ≡ sections_spec.has_parts inode.now }
{
    let bits = type_bits(inode);
    bits == 0x4000 || bits == 0x8000 || bits == 0xA000
}

/// Whether a link's target stands in the place of its pointers.
fn is_short_link(sup: &Super, inode: &Inode) -> bool
    ensures { result ≡ inode_spec.is_short_link sup.now inode.now }
{
    let least = if sup.version == 1 { 60 } else { 120 };
    type_bits(inode) == 0xA000 && inode.size < least
}

/// Whether an inode has a content.
fn has_content(sup: &Super, inode: &Inode) -> bool
    ensures { result ≡ sections_spec.has_content sup.now inode.now }
{
    has_parts(inode) && !is_short_link(sup, inode)
}

/// Whether an inode has an extended area.
fn has_extended(inode: &Inode) -> bool
    ensures { result ≡ sections_spec.has_extended inode.now }
{
    has_parts(inode) && inode.extsize != 0
}

/// The slack of a stream.
#[tactic(auto, using(crate::proofs::PartLaws::same_slack))]
fn slack_of(alloc: Global, slack: Vec<Range>) -> Result<RangeList, AllocError>
    requires reach { All EndsInReach slack.items }
    requires kept { IsRangeList slack.items }
    ensures { IfOk result (λ list. list ≡ slack.items) }
{
    RangeList::from_ranges(alloc, slack)
}

/// The parts with one more, which was found so. They are kept as long as the tree is, so they take no memory to spare.
fn with_part(
    alloc: Global,
    role: Role,
    name: &str,
    size: u64,
    parted: Parted,
    laid: Laid,
) -> Result<Parted, AllocError>
    requires few { runs_of laid ≤ most_runs }
    requires covered { covers_from 0 size laid.pieces ≡ true }
    requires plain { ArePlain laid.pieces }
    requires slack { IsRangeList laid.slack }
    requires reach { All EndsInReach laid.slack }
    ensures parts { IfOk result (λ after. after.parts ≡ parted.parts
        ++ record { role = role; name = name.now; size = size; pieces = laid.pieces; slack = laid.slack; unreadable = false } ∷ []) }
    ensures runs { IfOk result (λ after. after.runs ≡ runs_of laid) }
{
    let Parted { mut parts, runs: _ } = parted;
    let Laid {
        block: _,
        mut pieces,
        slack,
        visited,
        before,
    } = laid;
    let runs = before + pieces.len() as u64 + visited;
    pieces.shrink_to_fit();
    parts.reserve_exact(1)?;
    parts.push(Part {
        role,
        name: Text::from_str(alloc, name)?,
        size,
        pieces: Pieces::from_vec(pieces),
        slack: slack_of(alloc, slack)?,
        unreadable: false,
    })?;
    Ok(Parted { parts, runs })
}

/// No parts yet, where so many runs were counted before.
fn none_parted(alloc: Global, runs: u64) -> Parted
    ensures { result ≡ record { parts = []; runs = runs } }
{
    Parted {
        parts: Vec::new(alloc),
        runs,
    }
}

/// The parts with the extended area, where an inode has one.
fn with_extended(
    alloc: Global,
    sup: &Super,
    inode: &Inode,
    parted: Parted,
) -> Result<Parted, ReadFault>
    requires sound { wrong_field sup.now ≡ None }
    requires good { sound_inode sup.now inode.now ≡ Done tt }
    requires stands { inode.now.at ≤ LONGEST_IMAGE }
    requires near { sup.now.at + sup.now.len ≤ LONGEST_IMAGE }
    requires few { parted.runs ≤ most_runs }
    requires alone { IsContentAlone parted.parts }
    requires parts_within { ArePartsWithin (sup.now.at + sup.now.len) parted.parts }
    ensures settles { Settles result (through (section_part sup.now) parted (extended_list inode.now)) }
    ensures extended { IfOk result (λ after. AreExtendedBy sup.now (extended_list inode.now) parted.parts after.parts) }
    ensures few_after { IfOk result (λ after. after.runs ≤ most_runs) }
    ensures sorted { IfOk result (λ after. ArePartsSorted after.parts) }
    ensures within { IfOk result (λ after. ArePartsWithin (sup.now.at + sup.now.len) after.parts) }
    ensures calm { result ≢ Err ReadFault.Device }
{
    if !has_extended(inode) {
        return Ok(parted);
    }
    let laid = extended_blocks(alloc, sup, inode, parted.runs)?;
    let size = u64::from(inode.extsize);
    let all = with_part(alloc, Role::Other, "ext", size, parted, laid)?;
    Ok(all)
}

/// The parts of an inode, where so many runs were counted before.
pub fn inode_parts<S: Store>(
    alloc: Global,
    store: &mut S,
    sup: &Super,
    inode: &Inode,
    runs: u64,
    looked: &mut Vec<Range>,
) -> Result<Parted, ReadFault>
    requires sound { wrong_field sup.now ≡ None }
    requires good { sound_inode sup.now inode.now ≡ Done tt }
    requires stands { inode.now.at ≤ LONGEST_IMAGE }
    requires inside { sup.now.at + sup.now.len ≤ size_of Image (S.state store.old) }
    requires near { sup.now.at + sup.now.len ≤ LONGEST_IMAGE }
    requires few { runs ≤ most_runs }
    ensures reads { ReadsAs (told_image (S.state store.old)) (files_spec.inode_parts sup.now runs inode.now) looked.old.items looked.new.items result }
    ensures placed { IfOk result (λ parted. IfSome (told_image (S.state store.old)) (λ image. ArePartsOf image sup.now (sections_of sup.now inode.now) parted.parts)) }
    ensures few_after { IfOk result (λ parted. parted.runs ≤ most_runs) }
    ensures sorted { IfOk result (λ parted. ArePartsSorted parted.parts) }
    ensures within { IfOk result (λ parted. ArePartsWithin (sup.now.at + sup.now.len) parted.parts) }
    ensures kept_within { OnOk result (KeptWithin (sup.now.at + sup.now.len) looked.old.items looked.new.items) }
    ensures same { S.state store.new ≡ S.state store.old }
    ensures counted { IsReadCounted Image result (S.faults store.old) (S.faults store.new) }
{
    let none = none_parted(alloc, runs);
    if !has_content(sup, inode) {
        return with_extended(alloc, sup, inode, none);
    }
    let laid = content_blocks(alloc, store, sup, inode, runs, looked)?;
    let content = with_part(alloc, Role::Content, "", inode.size, none, laid)?;
    with_extended(alloc, sup, inode, content)
}
