//! A fork: what is wrong with it, its pieces and its slack.
ghost use Rattle.std.specs.Prelude.{◌≡◌, ◌+◌, ◌^◌, ◌<◌, ◌≤◌, IfOk, IfErr};
ghost use Rattle.hfs_defs.specs.Forks.{extents_with, found_fork, byte_place};
ghost use Rattle.hfs_defs.specs.Header.{IsSoundHeader};
ghost use Rattle.hfs_extents.specs.Extents.{AreNear};
ghost use Rattle.hfs_extents.specs.Found.{found_in, IsForkRefusal, TellsFork};
ghost use Rattle.piece_defs.specs.Joined.{AreInARow};
ghost use Rattle.piece_defs.specs.Places.{ArePiecesAt, AreWithin};
ghost use Rattle.range_defs.specs.declared.TheConstants.{LONGEST_IMAGE};
ghost use Rattle.rx_store.specs.Answers.{Answers};

use crate::extents::fork_fault;
use crate::pieces::{pieces_of, slack_of};
use hfs_defs::{Extent, Fork, Header, OverflowRecord};
use rx_ranges::{Pieces, RangeList};
use rx_store::ReadFault;
use std::alloc::{AllocError, Global};

/// What is found of a fork: the pieces of its bytes, and its slack, which is what its blocks have behind them.
#[derive(Debug, Drop)]
pub struct ForkPieces {
    pub pieces: Pieces,
    pub slack: RangeList,
}

/// The extents of a fork: its eight, and then those of its overflow records.
fn all_extents(
    alloc: Global,
    records: &[OverflowRecord],
    fork: &Fork,
) -> Result<Vec<Extent>, AllocError>
    ensures { IfOk result (λ extents. extents.items ≡ extents_with records.now fork.now) }
{
    let mut extents = Vec::from_slice(alloc, &fork.extents)?;
    for record in records {
        extents.extend_from_slice(&record.extents)?;
    }
    Ok(extents)
}

/// The pieces and the slack of a fork with these overflow records, whose fork data stand at a place.
pub(crate) fn pieces_and_slack(
    alloc: Global,
    header: &Header,
    records: &[OverflowRecord],
    fork: &Fork,
    place: u64,
) -> Result<ForkPieces, ReadFault>
    requires sound { IsSoundHeader header.now }
    requires ends { header.now.at + header.now.len ≤ LONGEST_IMAGE }
    requires near { place < 2 ^ 62 }
    requires records_near { AreNear records.now }
    ensures found { Answers (found_in result) (found_fork header.now records.now fork.now place) }
    ensures tells { TellsFork header.now records.now fork.now place result }
    ensures placed { IfOk result (λ laid. ArePiecesAt (byte_place header.now (extents_with records.now fork.now)) fork.now.logical_size laid.pieces) }
    ensures covered { IfOk result (λ laid. AreInARow 0 fork.now.logical_size laid.pieces) }
    ensures within { IfOk result (λ laid. AreWithin (header.now.at + header.now.len) laid.pieces) }
    ensures refusals { IfErr result (IsForkRefusal place) }
{
    if let Some(refusal) = fork_fault(header, records, fork, place) {
        return Err(ReadFault::from(refusal));
    }
    let list = all_extents(alloc, records, fork)?;
    let extents = list.as_slice();
    Ok(ForkPieces {
        pieces: pieces_of(alloc, header, fork.logical_size, extents)?,
        slack: slack_of(alloc, header, fork.logical_size, extents)?,
    })
}
