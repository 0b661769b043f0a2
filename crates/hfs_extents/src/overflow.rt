//! The overflow records of a volume, and the forks that they complete.
ghost use Rattle.std.specs.Prelude.{◌≡◌, ◌+◌, ◌^◌, ◌<◌, ◌≤◌, IfOk, IfErr, IfSome};
ghost use Rattle.disk_defs.specs.Disk.{size_of, told_image};
ghost use Rattle.disk_defs.specs.declared.Area.TheVariants.{Image};
ghost use Rattle.hfs_defs.specs.Forks as spec;
ghost use Rattle.hfs_defs.specs.Forks.{byte_place, extents_with, found_fork};
ghost use Rattle.hfs_defs.specs.Header.{IsSoundHeader};
ghost use Rattle.hfs_extents.specs.Found.{found_in, IsForkRefusal, TellsFork};
ghost use Rattle.hfs_extents.specs.Overflow.{overflow_within, LeadsOn, IsExtentsRefusal, IsOverflowRefusal};
ghost use Rattle.image_defs.specs.Ask.{result_of};
ghost use Rattle.piece_defs.specs.Joined.{AreInARow};
ghost use Rattle.piece_defs.specs.Places.{ArePiecesAt, AreWithin};
ghost use Rattle.range_defs.specs.declared.TheConstants.{LONGEST_IMAGE};
ghost use Rattle.rx_store.specs.Answers.{Answers};
ghost use Rattle.rx_store.specs.ReadFaults.{IsReadCounted};

use crate::extents::blocks_in;
use crate::fork::{ForkPieces, pieces_and_slack};
use crate::index::{Entry, index_of, records_of};
use crate::records::read_records;
use hfs_btree::Leaves;
use hfs_defs::{Fork, Header, OverflowRecord};
use range_defs::LONGEST_IMAGE;
use rx_ranges::Items;
use rx_store::{Bound, ReadFault, Store, What};
use std::alloc::Global;
use std::marker::Model;

/// The overflow records of a volume, in the order of the leaf records, and their entries by file.
#[derive(Debug, Drop)]
pub struct Overflow {
    records: Items<OverflowRecord>,
    entries: Vec<Entry>,
}

impl Model for Overflow {
    ghost use Rattle.std.specs.Prelude.{List};
    ghost use Rattle.hfs_defs.specs.declared.forks.OverflowRecord.{OverflowRecord};
    ghost use Rattle.hfs_extents.specs.Index.{IsKept};

    ghost Value = { List OverflowRecord };

    ghost view = { λ o. o.records };

    ghost invariant = { λ o. IsKept o.records o.entries.items };
}

/// The pieces of the extents file, which has its eight extents alone.
fn extents_pieces(alloc: Global, header: &Header) -> Result<ForkPieces, ReadFault>
    requires sound { IsSoundHeader header.now }
    requires fits { header.now.at + header.now.len < 2 ^ 64 }
    ensures leads { LeadsOn header.now result }
    ensures within { IfOk result (λ laid. AreWithin (header.now.at + header.now.len) laid.pieces) }
    ensures covered { IfOk result (λ laid. AreInARow 0 header.now.extents.logical_size laid.pieces) }
    ensures near { IfOk result (λ laid. header.now.at + header.now.len ≤ LONGEST_IMAGE) }
    ensures refusals { IfErr result (IsExtentsRefusal header.now) }
{
    if header.at + header.len > LONGEST_IMAGE {
        return Err(ReadFault::Limit(Bound::Image, LONGEST_IMAGE));
    }
    let fork = &header.extents;
    let place = header.at + 1216;
    if blocks_in(&fork.extents) != u64::from(fork.total_blocks) {
        return Err(ReadFault::Unsupported(What::ExtentsFork, place));
    }
    pieces_and_slack(alloc, header, &[], fork, place)
}

impl Overflow {
    /// The overflow records of a volume, as its extents file has them.
    pub fn read<S: Store>(
        alloc: Global,
        store: &mut S,
        header: &Header,
    ) -> Result<Overflow, ReadFault>
        requires inside { header.now.at + header.now.len ≤ size_of Image (S.state store.old) }
        requires sound { IsSoundHeader header.now }
        ensures told { IfSome (told_image (S.state store.old)) (λ image. Answers result (result_of image (overflow_within header.now))) }
        ensures refusals { IfErr result (IsOverflowRefusal header.now) }
        ensures same { S.state store.new ≡ S.state store.old }
        ensures counted { IsReadCounted Image result (S.faults store.old) (S.faults store.new) }
    {
        let laid = extents_pieces(alloc, header)?;
        let ForkPieces { pieces, .. } = laid;
        let leaves = Leaves::start(
            alloc,
            store,
            pieces,
            header.extents.logical_size,
            header.at + 1216,
        )?;
        let records = read_records(alloc, store, leaves)?;
        let entries = index_of(alloc, records.items())?;
        Ok(Overflow { records, entries })
    }
}

/// The pieces and the slack of a fork of a file, whose fork data stand at `place`.
pub fn fork_pieces(
    alloc: Global,
    header: &Header,
    overflow: &Overflow,
    file: u32,
    fork_type: u8,
    fork: &Fork,
    place: u64,
) -> Result<ForkPieces, ReadFault>
    requires sound { IsSoundHeader header.now }
    requires ends { header.now.at + header.now.len ≤ LONGEST_IMAGE }
    requires near { place ≤ 140737488355328 }
    ensures found { Answers (found_in result) (found_fork header.now (spec.records_of overflow.now file fork_type) fork.now place) }
    ensures tells { TellsFork header.now (spec.records_of overflow.now file fork_type) fork.now place result }
    ensures placed { IfOk result (λ laid. ArePiecesAt (byte_place header.now (extents_with (spec.records_of overflow.now file fork_type) fork.now)) fork.now.logical_size laid.pieces) }
    ensures covered { IfOk result (λ laid. AreInARow 0 fork.now.logical_size laid.pieces) }
    ensures within { IfOk result (λ laid. AreWithin (header.now.at + header.now.len) laid.pieces) }
    ensures refusals { IfErr result (IsForkRefusal place) }
{
    let records = records_of(
        alloc,
        overflow.records.items(),
        overflow.entries.as_slice(),
        file,
        fork_type,
    )?;
    pieces_and_slack(alloc, header, &records, fork, place)
}
