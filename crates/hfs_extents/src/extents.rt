//! Extents: their blocks, and which of them pass the volume's end.
ghost use Rattle.std.specs.Prelude.{◌≡◌, ◌*◌, ◌^◌, ◌<◌, ◌≤◌, length, IsTrue, IfNone};
ghost use Rattle.hfs_defs.specs.Forks as spec;
ghost use Rattle.hfs_defs.specs.Forks.{written_from, written_extents};
ghost use Rattle.hfs_extents.specs.Extents.{AreNear};

use fault_defs::{Refusal, Sort};
use hfs_defs::{Extent, Fork, Header, OverflowRecord};

/// The blocks of at most eight extents together.
pub(crate) fn blocks_in(extents: &[Extent]) -> u64
    requires { length extents.now ≤ 8 }
    ensures value { result ≡ spec.blocks_in extents.now }
    ensures few { result < 2 ^ 35 }
{
    let mut sum = 0;
    for extent in extents {
        sum += u64::from(extent.count);
    }
    sum
}

/// The place of the first of at most eight extents, written from a place on, that passes the end of so many blocks.
fn passing_in(total: u32, extents: &[Extent], at: u64) -> Option<u64>
    requires few { length extents.now ≤ 8 }
    requires room { at < 2 ^ 63 }
    ensures { result ≡ spec.first_passing total (written_from at extents.now) }
{
    let mut place = at;
    for extent in extents {
        if extent.count > 0
            && u64::from(extent.start) + u64::from(extent.count) > u64::from(total)
        {
            return Some(place);
        }
        place += 8;
    }
    None
}

/// The place of the first extent of a fork that passes the end of so many blocks.
fn first_passing(total: u32, records: &[OverflowRecord], fork: &Fork, place: u64) -> Option<u64>
    requires near { place < 2 ^ 62 }
    requires records_near { AreNear records.now }
    ensures { result ≡ spec.first_passing total (written_extents records.now fork.now place) }
{
    if let Some(at) = passing_in(total, &fork.extents, place + 16) {
        return Some(at);
    }
    for record in records {
        if let Some(at) = passing_in(total, &record.extents, record.at + 12) {
            return Some(at);
        }
    }
    None
}

/// Whether the extents are all blocks of the fork, and hold its bytes.
fn is_whole(header: &Header, records: &[OverflowRecord], fork: &Fork) -> bool
    ensures value { result ≡ spec.is_whole header.now records.now fork.now }
    ensures fits { IsTrue result → fork.now.total_blocks * header.now.block_size < 2 ^ 64 }
{
    let mut sum = blocks_in(&fork.extents);
    for record in records {
        if u64::from(record.start) != sum {
            return false;
        }
        sum += blocks_in(&record.extents);
    }
    sum == u64::from(fork.total_blocks)
        && fork.logical_size <= u64::from(fork.total_blocks) * u64::from(header.block_size)
}

/// What is wrong with a fork whose fork data stand at a place, if anything is.
#[tactic(auto, unfolding(hfs_defs::specs::Forks::fork_fault))]
pub(crate) fn fork_fault(
    header: &Header,
    records: &[OverflowRecord],
    fork: &Fork,
    place: u64,
) -> Option<Refusal>
    requires near { place < 2 ^ 62 }
    requires records_near { AreNear records.now }
    ensures value { result ≡ spec.fork_fault header.now records.now fork.now place }
    ensures fits { IfNone result (fork.now.total_blocks * header.now.block_size < 2 ^ 64) }
{
    if let Some(at) = first_passing(header.total_blocks, records, fork, place) {
        return Some(Refusal::Damaged(Sort::ForkExtent, at));
    }
    if is_whole(header, records, fork) {
        None
    } else {
        Some(Refusal::Damaged(Sort::ForkSum, place))
    }
}
