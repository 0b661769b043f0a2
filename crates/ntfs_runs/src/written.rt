//! The runs of a run list, one at a time.
ghost use Rattle.std.specs.Prelude.{◌≡◌, ◌+◌, ◌^◌, ◌≤◌, length};
ghost use Rattle.ntfs_defs.specs.WrittenRuns as written_runs_spec;
ghost use Rattle.bytes_defs.specs.Numbers.{little_at};
ghost use Rattle.ntfs_defs.specs.DecodedRuns as decoded_runs_spec;
ghost use Rattle.ntfs_defs.specs.DecodedRuns.{begin_of};

use byteorder::{ByteOrder, LittleEndian};
use ntfs_defs::{Run, RunFault, WrittenRun};

/// The runs of one list have at most so many clusters together.
const MOST_CLUSTERS: u64 = 1 << 48;

/// The length in `count` bytes from a place on.
#[tactic(auto, using(bytes_defs::proofs::NumberLaws::field_reads), unfolding(bytes_defs::specs::Numbers::number_at))]
fn length_at(bytes: &[u8], at: usize, count: usize) -> u64
    requires few { count ≤ 8 }
    requires inside { at + count ≤ length bytes.now }
    ensures { result ≡ little_at count bytes.now at }
{
    if count == 0 {
        return 0;
    }
    LittleEndian::read_uint(&bytes[at..], count)
}

/// The offset in `count` bytes from a place on; None where there are no bytes.
#[tactic(auto, using(bytes_defs::proofs::NumberLaws::field_reads), unfolding(ntfs_defs::specs::WrittenRuns::offset_at))]
fn offset_at(bytes: &[u8], at: usize, count: usize) -> Option<i64>
    requires few { count ≤ 8 }
    requires inside { at + count ≤ length bytes.now }
    ensures { result ≡ written_runs_spec.offset_at bytes.now at count }
{
    if count == 0 {
        return None;
    }
    Some(LittleEndian::read_int(&bytes[at..], count))
}

/// The run whose header byte stands at a place; None where the list ends there.
#[tactic(auto, unfolding(ntfs_defs::specs::WrittenRuns::run_at, ntfs_defs::specs::WrittenRuns::run_behind, ntfs_defs::specs::WrittenRuns::run_with))]
pub(crate) fn run_at(bytes: &[u8], at: usize) -> Result<Option<WrittenRun>, RunFault>
    ensures { result ≡ written_runs_spec.run_at bytes.now at }
{
    let Some(header) = bytes.get(at) else {
        return Err(RunFault::Short { at });
    };
    if *header == 0 {
        return Ok(None);
    }
    let length_bytes = usize::from(*header % 16);
    let offset_bytes = usize::from(*header / 16);
    if length_bytes > 8 || offset_bytes > 8 {
        return Err(RunFault::TooLong { at });
    }
    let offset = at + 1 + length_bytes;
    let next = offset + offset_bytes;
    if bytes.len() < next {
        return Err(RunFault::Short { at });
    }
    Ok(Some(WrittenRun {
        at,
        next,
        len: length_at(bytes, at + 1, length_bytes),
        offset: offset_at(bytes, offset, offset_bytes),
    }))
}

/// The cluster to which an offset leads from a base; None where that is below 0.
#[tactic(auto, unfolding(ntfs_defs::specs::DecodedRuns::begin_of))]
fn begin(base: u64, offset: i64) -> Option<u64>
    requires { base ≤ 2 ^ 63 }
    ensures { result ≡ begin_of base offset }
{
    base.checked_add_signed(offset)
}

/// A run that passes its checks on a volume of `clusters` clusters. It stands behind runs of `total` clusters, of which
/// the last one that had an offset begins at `base`.
#[tactic(auto, unfolding(ntfs_defs::specs::DecodedRuns::checked_run))]
pub(crate) fn checked_run(
    written: &WrittenRun,
    base: u64,
    total: u64,
    clusters: u64,
) -> Result<Run, RunFault>
    requires few_clusters { clusters ≤ 2 ^ 63 }
    requires base_inside { base ≤ 2 ^ 63 }
    requires total_fits { total ≤ 2 ^ 48 }
    ensures { result ≡ decoded_runs_spec.checked_run clusters base total written.now }
{
    let at = written.at;
    let len = written.len;
    if len == 0 {
        return Err(RunFault::ZeroRun { at });
    }
    if len > MOST_CLUSTERS - total {
        return Err(RunFault::TooLong { at });
    }
    let Some(offset) = written.offset else {
        return Ok(Run { len, cluster: None });
    };
    let Some(cluster) = begin(base, offset) else {
        return Err(RunFault::Negative { at });
    };
    if cluster > clusters || len > clusters - cluster {
        return Err(RunFault::Outside { at, cluster });
    }
    Ok(Run {
        len,
        cluster: Some(cluster),
    })
}
