//! Decoding a run list.
ghost use Rattle.std.specs.Prelude.{◌≡◌, ◌≢◌, ◌+◌, ◌^◌, ◌≤◌, ◌<◌, ◌↔◌, ℕ, IfOk, IfErr, IfSome, All, sum_by};
ghost use Rattle.ntfs_defs.specs.Clusters.{cluster, cluster_in, virtual_clusters};
ghost use Rattle.ntfs_defs.specs.DecodedRuns.{decoded_runs};

use crate::runs::Runs;
use crate::written::{checked_run, run_at};
use ntfs_defs::RunFault;
use std::alloc::Global;

/// The runs that a run list says, on a volume of so many clusters.
pub fn decode_runs(alloc: Global, bytes: &[u8], clusters: u64) -> Result<Runs, RunFault>
    requires { clusters ≤ 2 ^ 63 }
    ensures runs { IfOk result (λ runs. decoded_runs clusters bytes.now ≡ Ok runs) }
    ensures fault { IfErr result (λ fault. fault ≢ RunFault.NoMemory → decoded_runs clusters bytes.now ≡ Err fault) }

    // What each virtual cluster is, how many there are, and that nothing stands behind them.
    ensures at_each { IfOk result (λ runs. (v : ℕ) → cluster_in runs v ≡ cluster bytes.now v) }
    ensures sum { IfOk result (λ runs. sum_by (λ run. run.len) runs ≡ virtual_clusters bytes.now) }
    ensures end { IfOk result (λ runs. (v : ℕ) → (cluster bytes.now v ≡ None) ↔ (virtual_clusters bytes.now ≤ v)) }

    ensures none_empty { IfOk result (All (λ run. 0 < run.len)) }
    ensures all_inside { IfOk result (All (λ run. IfSome run.cluster (λ first. first + run.len ≤ clusters))) }
    ensures at_most { IfOk result (λ runs. sum_by (λ run. run.len) runs ≤ 2 ^ 48) }
{
    let mut runs = Vec::new(alloc);
    let mut base = 0;
    let mut total = 0;
    let mut at = 0;
    while let Some(written) = run_at(bytes, at)? {
        let run = checked_run(&written, base, total, clusters)?;
        base = run.cluster.unwrap_or(base);
        total += run.len;
        at = written.next;
        runs.push(run)?;
    }
    Ok(Runs::from_vec(runs))
}
