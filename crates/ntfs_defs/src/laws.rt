//! Laws of run lists.
ghost use Rattle.std.specs.Prelude.{◌≡◌, ◌≢◌, ◌<◌, ◌≤◌, ◌↔◌, ℕ, IsOk, List, sum_by};
ghost use Rattle.ntfs_defs.specs.Clusters.{Stored, cluster, cluster_in, virtual_clusters};
ghost use Rattle.ntfs_defs.specs.Damage.{first_damage};
ghost use Rattle.ntfs_defs.specs.DecodedRuns.{decoded_runs};
ghost use Rattle.ntfs_defs.specs.declared.runs.Run.{Run};
ghost use Rattle.ntfs_defs.specs.declared.fault.RunFault.{RunFault};

/// The runs of a run list have its cluster at each virtual cluster.
#[tactic(auto, using(crate::proofs::RunLaws::decoded_clusters))]
pub fn runs_have_each_cluster()
    ensures { (clusters : ℕ) (bytes : List ℕ) (runs : List Run) → decoded_runs clusters bytes ≡ Ok runs
        → (v : ℕ) → cluster_in runs v ≡ cluster bytes v }
{}

/// Their lengths sum to its virtual clusters.
#[tactic(auto, using(crate::proofs::RunLaws::decoded_sum))]
pub fn runs_sum_to_the_virtual_clusters()
    ensures { (clusters : ℕ) (bytes : List ℕ) (runs : List Run) → decoded_runs clusters bytes ≡ Ok runs
        → sum_by (λ run. run.len) runs ≡ virtual_clusters bytes }
{}

/// Nothing is a virtual cluster behind the end, and each one in front of it is one.
#[tactic(auto, using(crate::proofs::RunLaws::decoded_end))]
pub fn nothing_stands_behind_the_end()
    ensures { (clusters : ℕ) (bytes : List ℕ) (runs : List Run) → decoded_runs clusters bytes ≡ Ok runs
        → (v : ℕ) → (cluster bytes v ≡ None) ↔ (virtual_clusters bytes ≤ v) }
{}

/// What a virtual cluster is stored in is a cluster of the volume.
#[tactic(auto, using(crate::proofs::RunLaws::decoded_stored_inside))]
pub fn clusters_are_on_the_volume()
    ensures { (clusters : ℕ) (bytes : List ℕ) (runs : List Run) → decoded_runs clusters bytes ≡ Ok runs
        → (v number : ℕ) → cluster bytes v ≡ Some (Stored number) → number < clusters }
{}

/// A damage is told exactly where it is the first thing that is wrong, by the sums over the runs in front of each run.
#[tactic(auto, using(crate::proofs::DamageLaws::decoded_damage))]
pub fn the_first_damage_is_told()
    ensures { (clusters : ℕ) (bytes : List ℕ) (fault : RunFault)
        → (decoded_runs clusters bytes ≡ Err fault) ↔ (first_damage clusters bytes ≡ Some fault) }
{}

/// Runs are told exactly where nothing is wrong.
#[tactic(auto, using(crate::proofs::DamageLaws::decoded_sound))]
pub fn sound_lists_are_told()
    ensures { (clusters : ℕ) (bytes : List ℕ) → IsOk (decoded_runs clusters bytes) ↔ (first_damage clusters bytes ≡ None) }
{}

/// Want of memory is no damage of a run list.
#[tactic(auto, using(crate::proofs::DamageLaws::decoded_memory))]
pub fn want_of_memory_is_no_damage()
    ensures { (clusters : ℕ) (bytes : List ℕ) → decoded_runs clusters bytes ≢ Err RunFault.NoMemory }
{}
