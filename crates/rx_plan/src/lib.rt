//! Makes the plan of a tree and its rules.
//!
//! Each file is settled once, by the first rule that holds of it. The claims make the ranges of the plan, and the files make its
//! listing. A plan that would fill a byte of the guard is refused with the least such byte and its rule, and then one that has
//! more than 1,000,000 ranges: a journal can hold each plan that is made.
//!
//!     // rule 1 settles a file that has bytes 8 to 13, and rule 2 one that has bytes 12 to 15
//!     let plan = make_plan(alloc, &mut store, &tree, &rules)?;
//!     plan.ranges.items()     // 8 to 13 by rule 1, 14 and 15 by rule 2
#![tactic(auto)]

ghost use Rattle.std.specs.Prelude.{◌≡◌, ◌&&◌, ℕ, Some, None, IfOk, IfSome, IsErrOf, OnOk, is_some};
ghost use Rattle.std.specs.Option.{option_map};
ghost use Rattle.range_defs.specs.Claims.{painted, ranges_of};
ghost use Rattle.range_defs.specs.Places.{covers, IsLeast};
ghost use Rattle.rx_ranges.specs.PlanChecks.{IsPlan};
ghost use Rattle.fault_defs.specs.declared.Bound.{Bound as BoundValue};
ghost use Rattle.plan_defs.specs.Plan.{plan_of, guarded_byte, planning_rule, HasMoreRanges};
ghost use Rattle.rx_plan.specs.declared.PlanFault.TheVariants.{NoMemory};

mod listing;
mod settling;

use crate::listing::listing_of;
use crate::settling::{Settled, settle_files};
use range_defs::{Claim, Range};
use rule_defs::Rules;
use rx_ranges::{FillMap, Listing, MAX_RANGES, Plan, RangeList};
use rx_store::{Bound, Store};
use rx_tree::Tree;
use std::alloc::{AllocError, Global};

/// Why there is no plan.
#[derive(Clone, Copy, Debug, PartialEq, Eq)]
pub enum PlanFault {
    /// It would fill this byte of the guard, the least one, by this rule.
    MeetsGuard { at: u64, rule: u32 },
    /// It has more of something than the limit, which this number is.
    Limit(Bound, u64),
    /// There was no memory.
    NoMemory,
}

impl From<AllocError> for PlanFault {
    ghost from_gives = { λ _ fault. fault ≡ NoMemory };

    fn from(_error: AllocError) -> PlanFault {
        PlanFault::NoMemory
    }
}

/// The ranges of claims.
fn ranges_of(alloc: Global, claims: &[Claim]) -> Result<Vec<Range>, AllocError>
    ensures { IfOk result (λ ranges. ranges.items ≡ ranges_of claims.now) }
{
    claims.iter().map(|claim| claim.range).collect(alloc)
}

/// The set of the bytes that are filled.
fn filled_bytes(alloc: Global, fills: &FillMap) -> Result<RangeList, AllocError>
    ensures { IfOk result (λ filled. (byte : ℕ) → covers filled byte ≡ is_some (painted fills.now byte)) }
{
    let ranges = ranges_of(alloc, fills.items())?;
    RangeList::from_ranges(alloc, ranges)
}

/// The least filled byte of the guard, and its rule.
fn guarded(guard: &RangeList, fills: &FillMap, planned: &RangeList) -> Option<(u64, u32)>
    requires { (byte : ℕ) → covers planned.now byte ≡ is_some (painted fills.now byte) }
    ensures least { IsLeast (λ byte. covers planned.now byte && covers guard.now byte) (option_map (λ found. found.0) result) }
    ensures rule { IfSome result (λ found. option_map (λ paint. paint.0) (painted fills.now found.0) ≡ Some found.1) }
{
    let at = planned.meets(guard)?;
    let (rule, _) = fills.holds(at)?;
    Some((at, rule))
}

/// The plan of a tree and its rules. It is refused where it would fill a byte of the guard, the least of which is named
/// with its rule, and then where it has more than 1,000,000 ranges. No rule reads content yet, so the store isn't called.
pub fn make_plan<S: Store>(
    alloc: Global,
    store: &mut S,
    tree: &Tree,
    rules: &Rules,
) -> Result<Plan, PlanFault>
    ensures plan { IfOk result (λ plan. plan ≡ plan_of tree.now rules.now) }
    ensures is_plan { IfOk result IsPlan }
    ensures unguarded { OnOk result (guarded_byte tree.now rules.now ≡ None) }
    ensures guarded { (at rule : ℕ) → IsErrOf result (PlanFault.MeetsGuard at rule)
        → (guarded_byte tree.now rules.now ≡ Some at) × (planning_rule rules.now tree.now at ≡ Some rule) }
    ensures limit { (bound : BoundValue) (number : ℕ) → IsErrOf result (PlanFault.Limit bound number)
        → (bound ≡ Bound.Ranges) × (number ≡ MAX_RANGES) × HasMoreRanges number tree.now rules.now }
    ensures idle { store.new ≡ store.old }
{
    let Settled { claims, listed } = settle_files(alloc, rules.items(), tree.files.items())?;
    let ranges = FillMap::first_wins(alloc, claims)?;
    let planned = filled_bytes(alloc, &ranges)?;
    if let Some((at, rule)) = guarded(&tree.guard, &ranges, &planned) {
        return Err(PlanFault::MeetsGuard { at, rule });
    }
    if ranges.items().len() > MAX_RANGES {
        return Err(PlanFault::Limit(Bound::Ranges, MAX_RANGES as u64));
    }
    let lines = listing_of(alloc, tree, &listed, &ranges)?;
    Ok(Plan {
        image_len: tree.image_len,
        ranges,
        listing: Listing::from_vec(lines),
    })
}
