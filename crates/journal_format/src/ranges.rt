//! The ranges of a journal.
ghost use Rattle.std.specs.Prelude.{◌≡◌, ◌+◌, ◌*◌, ◌^◌, ◌<◌, ◌≤◌, ◌==◌, ◌&&◌, ℕ, None, List, not, nat_le, nat_lt, IfErr, IfOk, OnOk, length};
ghost use Rattle.bytes_defs.specs.Bytes.{part};
ghost use Rattle.bytes_defs.specs.Numbers.{little_at};
ghost use Rattle.journal_defs.specs.Checks as spec;
ghost use Rattle.journal_defs.specs.Reading.{image_len_in, claim_in, claims_in};
ghost use Rattle.rx_ranges.specs.declared.plan.TheConstants.{MAX_RANGES};
ghost use Rattle.disk_defs.specs.Disk.{size_of, told_of};
ghost use Rattle.disk_defs.specs.declared.Area.TheVariants.{Journal};
ghost use Rattle.journal_format.specs.Parts.{IsWindow, ReadsPart};
ghost use Rattle.journal_format.specs.Says.{IsCalm, FailsAs, IsReadCounted};

use crate::fault::JournalFault;
use crate::fields::{claim_of, first_failing};
use crate::window::Window;
use journal_defs::{HEADER_LEN, RANGE_LEN};
use range_defs::Claim;
use rx_ranges::MAX_RULE;
use rx_store::Store;
use std::alloc::Global;

/// Whether three bytes are zeros.
#[tactic(auto, using(crate::proofs::Steps::three_zeros))]
fn has_zeros(bytes: &[u8], at: usize) -> bool
    requires { at + 3 ≤ length bytes.now }
    ensures { result ≡ (little_at 3 bytes.now at == 0) }
{
    bytes[at] == 0 && bytes[at + 1] == 0 && bytes[at + 2] == 0
}

/// Whether this is the number of a rule.
pub(crate) fn is_rule(rule: u32) -> bool
    ensures { result ≡ spec.is_rule rule }
{
    1 <= rule && rule <= MAX_RULE
}

/// Whether a range begins at the last range's end or behind it, and in the image.
fn begins_behind(claim: &Claim, last_end: u64, image_len: u64) -> bool
    ensures { result ≡ (nat_le last_end claim.now.range.at && nat_lt claim.now.range.at image_len) }
{
    last_end <= claim.range.at && claim.range.at < image_len
}

/// Whether a range isn't empty, and ends in the image.
fn ends_inside(claim: &Claim, image_len: u64) -> bool
    ensures { result ≡ (nat_lt 0 claim.now.range.len && nat_le (claim.now.range.at + claim.now.range.len) image_len) }
{
    0 < claim.range.len
        && u128::from(claim.range.at) + u128::from(claim.range.len) <= u128::from(image_len)
}

/// Whether a range has a rule, and another than the last range where the two touch.
fn has_own_rule(claim: &Claim, last_end: u64, last_rule: u32) -> bool
    ensures { result ≡ (spec.is_rule claim.now.rule && not (last_end == claim.now.range.at && last_rule == claim.now.rule)) }
{
    is_rule(claim.rule) && !(last_end == claim.range.at && last_rule == claim.rule)
}

/// The checks of the range in these bytes, which stand at a place, where the last one ended here and had this rule.
fn range_checks(
    bytes: &[u8],
    at: u64,
    image_len: u64,
    last_end: u64,
    last_rule: u32,
) -> [(u64, bool); 4]
    requires bytes { length bytes.now ≡ 24 }
    requires place { at + 24 < 2 ^ 64 }
    ensures are { (whole : List ℕ) → part whole at 24 ≡ bytes.now → image_len ≡ image_len_in whole → result ≡ spec.range_checks whole at last_end last_rule }
    ensures inside { spec.first_failing result ≡ None → (claim_in bytes.now 0).range.at + (claim_in bytes.now 0).range.len ≤ image_len }
{
    let claim = claim_of(bytes);
    [
        (at, begins_behind(&claim, last_end, image_len)),
        (at + 8, ends_inside(&claim, image_len)),
        (at + 16, has_own_rule(&claim, last_end, last_rule)),
        (at + 21, has_zeros(bytes, 21)),
    ]
}

/// The range in these bytes, which stand at a place, where it passes its checks.
fn range_at(
    bytes: &[u8],
    at: u64,
    image_len: u64,
    last_end: u64,
    last_rule: u32,
) -> Result<Claim, JournalFault>
    requires bytes { length bytes.now ≡ 24 }
    requires place { at + 24 < 2 ^ 64 }
    ensures says { (whole : List ℕ) → part whole at 24 ≡ bytes.now → image_len ≡ image_len_in whole → FailsAs (spec.range_checks whole at last_end last_rule) result }
    ensures is { IfOk result (λ claim. claim ≡ claim_in bytes.now 0) }
    ensures ends { IfOk result (λ claim. claim.range.at + claim.range.len ≤ image_len) }
    ensures calm { IfErr result IsCalm }
{
    let checks = range_checks(bytes, at, image_len, last_end, last_rule);
    match first_failing(&checks) {
        None => Ok(claim_of(bytes)),
        Some(bad) => Err(JournalFault::Bad { at: bad }),
    }
}

/// Reads the range at a place, where it passes its checks.
fn read_range<S: Store>(
    window: &mut Window,
    store: &mut S,
    at: u64,
    image_len: u64,
    last_end: u64,
    last_rule: u32,
) -> Result<Claim, JournalFault>
    requires window { IsWindow (told_of Journal (S.state store.old)) (size_of Journal (S.state store.old)) window.old }
    requires inside { at + 24 ≤ size_of Journal (S.state store.old) }
    requires place { at + 24 < 2 ^ 64 }
    ensures read { ReadsPart (told_of Journal (S.state store.old)) at (λ _. at + 24) (λ whole. image_len ≡ image_len_in whole)
        (λ whole. spec.range_checks whole at last_end last_rule) (λ claim whole. claim ≡ claim_in whole at) result }
    ensures ends { IfOk result (λ claim. claim.range.at + claim.range.len ≤ image_len) }
    ensures window { OnOk result (IsWindow (told_of Journal (S.state store.old)) (size_of Journal (S.state store.old)) window.new) }
    ensures same { S.state store.new ≡ S.state store.old }
    ensures counted { IsReadCounted result (S.faults store.old) (S.faults store.new) }
{
    window.reach(store, at, RANGE_LEN as usize)?;
    let bytes = window.bytes_at(at, RANGE_LEN as usize);
    range_at(bytes, at, image_len, last_end, last_rule)
}

/// Reads the ranges of a journal, where all pass their checks.
pub(crate) fn read_ranges<S: Store>(
    alloc: Global,
    window: &mut Window,
    store: &mut S,
    count: u64,
    image_len: u64,
) -> Result<Vec<Claim>, JournalFault>
    requires window { IsWindow (told_of Journal (S.state store.old)) (size_of Journal (S.state store.old)) window.old }
    requires inside { 40 + 24 * count ≤ size_of Journal (S.state store.old) }
    requires few { count ≤ MAX_RANGES }
    ensures read { ReadsPart (told_of Journal (S.state store.old)) 40 (λ _. 40 + 24 * count) (λ whole. image_len ≡ image_len_in whole)
        (λ whole. spec.ranges_checks whole 40 0 0 count) (λ claims whole. claims.items ≡ claims_in whole 40 count) result }
    ensures window { OnOk result (IsWindow (told_of Journal (S.state store.old)) (size_of Journal (S.state store.old)) window.new) }
    ensures same { S.state store.new ≡ S.state store.old }
    ensures counted { IsReadCounted result (S.faults store.old) (S.faults store.new) }
{
    let mut claims = Vec::with_capacity(alloc, count as usize)?;
    let mut last_end = 0;
    let mut last_rule = 0;
    for i in 0..count {
        let at = HEADER_LEN + RANGE_LEN * i;
        let claim = read_range(window, store, at, image_len, last_end, last_rule)?;
        claims.push(claim)?;
        last_end = claim.range.at + claim.range.len;
        last_rule = claim.rule;
    }
    Ok(claims)
}
