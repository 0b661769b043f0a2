//! Claims laid over one another: each byte goes to the claim with the least rule.
ghost use Rattle.std.specs.Prelude.{◌≡◌, ◌+◌, ◌++◌, ℕ, All, IfOk};
ghost use Rattle.range_defs.specs.Claims.{painted, paint_of, lesser_paint, IsFillMap};
ghost use Rattle.range_defs.specs.Places.{EndsInReach};
ghost use Rattle.rx_ranges.specs.Laying.{AreApart, HasFill, part_of, shared_part, laid_on, unless_empty};

use crate::text::NoMemory;
use range_defs::{Claim, Range};
use std::alloc::Global;

/// Claims that lie apart, with one more claim: it has each of its bytes for which no lesser or equal rule is there.
pub(crate) fn with_claim(
    alloc: Global,
    laid: &[Claim],
    claim: Claim,
) -> Result<Vec<Claim>, NoMemory>
    requires reach { EndsInReach claim.range }
    requires reach_before { All (λ claim. EndsInReach claim.range) laid.now }
    requires apart_before { AreApart 0 laid.now }
    ensures bytes { IfOk result
        (λ out. (byte : ℕ) → painted out.items byte ≡ lesser_paint (painted laid.now byte) (paint_of claim byte)) }
    ensures reach_after { IfOk result (λ out. All (λ claim. EndsInReach claim.range) out.items) }
    ensures apart_after { IfOk result (λ out. AreApart 0 out.items) }
    ensures fills { (fill : ℕ → ℕ) → All (HasFill fill) laid.now → HasFill fill claim
        → IfOk result (λ out. All (HasFill fill) out.items) }
{
    let mut out = Vec::new(alloc);
    let mut rest = claim;
    for next in laid {
        lay_on(&mut out, *next, rest)?;
        rest = part(rest, end(*next), end(rest));
    }
    push_part(&mut out, rest)?;
    Ok(out)
}

/// The bytes of a claim up to the end of the next claim that is laid, and those of the next.
#[tactic(auto, unfolding(crate::specs::Laying::laid_on))]
fn lay_on(out: &mut Vec<Claim>, next: Claim, claim: Claim) -> Result<(), NoMemory>
    requires reach { EndsInReach claim.range }
    requires next_reach { EndsInReach next.range }
    ensures { IfOk result (λ _. out.new.items ≡ out.old.items ++ laid_on next claim) }
{
    push_part(out, part(claim, claim.range.at, next.range.at))?;
    push_part(out, part(next, next.range.at, claim.range.at))?;
    push_part(out, shared(next, claim))?;
    push_part(out, part(next, end(claim), end(next)))
}

/// The bytes that two claims share, with the lesser rule of the two.
#[tactic(auto, unfolding(crate::specs::Laying::shared_part))]
fn shared(next: Claim, claim: Claim) -> Claim
    requires reach { EndsInReach claim.range }
    requires next_reach { EndsInReach next.range }
    ensures { result ≡ shared_part next claim }
{
    if next.rule <= claim.rule {
        part(next, claim.range.at, end(claim))
    } else {
        part(claim, next.range.at, end(next))
    }
}

/// The byte right behind a claim.
fn end(claim: Claim) -> u64
    requires { EndsInReach claim.range }
    ensures { result ≡ claim.range.at + claim.range.len }
{
    claim.range.at + claim.range.len
}

/// The bytes of a claim from one byte on to in front of another.
#[tactic(auto, unfolding(crate::specs::Laying::part_of))]
fn part(claim: Claim, from: u64, to: u64) -> Claim
    requires { EndsInReach claim.range }
    ensures { result ≡ part_of claim from to }
{
    let at = claim.range.at.max(from);
    let len = end(claim).min(to).saturating_sub(at);
    Claim {
        range: Range { at, len },
        ..claim
    }
}

/// Appends a claim, unless it is empty.
#[tactic(auto, unfolding(crate::specs::Laying::unless_empty))]
fn push_part(out: &mut Vec<Claim>, claim: Claim) -> Result<(), NoMemory>
    ensures { IfOk result (λ _. out.new.items ≡ out.old.items ++ unless_empty claim) }
{
    if claim.range.len > 0 {
        out.push(claim)?;
    }
    Ok(())
}

/// Claims that lie apart, with those joined that touch and have one rule.
pub(crate) fn joined(alloc: Global, laid: &[Claim]) -> Result<Vec<Claim>, NoMemory>
    requires reach { All (λ claim. EndsInReach claim.range) laid.now }
    requires apart { AreApart 0 laid.now }
    requires one_fill { (fill : ℕ → ℕ) × All (HasFill fill) laid.now }
    ensures bytes { IfOk result (λ out. (byte : ℕ) → painted out.items byte ≡ painted laid.now byte) }
    ensures kept { IfOk result (λ out. IsFillMap out.items) }
    ensures reach_after { IfOk result (λ out. All (λ claim. EndsInReach claim.range) out.items) }
{
    let mut out = Vec::new(alloc);
    let Some((first, others)) = laid.split_first() else {
        return Ok(out);
    };
    let mut last = *first;
    for next in others {
        if next.rule == last.rule && next.range.at == end(last) {
            last.range.len += next.range.len;
        } else {
            out.push(last)?;
            last = *next;
        }
    }
    out.push(last)?;
    Ok(out)
}
