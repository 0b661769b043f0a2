//! Which rule fills which byte, as a sorted list of claims.
ghost use Rattle.std.specs.Prelude.{◌≡◌, ◌<◌, ◌≤◌, ◌&&◌, ℕ, All, IfOk, is_some, length};
ghost use Rattle.std.specs.List.{AllWithin};
ghost use Rattle.range_defs.specs.Claims.{painted, IsFillMap, HaveOneFill};
ghost use Rattle.range_defs.specs.AnyByte.{TellsIfAny};
ghost use Rattle.range_defs.specs.Places.{EndsInReach, in_range};

use crate::laying::{joined, with_claim};
use crate::text::NoMemory;
use range_defs::{Claim, Range};
use std::alloc::Global;
use std::marker::Model;

/// The rule and fill of each byte: claims that are sorted, not empty, don't overlap and end in reach; two that touch
/// have different rules.
#[derive(Debug, Drop)]
pub struct FillMap {
    claims: Vec<Claim>,
}

impl Model for FillMap {
    ghost use Rattle.std.specs.Prelude.{List, All};
    ghost use Rattle.range_defs.specs.declared.Claim.{Claim};
    ghost use Rattle.range_defs.specs.Claims.{IsFillMap};
    ghost use Rattle.range_defs.specs.Places.{EndsInReach};

    ghost Value = { List Claim };

    ghost view = { λ m. m.claims.items };

    ghost invariant = { λ m. IsFillMap m.claims.items × All (λ claim. EndsInReach claim.range) m.claims.items };
}

impl FillMap {
    /// The map in which each claimed byte has the least rule that claims it, with that rule's fill.
    pub fn first_wins(alloc: Global, claims: Vec<Claim>) -> Result<FillMap, NoMemory>
        requires reach { All (λ claim. EndsInReach claim.range) claims.items }
        requires one_fill { HaveOneFill claims.items }
        ensures bytes { IfOk result
            (λ map. (byte : ℕ) → painted map byte ≡ painted claims.items byte) }
        ensures kept { IfOk result IsFillMap }
    {
        let mut laid = Vec::new(alloc);
        for claim in &claims {
            laid = with_claim(alloc, &laid, *claim)?;
        }
        Ok(FillMap {
            claims: joined(alloc, &laid)?,
        })
    }

    /// The rule and the fill of a byte; None where no claim has it.
    pub fn holds(&self, byte: u64) -> Option<(u32, u8)>
        ensures { result ≡ painted self.now byte }
    {
        let begun = begun_by(&self.claims, byte);
        if begun == 0 {
            return None;
        }
        let claim = self.claims[begun - 1];
        if byte - claim.range.at < claim.range.len {
            Some((claim.rule, claim.fill))
        } else {
            None
        }
    }

    /// Whether a byte of a range is claimed.
    pub fn meets(&self, range: Range) -> bool
        requires { EndsInReach range }
        ensures { TellsIfAny (λ byte. is_some (painted self.now byte) && in_range range byte) result }
    {
        if range.len == 0 {
            return false;
        }
        let begun = begun_by(&self.claims, range.at + (range.len - 1));
        if begun == 0 {
            return false;
        }
        let last = self.claims[begun - 1];
        range.at.saturating_sub(last.range.at) < last.range.len
    }

    /// The map with these claims.
    pub fn from_sorted(items: Vec<Claim>) -> Self
        requires kept { IsFillMap items.items }
        requires reach { All (λ claim. EndsInReach claim.range) items.items }
        ensures { result ≡ items.items }
    {
        FillMap { claims: items }
    }

    /// The claims that are kept: sorted, not empty, none over another, and two that touch have different rules.
    pub fn items(&self) -> &[Claim]
        ensures items { result.now ≡ self.now }
        ensures kept { IsFillMap self.now }
        ensures reach { All (λ claim. EndsInReach claim.range) self.now }
    {
        self.claims.as_slice()
    }
}

/// How many claims of a map begin at a byte or in front of it: they are its first ones.
fn begun_by(claims: &[Claim], byte: u64) -> usize
    requires { IsFillMap claims.now }
    ensures within { result ≤ length claims.now }
    ensures begun { AllWithin (λ claim. claim.range.at ≤ byte) claims.now 0 result }
    ensures behind { AllWithin (λ claim. byte < claim.range.at) claims.now result (length claims.now) }
{
    claims.partition_point(|claim| claim.range.at <= byte)
}
