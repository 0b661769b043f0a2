//! Laws of the kept lists: each is the one list of its set of bytes, and it is that of the longest ranges or claims.
ghost use Rattle.std.specs.Prelude.{◌≡◌, ◌+◌, ◌<◌, ◌≤◌, ℕ, All, Bool, false, List, Option};
ghost use Rattle.range_defs.specs.Claims.{painted, longest_claims, IsFillMap, NeighboursAgree};
ghost use Rattle.range_defs.specs.Places.{covers, least_below, longest_ranges, IsLeast, IsRangeList};
ghost use Rattle.range_defs.specs.declared.Claim.{Claim};
ghost use Rattle.range_defs.specs.declared.Range.{Range};

/// Two lists of ranges in the kept form that have the same bytes are one list.
#[tactic(auto, using(range_defs::proofs::RangeLaws::same_range_list))]
pub fn one_list_for_each_set()
    ensures { (a b : List Range) → IsRangeList a → IsRangeList b
        → ((byte : ℕ) → covers a byte ≡ covers b byte) → a ≡ b }
{}

/// A list of ranges in the kept form is the list of the longest ranges of its bytes.
#[tactic(auto, using(range_defs::proofs::RangeLaws::same_as_longest_ranges))]
pub fn kept_ranges_are_longest()
    ensures { (list : List Range) (end : ℕ) → IsRangeList list
        → All (λ range. range.at + range.len ≤ end) list → list ≡ longest_ranges (covers list) 0 end }
{}

/// The longest ranges of the bytes that pass a test are in the kept form, have those bytes and end with the last.
#[tactic(auto, using(range_defs::proofs::RangeLaws::longest_ranges_kept, range_defs::proofs::RangeLaws::longest_ranges_covers, range_defs::proofs::RangeLaws::longest_ranges_ends))]
pub fn longest_ranges_are_kept()
    ensures kept { (test : ℕ → Bool) (end : ℕ) → IsRangeList (longest_ranges test 0 end) }
    ensures bytes { (test : ℕ → Bool) (end byte : ℕ) → byte < end → covers (longest_ranges test 0 end) byte ≡ test byte }
    ensures ends { (test : ℕ → Bool) (end : ℕ) → All (λ range. range.at + range.len ≤ end) (longest_ranges test 0 end) }
{}

/// Two lists of claims in the kept form that give each byte the same rule and fill are one list.
#[tactic(auto, using(range_defs::proofs::ClaimLaws::same_fill_map))]
pub fn one_list_for_each_filling()
    ensures { (a b : List Claim) → IsFillMap a → IsFillMap b
        → ((byte : ℕ) → painted a byte ≡ painted b byte) → a ≡ b }
{}

/// A list of claims in the kept form is the list of the longest claims of equal rule.
#[tactic(auto, using(range_defs::proofs::ClaimLaws::same_as_longest_claims))]
pub fn kept_claims_are_longest()
    ensures { (list : List Claim) (end : ℕ) → IsFillMap list
        → All (λ claim. claim.range.at + claim.range.len ≤ end) list → list ≡ longest_claims (painted list) 0 end }
{}

/// The longest claims of equal rule are in the kept form and end with the last byte; each byte has the function's rule
/// and fill, where bytes side by side that have one rule have one fill.
#[tactic(auto, using(range_defs::proofs::ClaimLaws::longest_claims_kept, range_defs::proofs::ClaimLaws::longest_claims_paint, range_defs::proofs::ClaimLaws::longest_claims_ends))]
pub fn longest_claims_are_kept()
    ensures kept { (paint : ℕ → Option (ℕ × ℕ)) (end : ℕ) → IsFillMap (longest_claims paint 0 end) }
    ensures bytes { (paint : ℕ → Option (ℕ × ℕ)) (end byte : ℕ) → NeighboursAgree paint → byte < end
        → painted (longest_claims paint 0 end) byte ≡ paint byte }
    ensures ends { (paint : ℕ → Option (ℕ × ℕ)) (end : ℕ)
        → All (λ claim. claim.range.at + claim.range.len ≤ end) (longest_claims paint 0 end) }
{}

/// The least byte that passes a test is the least below a number from which on no byte passes.
#[tactic(auto, using(range_defs::proofs::LeastLaws::same_as_least_below))]
pub fn least_byte_is_least_below()
    ensures { (test : ℕ → Bool) (end : ℕ) (answer : Option ℕ) → IsLeast test answer
        → ((byte : ℕ) → end ≤ byte → test byte ≡ false) → answer ≡ least_below test end }
{}
