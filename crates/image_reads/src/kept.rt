//! The bytes at which a reader looked.
ghost use Rattle.std.specs.Prelude.{◌≡◌, ◌+◌, ◌^◌, ◌<◌, ◌≤◌, ◌++◌, ◌∷◌, ◌||◌, [], ℕ, IfSome, OnOk};
ghost use Rattle.image_reads.specs.Steps.{KeptWithin, SameBytes};
ghost use Rattle.range_defs.specs.Places.{in_range};

use range_defs::Range;
use std::alloc::AllocError;

/// Both ranges as one, where the second begins in the first or right behind it.
fn joined(first: Range, second: Range) -> Option<Range>
    requires fits { second.at + second.len < 2 ^ 64 }
    ensures bytes { IfSome result (λ both. (byte : ℕ) → in_range both byte ≡ (in_range first byte || in_range second byte)) }
    ensures ends { IfSome result (λ both. (end : ℕ) → first.at + first.len ≤ end → second.at + second.len ≤ end → both.at + both.len ≤ end) }
{
    if first.at <= second.at && second.at - first.at <= first.len {
        let len = first.len.max(second.at - first.at + second.len);
        Some(Range { at: first.at, len })
    } else {
        None
    }
}

/// Keeps the bytes of one more range. A range that goes on where the last one ends, or begins in it, makes that one longer: so a
/// reader that goes through an image in order keeps few of them.
pub fn keep(looked: &mut Vec<Range>, range: Range) -> Result<(), AllocError>
    requires fits { range.at + range.len < 2 ^ 64 }
    ensures bytes { OnOk result (SameBytes looked.new.items (looked.old.items ++ range ∷ [])) }
    ensures within { OnOk result (KeptWithin (range.at + range.len) looked.old.items looked.new.items) }
{
    if let Some(last) = looked.last_mut()
        && let Some(both) = joined(*last, range)
    {
        *last = both;
        return Ok(());
    }
    looked.push(range)?;
    Ok(())
}
