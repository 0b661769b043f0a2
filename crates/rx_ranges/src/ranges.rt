//! Sets of bytes, as sorted lists of ranges.
ghost use Rattle.std.specs.Prelude.{◌≡◌, ◌+◌, ◌++◌, ◌&&◌, ℕ, All, IfOk};
ghost use Rattle.std.specs.List.Sorted.{IsNonDecreasingBy};
ghost use Rattle.rx_ranges.specs.Hull.{hull, unless_empty};
ghost use Rattle.range_defs.specs.Places.{covers, IsLeast, IsRangeList, EndsInReach};

mod sets;

use crate::items::Items;
use crate::text::NoMemory;
use range_defs::Range;
use std::alloc::Global;
use std::marker::Model;

/// A set of bytes: ranges that are sorted, not empty, don't touch and end in reach.
#[derive(Debug, Drop)]
pub struct RangeList {
    ranges: Items<Range>,
}

impl Model for RangeList {
    ghost use Rattle.std.specs.Prelude.{List, All};
    ghost use Rattle.range_defs.specs.declared.Range.{Range};
    ghost use Rattle.range_defs.specs.Places.{IsRangeList, EndsInReach};

    ghost Value = { List Range };

    ghost view = { λ l. l.ranges };

    ghost invariant = { λ l. IsRangeList l.ranges × All EndsInReach l.ranges };
}

impl RangeList {
    /// The set of the bytes of these ranges. They may come in any order and overlap, and an empty one adds no byte.
    pub fn from_ranges(alloc: Global, ranges: Vec<Range>) -> Result<RangeList, NoMemory>
        requires { All EndsInReach ranges.items }
        ensures bytes { IfOk result (λ list. (byte : ℕ) → covers list byte ≡ covers ranges.items byte) }
        ensures kept { IfOk result IsRangeList }
    {
        let mut sorted = ranges;
        sorted.sort_unstable_by_key(|range| range.at);
        let mut ranges = merged(alloc, &sorted)?;
        ranges.shrink_to_fit();
        Ok(RangeList {
            ranges: Items::from_vec(ranges),
        })
    }

    /// The least byte that both sets have; None where they share none.
    pub fn meets(&self, other: &RangeList) -> Option<u64>
        ensures { IsLeast (λ byte. covers self.now byte && covers other.now byte) result }
    {
        let ours = self.items();
        let others = other.items();
        let mut left = 0;
        let mut right = 0;
        while left < ours.len() && right < others.len() {
            let mine = ours[left];
            let theirs = others[right];
            let at = mine.at.max(theirs.at);
            if at - mine.at >= mine.len {
                left += 1;
            } else if at - theirs.at >= theirs.len {
                right += 1;
            } else {
                return Some(at);
            }
        }
        None
    }

    /// The ranges that are kept: sorted, not empty, and no two touch.
    pub fn items(&self) -> &[Range]
        ensures items { result.now ≡ self.now }
        ensures kept { IsRangeList self.now }
        ensures reach { All EndsInReach self.now }
    {
        self.ranges.items()
    }
}

/// The byte right behind a range.
fn end(range: Range) -> u64
    requires { EndsInReach range }
    ensures { result ≡ range.at + range.len }
{
    range.at + range.len
}

/// The kept ranges of a set whose ranges are sorted by where they begin: those that overlap or touch are joined.
fn merged(alloc: Global, sorted: &[Range]) -> Result<Vec<Range>, NoMemory>
    requires reach { All EndsInReach sorted.now }
    requires sorted { IsNonDecreasingBy (λ range. range.at) sorted.now }
    ensures bytes { IfOk result (λ out. (byte : ℕ) → covers out.items byte ≡ covers sorted.now byte) }
    ensures kept { IfOk result (λ out. IsRangeList out.items) }
    ensures reach_after { IfOk result (λ out. All EndsInReach out.items) }
{
    let mut out = Vec::new(alloc);
    let mut last = Range { at: 0, len: 0 };
    for next in sorted {
        if next.at <= end(last) {
            last = joined(last, *next);
        } else {
            push_range(&mut out, last)?;
            last = *next;
        }
    }
    push_range(&mut out, last)?;
    Ok(out)
}

/// Appends a range, unless it is empty.
fn push_range(out: &mut Vec<Range>, range: Range) -> Result<(), NoMemory>
    ensures { IfOk result (λ _. out.new.items ≡ out.old.items ++ unless_empty range) }
{
    if range.len > 0 {
        out.push(range)?;
    }
    Ok(())
}

/// The range from where the first of two begins to where the last ends.
fn joined(a: Range, b: Range) -> Range
    requires reach_a { EndsInReach a }
    requires reach_b { EndsInReach b }
    ensures { result ≡ hull a b }
{
    let at = a.at.min(b.at);
    Range {
        at,
        len: end(a).max(end(b)) - at,
    }
}
