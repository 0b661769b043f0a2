//! Sets of ranges, maps of fills and lists, with values that are worked out by hand.
ghost use Rattle.std.specs.Prelude.{◌≡◌};

use range_defs::{Claim, Range};
use rx_ranges::{
    FillMap, ListKind, Listed, Listing, NoMemory, Piece, PieceKind, Pieces, RangeList, Text,
};
use std::alloc::Global;
use std::process::Abort;
use std::test::Fail;

/// Compares ranges with those that are wanted.
fn are(rt: &impl Abort, found: &[Range], wanted: &[Range]) {
    assert_eq!(*rt; found, wanted);
}

const JOINED: &[Range] = &[Range { at: 3, len: 2 }, Range { at: 10, len: 14 }];

/// The set of some ranges that touch, overlap or are empty: the ranges of `JOINED`.
fn joined(alloc: Global) -> Result<RangeList, NoMemory> {
    let mixed = vec![in alloc;
        Range { at: 14, len: 6 },
        Range { at: 7, len: 0 },
        Range { at: 20, len: 4 },
        Range { at: 3, len: 2 },
        Range { at: 10, len: 5 },
    ]?;
    RangeList::from_ranges(alloc, mixed)
}

#[test]
fn ranges_that_touch_are_joined(rt: HostRuntime) -> Result<(), Fail> {
    let set = joined(rt.alloc())?;
    are(&rt, set.items(), JOINED);
    Ok(())
}

#[test]
fn sets_beside_one_another_do_not_meet(rt: HostRuntime) -> Result<(), Fail> {
    let ranges = vec![in rt.alloc(); Range { at: 24, len: 9 }, Range { at: 5, len: 5 }]?;
    let beside = RangeList::from_ranges(rt.alloc(), ranges)?;
    assert!(rt; joined(rt.alloc())?.meets(&beside).is_none());
    Ok(())
}

#[test]
fn sets_meet_at_the_least_shared_byte(rt: HostRuntime) -> Result<(), Fail> {
    let ranges = vec![in rt.alloc(); Range { at: 22, len: 9 }, Range { at: 0, len: 3 }]?;
    let over = RangeList::from_ranges(rt.alloc(), ranges)?;
    assert!(rt; joined(rt.alloc())?.meets(&over) == Some(22));
    Ok(())
}

fn tens(alloc: Global) -> Result<RangeList, NoMemory> {
    let ranges = vec![in alloc; Range { at: 10, len: 10 }, Range { at: 40, len: 10 }]?;
    RangeList::from_ranges(alloc, ranges)
}

fn few(alloc: Global) -> Result<RangeList, NoMemory> {
    let ranges = vec![in alloc; Range { at: 14, len: 2 }, Range { at: 20, len: 5 }]?;
    RangeList::from_ranges(alloc, ranges)
}

const EITHER: &[Range] = &[Range { at: 10, len: 15 }, Range { at: 40, len: 10 }];

#[test]
fn sets_unite(rt: HostRuntime) -> Result<(), Fail> {
    let either = tens(rt.alloc())?.union(rt.alloc(), &few(rt.alloc())?)?;
    are(&rt, either.items(), EITHER);
    Ok(())
}

const ALONE: &[Range] = &[
    Range { at: 10, len: 4 },
    Range { at: 16, len: 4 },
    Range { at: 40, len: 10 },
];

#[test]
fn a_set_is_taken_from_another(rt: HostRuntime) -> Result<(), Fail> {
    let alone = tens(rt.alloc())?.subtract(rt.alloc(), &few(rt.alloc())?)?;
    are(&rt, alone.items(), ALONE);
    Ok(())
}

const ENDLESS: Range = Range {
    at: 19,
    len: u64::MAX,
};

const INSIDE: &[Range] = &[Range { at: 19, len: 1 }, Range { at: 40, len: 10 }];

#[test]
fn a_set_is_cut_to_a_range(rt: HostRuntime) -> Result<(), Fail> {
    let inside = tens(rt.alloc())?.cut(rt.alloc(), ENDLESS)?;
    are(&rt, inside.items(), INSIDE);
    Ok(())
}

fn claim(at: u64, len: u64, rule: u32, fill: u8) -> Claim
    ensures { result ≡ record { range = record { at = at; len = len }; rule = rule; fill = fill } }
{
    Claim {
        range: Range { at, len },
        rule,
        fill,
    }
}

fn overlaid(alloc: Global) -> Result<FillMap, NoMemory> {
    let claims = vec![in alloc;
        claim(86016, 3, 3, 0x32),
        claim(86016, 1, 2, 0x31),
        claim(4, 4, 1, 0),
        claim(0, 4, 1, 0),
        claim(100, 0, 3, 0x32),
    ]?;
    FillMap::first_wins(alloc, claims)
}

#[test]
fn least_rule_wins(rt: HostRuntime) -> Result<(), Fail> {
    let kept = [
        claim(0, 8, 1, 0),
        claim(86016, 1, 2, 0x31),
        claim(86017, 2, 3, 0x32),
    ];
    assert!(rt; overlaid(rt.alloc())?.items() == kept.as_slice());
    Ok(())
}

#[test]
fn a_map_keeps_its_claims(rt: HostRuntime) -> Result<(), Fail> {
    let map = FillMap::from_sorted(vec![in rt.alloc(); claim(2, 3, 1, 9)]?);
    assert!(rt; map.items() == [claim(2, 3, 1, 9)].as_slice());
    Ok(())
}

const HELD: &[(u64, Option<(u32, u8)>)] = &[
    (7, Some((1, 0))),
    (8, None),
    (86018, Some((3, 0x32))),
    (86019, None),
];

#[test]
fn a_byte_has_the_rule_and_fill_of_its_claim(rt: HostRuntime) -> Result<(), Fail> {
    let map = overlaid(rt.alloc())?;
    for (byte, held) in HELD {
        assert!(rt; map.holds(*byte) == *held, "{byte}");
    }
    Ok(())
}

const ZEROS: Piece = Piece {
    from: 0,
    len: 3,
    kind: PieceKind::Zero,
    at: 0,
};

#[test]
fn lists_keep_their_items(rt: HostRuntime) -> Result<(), Fail> {
    let one = Pieces::from_vec(vec![in rt.alloc(); ZEROS]?);
    assert!(rt; one.items() == [ZEROS].as_slice());
    let two = Pieces::from_vec(vec![in rt.alloc(); ZEROS, ZEROS]?);
    assert!(rt; two.items() == [ZEROS, ZEROS].as_slice());
    Ok(())
}

#[test]
fn a_listing_keeps_its_lines(rt: HostRuntime) -> Result<(), Fail> {
    let listed = Listed {
        kind: ListKind::File,
        rule: 1,
        path: Text::from_str(rt.alloc(), "/a")?,
    };
    let listing = Listing::from_vec(vec![in rt.alloc(); listed]?);
    let lines = listing.items();
    assert!(rt; lines.len() == 1 && lines[0].path.as_str() == "/a");
    Ok(())
}
