//! What the rules claim of each file.
ghost use Rattle.std.specs.Prelude.{◌≡◌, ◌&&◌, ◌++◌, Some, None, IfNone, IfOk, IfSome, OnOk, map, nat_eq};
ghost use Rattle.std.specs.Cmp.Lexicographic.{pointwise};
ghost use Rattle.std.specs.List.{flat_map, list_any};
ghost use Rattle.rule_defs.specs.Settle.{last_component, holds, is_plain_file, settling_rule, disk_range, content_range, claim_by, claims_on};
ghost use Rattle.plan_defs.specs.Plan.{all_claims, claim_some, listed_as};

use range_defs::{Claim, Range};
use rule_defs::{Action, Condition, Rule};
use rx_ranges::{NoMemory, Piece, PieceKind, Text};
use rx_tree::{FileEntry, Kind, Part, Role};
use std::alloc::Global;

/// What stands behind the last slash of a path.
fn last_component(path: &[u8]) -> &[u8]
    ensures { result.now ≡ last_component path.now }
{
    let mut start = path.len();
    while start > 0 && path[start - 1] != b'/' {
        start -= 1;
    }
    &path[start..]
}

/// Whether one of these paths has this last component.
fn any_ends_in(names: &[Text], name: &[u8]) -> bool
    ensures { result ≡ list_any (λ path. pointwise nat_eq (last_component path) name.now) names.now }
{
    names
        .iter()
        .any(|path| last_component(path.as_str().as_bytes()) == name)
}

/// Whether a condition holds of a file.
fn holds(condition: &Condition, file: &FileEntry) -> bool
    ensures { result ≡ holds condition.now file.now }
{
    match condition {
        Condition::FileName(name) => any_ends_in(file.names.items(), name.as_str().as_bytes()),
    }
}

/// Whether a rule settles a file.
fn settles(rule: &Rule, file: &FileEntry) -> bool
    ensures { result ≡ (is_plain_file file.now.kind && holds rule.now.condition file.now) }
{
    file.kind == Kind::File && holds(&rule.condition, file)
}

/// The rule that settles a file: the first whose condition holds.
fn settling_rule<'a>(rules: &'a [Rule], file: &FileEntry) -> Option<&'a Rule>
    ensures found { IfSome result (λ rule. settling_rule rules.now file.now ≡ Some rule.now) }
    ensures none { IfNone result (settling_rule rules.now file.now ≡ None) }
{
    for rule in rules {
        if settles(rule, file) {
            return Some(rule);
        }
    }
    None
}

/// Appends the bytes of the image that pieces have.
pub(crate) fn push_disk_ranges(ranges: &mut Vec<Range>, pieces: &[Piece]) -> Result<(), NoMemory>
    ensures { IfOk result (λ _. ranges.new.items ≡ ranges.old.items ++ flat_map disk_range pieces.now) }
{
    for piece in pieces {
        if piece.kind == PieceKind::Disk {
            ranges.push(Range {
                at: piece.at,
                len: piece.len,
            })?;
        }
    }
    Ok(())
}

/// Appends the bytes of the image that the content among these parts has.
fn push_content_ranges(ranges: &mut Vec<Range>, parts: &[Part]) -> Result<(), NoMemory>
    ensures { IfOk result (λ _. ranges.new.items ≡ ranges.old.items ++ flat_map content_range parts.now) }
{
    for part in parts {
        if part.role == Role::Content {
            push_disk_ranges(ranges, part.pieces.items())?;
        }
    }
    Ok(())
}

/// A rule's claim on a range.
fn claim_by(rule: &Rule, range: Range) -> Claim
    ensures { result ≡ claim_by rule.now range }
{
    let Action::Fill(fill) = rule.action;
    Claim {
        range,
        rule: rule.number,
        fill,
    }
}

/// A rule's claims on ranges.
fn claims_by(alloc: Global, rule: &Rule, ranges: &[Range]) -> Result<Vec<Claim>, NoMemory>
    ensures { IfOk result (λ claims. claims.items ≡ map (claim_by rule.now) ranges.now) }
{
    ranges
        .iter()
        .map(|range| claim_by(rule, *range))
        .collect(alloc)
}

/// Whether claims have a byte.
fn claim_some(claims: &[Claim]) -> bool
    ensures { result ≡ claim_some claims.now }
{
    claims.iter().any(|claim| claim.range.len > 0)
}

/// Appends what the rules claim of a file, and gives the number of the rule under which it is listed as settled.
fn settle(
    alloc: Global,
    claims: &mut Vec<Claim>,
    rules: &[Rule],
    file: &FileEntry,
) -> Result<Option<u32>, NoMemory>
    ensures claims { OnOk result (claims.new.items ≡ claims.old.items ++ claims_on rules.now file.now) }
    ensures listed { IfOk result (λ number. number ≡ listed_as rules.now file.now) }
{
    let Some(rule) = settling_rule(rules, file) else {
        return Ok(None);
    };
    let mut ranges = Vec::new(alloc);
    push_content_ranges(&mut ranges, file.parts.items())?;
    let own = claims_by(alloc, rule, &ranges)?;
    claims.extend_from_slice(&own)?;
    Ok(claim_some(&own).then_some(rule.number))
}

/// What the rules make of files: all claims on them, and for each file the number of the rule under which it is listed
/// as settled.
#[derive(Drop)]
pub(crate) struct Settled {
    pub(crate) claims: Vec<Claim>,
    pub(crate) listed: Vec<Option<u32>>,
}

/// Settles each file once.
pub(crate) fn settle_files(
    alloc: Global,
    rules: &[Rule],
    files: &[FileEntry],
) -> Result<Settled, NoMemory>
    ensures claims { IfOk result (λ settled. settled.claims.items ≡ all_claims rules.now files.now) }
    ensures listed { IfOk result (λ settled. settled.listed.items ≡ map (listed_as rules.now) files.now) }
{
    let mut claims = Vec::new(alloc);
    let mut listed = Vec::new(alloc);
    for file in files {
        listed.push(settle(alloc, &mut claims, rules, file)?)?;
    }
    Ok(Settled { claims, listed })
}
