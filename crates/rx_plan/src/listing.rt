//! Which names of files are listed.
ghost use Rattle.std.specs.Prelude.{◌≡◌, ◌++◌, ◌&&◌, ℕ, All, List, IfOk, OnOk, is_some, length, map};
ghost use Rattle.std.specs.List.{flat_map};
ghost use Rattle.range_defs.specs.AnyByte.{TellsIfAny};
ghost use Rattle.range_defs.specs.Claims.{painted};
ghost use Rattle.range_defs.specs.Places.{covers, EndsInReach};
ghost use Rattle.range_defs.specs.declared.TheConstants.{REACH};
ghost use Rattle.rx_ranges.specs.Path.{IsPath};
ghost use Rattle.rx_tree.specs.Within.{ArePartsWithin};
ghost use Rattle.rule_defs.specs.declared.Rule.{Rule as RuleValue};
ghost use Rattle.plan_defs.specs.Plan.{is_painted, part_ranges, touches_planned, file_lines, listed_as, lines_of, HasPath};

use crate::settling::push_disk_ranges;
use range_defs::Range;
use rx_ranges::{FillMap, ListKind, Listed, NoMemory, Text};
use rx_tree::{FileEntry, Part, Tree};
use std::alloc::Global;

/// Appends the bytes of the image that these parts touch.
fn push_touched_ranges(ranges: &mut Vec<Range>, parts: &[Part]) -> Result<(), NoMemory>
    ensures { IfOk result (λ _. ranges.new.items ≡ ranges.old.items ++ flat_map part_ranges parts.now) }
{
    for part in parts {
        push_disk_ranges(ranges, part.pieces.items())?;
        ranges.extend_from_slice(part.slack.items())?;
    }
    Ok(())
}

/// Whether a byte of one of these ranges is filled.
fn any_meets(fills: &FillMap, ranges: &[Range]) -> bool
    requires { All EndsInReach ranges.now }
    ensures { TellsIfAny (λ byte. is_some (painted fills.now byte) && covers ranges.now byte) result }
{
    for range in ranges {
        if fills.meets(*range) {
            return true;
        }
    }
    false
}

/// Whether a file touches a filled byte.
fn touches(alloc: Global, fills: &FillMap, file: &FileEntry) -> Result<bool, NoMemory>
    requires { ArePartsWithin REACH file.now.parts }
    ensures { IfOk result (λ touches. (len : ℕ) → ArePartsWithin len file.now.parts
        → touches ≡ touches_planned len (is_painted fills.now) file.now) }
{
    let mut ranges = Vec::new(alloc);
    push_touched_ranges(&mut ranges, file.parts.items())?;
    Ok(any_meets(fills, &ranges))
}

/// Appends a line for each name of a file.
fn push_lines(
    alloc: Global,
    lines: &mut Vec<Listed>,
    kind: ListKind,
    rule: u32,
    names: &[Text],
) -> Result<(), NoMemory>
    requires listed { All HasPath lines.old.items }
    requires paths { All IsPath names.now }
    ensures lines { IfOk result (λ _. lines.new.items
        ≡ lines.old.items ++ map (λ name. record { kind = kind; rule = rule; path = name }) names.now) }
    ensures paths { OnOk result (All HasPath lines.new.items) }
{
    for name in names {
        lines.push(Listed {
            kind,
            rule,
            path: Text::from_str(alloc, name.as_str())?,
        })?;
    }
    Ok(())
}

/// Appends the lines of a file: of one that is listed as settled under this number, or else of an alias.
fn push_lines_of(
    alloc: Global,
    lines: &mut Vec<Listed>,
    listed: Option<u32>,
    fills: &FillMap,
    file: &FileEntry,
) -> Result<(), NoMemory>
    requires within { ArePartsWithin REACH file.now.parts }
    requires listed { All HasPath lines.old.items }
    ensures lines { IfOk result (λ _. (len : ℕ) → ArePartsWithin len file.now.parts
        → lines.new.items ≡ lines.old.items ++ file_lines len (is_painted fills.now) listed file.now) }
    ensures paths { OnOk result (All HasPath lines.new.items) }
{
    if let Some(rule) = listed {
        return push_lines(alloc, lines, ListKind::File, rule, file.names.items());
    }
    if touches(alloc, fills, file)? {
        return push_lines(alloc, lines, ListKind::Alias, 0, file.names.items());
    }
    Ok(())
}

/// The listing of a tree's files, of which these are the numbers under which they are listed as settled.
pub(crate) fn listing_of(
    alloc: Global,
    tree: &Tree,
    listed: &[Option<u32>],
    fills: &FillMap,
) -> Result<Vec<Listed>, NoMemory>
    requires { length listed.now ≡ length tree.now.files }
    ensures lines { IfOk result (λ lines. (rules : List RuleValue) → listed.now ≡ map (listed_as rules) tree.now.files
        → lines.items ≡ flat_map (lines_of rules tree.now.image_len (is_painted fills.now)) tree.now.files) }
    ensures paths { IfOk result (λ lines. All HasPath lines.items) }
{
    let files = tree.files.items();
    let mut lines = Vec::new(alloc);
    for i in 0..files.len() {
        push_lines_of(alloc, &mut lines, listed[i], fills, &files[i])?;
    }
    Ok(lines)
}
