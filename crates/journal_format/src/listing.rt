//! The listing of a journal.
ghost use Rattle.std.specs.Prelude.{◌≡◌, ◌+◌, ◌^◌, ◌<◌, ◌≤◌, ◌==◌, ◌||◌, ◌∷◌, ℕ, None, List, [], true, false, take, IfErr, IfOk, OnOk, MatchOption, length};
ghost use Rattle.std.specs.List.{list_all};
ghost use Rattle.bytes_defs.specs.Bytes.{part};
ghost use Rattle.disk_defs.specs.Disk.{size_of, told_of};
ghost use Rattle.disk_defs.specs.declared.Area.TheVariants.{Journal};
ghost use Rattle.journal_defs.specs.Checks as checks_spec;
ghost use Rattle.journal_defs.specs.Reading as reading_spec;
ghost use Rattle.journal_defs.specs.Reading.{path_len_in, line_in, line_end, lines_in};
ghost use Rattle.journal_format.specs.Header.{front_in};
ghost use Rattle.journal_format.specs.Parts.{Always, IsWindow, ReadsPart};
ghost use Rattle.journal_format.specs.Says.{IsCalm, FailsAs, IsReadCounted};
ghost use Rattle.rx_ranges.specs.Path.{begins_with_slash, is_printed};
ghost use Rattle.rx_ranges.specs.PlanChecks.{listed_len};

use crate::fault::JournalFault;
use crate::fields::first_failing;
use crate::ranges::is_rule;
use crate::window::Window;
use bytes_defs::{Order, u16_at, u32_at};
use rx_ranges::{ListKind, Listed, Text};
use rx_store::Store;
use std::alloc::Global;

/// Whether no byte of a path is a control character.
fn all_printed(path: &[u8]) -> bool
    ensures { result ≡ list_all is_printed path.now }
{
    path.iter().all(|byte| 0x20 <= *byte && *byte != 0x7F)
}

/// Whether a path begins with a slash.
fn is_rooted(path: &[u8]) -> bool
    ensures { result ≡ begins_with_slash path.now }
{
    !path.is_empty() && path[0] == b'/'
}

/// The text of a path.
#[tactic(auto, using(crate::proofs::Steps::no_text_is_no_path, crate::proofs::Steps::path_of_text))]
fn as_path(bytes: &[u8]) -> Option<&str>
    ensures { MatchOption result (checks_spec.is_path bytes.now ≡ false)
        (λ text. (text.now ≡ bytes.now) × (checks_spec.is_path bytes.now ≡ true)) }
{
    let Ok(text) = str::from_utf8(bytes) else {
        return None;
    };
    if is_rooted(bytes) && all_printed(bytes) {
        Some(text)
    } else {
        None
    }
}

/// Whether a line of this kind may have this rule.
fn is_listed_rule(kind: u8, rule: u32) -> bool
    ensures { result ≡ checks_spec.is_listed_rule kind rule }
{
    if kind == 1 { is_rule(rule) } else { rule == 0 }
}

/// The kind of a line with this byte.
fn kind_of(byte: u8) -> ListKind
    ensures { result ≡ reading_spec.kind_of byte }
{
    if byte == 1 {
        ListKind::File
    } else {
        ListKind::Alias
    }
}

/// What stands of a line in front of its path.
#[derive(Clone, Copy)]
pub(crate) struct Front {
    kind: ListKind,
    rule: u32,
    path_len: u16,
}

/// What stands in the 7 bytes of a line in front of its path.
fn front_of(bytes: &[u8]) -> Front
    requires { length bytes.now ≡ 7 }
    ensures { result ≡ front_in bytes.now 0 }
{
    Front {
        kind: kind_of(bytes[0]),
        rule: u32_at(Order::Little, bytes, 1),
        path_len: u16_at(Order::Little, bytes, 5),
    }
}

/// Whether this is the byte of a kind of line.
fn is_kind(byte: u8) -> bool
    ensures { result ≡ (byte == 1 || byte == 2) }
{
    byte == 1 || byte == 2
}

/// The checks of a line in front of its path.
fn front_checks(bytes: &[u8], at: u64, end: u64) -> [(u64, bool); 3]
    requires bytes { length bytes.now ≡ 7 }
    requires room { at + 7 ≤ end }
    requires end { end < 2 ^ 32 }
    ensures are { (whole : List ℕ) → part whole at 7 ≡ bytes.now → result ≡ take 3 (checks_spec.line_checks whole end at) }
    ensures inside { checks_spec.first_failing result ≡ None → at + (7 + path_len_in bytes.now 0) ≤ end }
{
    let kind = bytes[0];
    let path_len = u64::from(u16_at(Order::Little, bytes, 5));
    [
        (at, is_kind(kind)),
        (
            at + 1,
            is_listed_rule(kind, u32_at(Order::Little, bytes, 1)),
        ),
        (at + 5, at + (7 + path_len) <= end),
    ]
}

/// What stands of a line in front of its path, where it passes its checks.
fn front_at(bytes: &[u8], at: u64, end: u64) -> Result<Front, JournalFault>
    requires bytes { length bytes.now ≡ 7 }
    requires room { at + 7 ≤ end }
    requires end { end < 2 ^ 32 }
    ensures says { (whole : List ℕ) → part whole at 7 ≡ bytes.now → FailsAs (take 3 (checks_spec.line_checks whole end at)) result }
    ensures is { IfOk result (λ front. front ≡ front_in bytes.now 0) }
    ensures ends { IfOk result (λ front. at + (7 + front.path_len) ≤ end) }
    ensures calm { IfErr result IsCalm }
{
    let checks = front_checks(bytes, at, end);
    match first_failing(&checks) {
        None => Ok(front_of(bytes)),
        Some(bad) => Err(JournalFault::Bad { at: bad }),
    }
}

/// Reads what stands of a line in front of its path, where it passes its checks.
fn read_front<S: Store>(
    window: &mut Window,
    store: &mut S,
    at: u64,
    end: u64,
) -> Result<Front, JournalFault>
    requires window { IsWindow (told_of Journal (S.state store.old)) (size_of Journal (S.state store.old)) window.old }
    requires begins { at ≤ end }
    requires inside { end ≤ size_of Journal (S.state store.old) }
    requires end { end < 2 ^ 32 }
    ensures read { ReadsPart (told_of Journal (S.state store.old)) at (λ _. at + 7) Always
        (λ whole. take 3 (checks_spec.line_checks whole end at)) (λ front whole. front ≡ front_in whole at) result }
    ensures ends { IfOk result (λ front. at + (7 + front.path_len) ≤ end) }
    ensures window { OnOk result (IsWindow (told_of Journal (S.state store.old)) (size_of Journal (S.state store.old)) window.new) }
    ensures same { S.state store.new ≡ S.state store.old }
    ensures counted { IsReadCounted result (S.faults store.old) (S.faults store.new) }
{
    if end - at < 7 {
        return Err(JournalFault::Bad { at });
    }
    window.reach(store, at, 7)?;
    front_at(window.bytes_at(at, 7), at, end)
}

/// The path in these bytes, which stand at a place, where they are one.
fn path_of(alloc: Global, bytes: &[u8], at: u64) -> Result<Text, JournalFault>
    ensures says { FailsAs ((at, checks_spec.is_path bytes.now) ∷ []) result }
    ensures is { IfOk result (λ path. path ≡ bytes.now) }
    ensures calm { IfErr result IsCalm }
{
    let Some(path) = as_path(bytes) else {
        return Err(JournalFault::Bad { at });
    };
    Ok(Text::from_str(alloc, path)?)
}

/// Reads the path at a place.
fn read_path<S: Store>(
    alloc: Global,
    window: &mut Window,
    store: &mut S,
    at: u64,
    len: usize,
) -> Result<Text, JournalFault>
    requires window { IsWindow (told_of Journal (S.state store.old)) (size_of Journal (S.state store.old)) window.old }
    requires inside { at + len ≤ size_of Journal (S.state store.old) }
    requires short { len ≤ 65535 }
    ensures read { ReadsPart (told_of Journal (S.state store.old)) at (λ _. at + len) Always
        (λ whole. (at, checks_spec.is_path (part whole at len)) ∷ []) (λ path whole. path ≡ part whole at len) result }
    ensures long { IfOk result (λ path. length path ≡ len) }
    ensures window { OnOk result (IsWindow (told_of Journal (S.state store.old)) (size_of Journal (S.state store.old)) window.new) }
    ensures same { S.state store.new ≡ S.state store.old }
    ensures counted { IsReadCounted result (S.faults store.old) (S.faults store.new) }
{
    window.reach(store, at, len)?;
    path_of(alloc, window.bytes_at(at, len), at)
}

/// Reads the line at a place, where it passes its checks.
fn read_line<S: Store>(
    alloc: Global,
    window: &mut Window,
    store: &mut S,
    at: u64,
    end: u64,
) -> Result<Listed, JournalFault>
    requires window { IsWindow (told_of Journal (S.state store.old)) (size_of Journal (S.state store.old)) window.old }
    requires begins { at ≤ end }
    requires inside { end ≤ size_of Journal (S.state store.old) }
    requires end { end < 2 ^ 32 }
    ensures read { ReadsPart (told_of Journal (S.state store.old)) at (λ line. at + listed_len line) Always
        (λ whole. checks_spec.line_checks whole end at) (λ line whole. (line ≡ line_in whole at) × (at + listed_len line ≡ line_end whole at)) result }
    ensures ends { IfOk result (λ line. at + listed_len line ≤ end) }
    ensures window { OnOk result (IsWindow (told_of Journal (S.state store.old)) (size_of Journal (S.state store.old)) window.new) }
    ensures same { S.state store.new ≡ S.state store.old }
    ensures counted { IsReadCounted result (S.faults store.old) (S.faults store.new) }
{
    let front = read_front(window, store, at, end)?;
    let path = read_path(alloc, window, store, at + 7, usize::from(front.path_len))?;
    Ok(Listed {
        kind: front.kind,
        rule: front.rule,
        path,
    })
}

/// How many bytes a line has.
pub(crate) fn line_len(line: &Listed) -> u64
    requires { listed_len line.now < 2 ^ 32 }
    ensures { result ≡ listed_len line.now }
{
    7 + line.path.as_str().len() as u64
}

/// Reads the lines of a journal, where all pass their checks.
pub(crate) fn read_lines<S: Store>(
    alloc: Global,
    window: &mut Window,
    store: &mut S,
    begin: u64,
    end: u64,
    count: u32,
) -> Result<Vec<Listed>, JournalFault>
    requires window { IsWindow (told_of Journal (S.state store.old)) (size_of Journal (S.state store.old)) window.old }
    requires begins { begin ≤ end }
    requires inside { end ≤ size_of Journal (S.state store.old) }
    requires end { end < 2 ^ 32 }
    ensures read { ReadsPart (told_of Journal (S.state store.old)) begin (λ _. end) Always
        (λ whole. checks_spec.lines_checks whole end begin count) (λ lines whole. lines.items ≡ lines_in whole begin count) result }
    ensures window { OnOk result (IsWindow (told_of Journal (S.state store.old)) (size_of Journal (S.state store.old)) window.new) }
    ensures same { S.state store.new ≡ S.state store.old }
    ensures counted { IsReadCounted result (S.faults store.old) (S.faults store.new) }
{
    let mut lines = Vec::new(alloc);
    let mut at = begin;
    for _ in 0..count {
        let line = read_line(alloc, window, store, at, end)?;
        at += line_len(&line);
        lines.push(line)?;
    }
    let left = end - at;
    if left > 0 {
        return Err(JournalFault::Bad { at });
    }
    Ok(lines)
}
