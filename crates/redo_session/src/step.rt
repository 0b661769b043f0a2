//! Which call of a session comes next.
ghost use Rattle.std.specs.Prelude.{◌≡◌, ◌≢◌, ◌≤◌, ◌<◌, ◌+◌, ◌∷◌, Some, length, min};
ghost use Rattle.journal_defs.specs.Form.{groups_of, journal_len};
ghost use Rattle.rx_ranges.specs.PlanChecks.{IsPlan};
ghost use Rattle.disk_defs.specs.Disk.{Sizes, sizes_after};
ghost use Rattle.session_defs.specs.declared.TheConstants.{PIECE};
ghost use Rattle.journal_format.specs.Cursors.{IsCursor};
ghost use Rattle.journal_format.specs.declared.piece.Cursor.{Cursor};
ghost use Rattle.redo_session.specs.Steps.{HasCursor, HasJournal, IsCursorAfter, IsStep, call_of, group_end, journal_at, left, left_from_byte, left_from_group, left_from_range};

use journal_defs::GROUP_RANGES;
use rx_ranges::Plan;
use session_defs::{PIECE, Turn};

/// The call that comes next.
#[derive(Clone, Copy)]
pub(crate) enum Step {
    /// The journal is cut, and synced.
    Clear,
    ClearSync,
    /// Its closed gate is written, and synced.
    Arm,
    ArmSync,
    /// The piece of the journal from this byte on is written.
    Body {
        at: u64,
    },
    BodySync,
    /// Its gate is opened, and synced.
    Open,
    OpenSync,
    /// The piece of this range from its byte `done` on is filled. The range is one of this group.
    Fill {
        group: usize,
        range: usize,
        done: u64,
    },
    /// The group is synced, and marked.
    GroupSync {
        group: usize,
    },
    Mark {
        group: usize,
    },
    /// The last mark is set, with a sync in front of it and behind it.
    CloseSync,
    Close,
    LastSync,
    /// No call is left.
    End,
}

/// How a call is named.
pub(crate) fn turn_of(plan: &Plan, step: Step) -> Turn
    requires plan { IsPlan plan.now }
    requires step { IsStep plan.now step }
    ensures { result ≡ (call_of plan.now step).turn }
{
    match step {
        Step::Clear => Turn::Cleared,
        Step::Arm => Turn::Armed,
        Step::Body { .. } => Turn::Wrote,
        Step::Open => Turn::Opened,
        Step::Fill { .. } => Turn::Filled,
        Step::Mark { group } => Turn::Marked(group as u32),
        Step::Close => Turn::Closed,
        _ => Turn::Synced,
    }
}

/// The step behind the piece of the journal from a byte on.
fn next_body(plan: &Plan, marks: &[bool], len: u64, at: u64) -> Step
    requires plan { IsPlan plan.now }
    requires len { len ≡ journal_len plan.now }
    requires step { IsStep plan.now (Step.Body at) }
    ensures step { IsStep plan.now result }
    ensures journal { journal_at plan.now result ≡ Some (min (at + PIECE) (journal_len plan.now)) }
    ensures cursor { (cursor : Cursor) → IsCursor plan.now (min (at + PIECE) (journal_len plan.now)) cursor → HasCursor plan.now result cursor }
    ensures left { left_from_byte plan.now marks.now at ≡ call_of plan.now (Step.Body at) ∷ left plan.now marks.now result }
{
    if len - at <= PIECE as u64 {
        return Step::BodySync;
    }
    Step::Body {
        at: at + PIECE as u64,
    }
}

/// The first range behind a group.
fn group_end(plan: &Plan, group: usize) -> usize
    requires plan { IsPlan plan.now }
    requires group { group < groups_of plan.now }
    ensures { result ≡ group_end plan.now group }
{
    let ranges = plan.ranges.items().len();
    (GROUP_RANGES as usize * (group + 1)).min(ranges)
}

/// The step that begins with a range of a group, or with the group's sync where it has no more ranges.
fn next_range(plan: &Plan, marks: &[bool], group: usize, range: usize) -> Step
    requires plan { IsPlan plan.now }
    requires group { group < groups_of plan.now }
    requires range { range ≤ group_end plan.now group }
    ensures step { IsStep plan.now result }
    ensures journal { journal_at plan.now result ≡ Some (journal_len plan.now) }
    ensures left { left plan.now marks.now result ≡ left_from_range plan.now marks.now group range }
{
    if range >= group_end(plan, group) {
        return Step::GroupSync { group };
    }
    Step::Fill {
        group,
        range,
        done: 0,
    }
}

/// The step behind the piece of a range from its byte `done` on.
fn next_fill(plan: &Plan, marks: &[bool], group: usize, range: usize, done: u64) -> Step
    requires plan { IsPlan plan.now }
    requires step { IsStep plan.now (Step.Fill group range done) }
    ensures step { IsStep plan.now result }
    ensures journal { journal_at plan.now result ≡ Some (journal_len plan.now) }
    ensures left { left plan.now marks.now (Step.Fill group range done) ≡ call_of plan.now (Step.Fill group range done) ∷ left plan.now marks.now result }
{
    let claim = plan.ranges.items()[range];
    if claim.range.len - done <= PIECE as u64 {
        return next_range(plan, marks, group, range + 1);
    }
    Step::Fill {
        group,
        range,
        done: done + PIECE as u64,
    }
}

/// The step that begins with the first group from one on that isn't marked, or with the last mark.
pub(crate) fn next_group(plan: &Plan, marks: &[bool], first: usize) -> Step
    requires plan { IsPlan plan.now }
    requires marks { length marks.now ≡ groups_of plan.now }
    requires first { first ≤ length marks.now }
    ensures step { IsStep plan.now result }
    ensures journal { journal_at plan.now result ≡ Some (journal_len plan.now) }
    ensures left { left plan.now marks.now result ≡ left_from_group plan.now marks.now first }
{
    let mut group = first;
    while group < marks.len() {
        if !marks[group] {
            return next_range(plan, marks, group, GROUP_RANGES as usize * group);
        }
        group += 1;
    }
    Step::CloseSync
}

/// The step behind a call. The journal has `len` bytes.
pub(crate) fn next(plan: &Plan, marks: &[bool], len: u64, step: Step) -> Step
    requires plan { IsPlan plan.now }
    requires marks { length marks.now ≡ groups_of plan.now }
    requires len { len ≡ journal_len plan.now }
    requires step { IsStep plan.now step }
    requires more { step ≢ Step.End }
    ensures step { IsStep plan.now result }
    ensures sizes { (sizes : Sizes) → HasJournal plan.now step sizes → HasJournal plan.now result (sizes_after (call_of plan.now step).change sizes) }
    ensures left { left plan.now marks.now step ≡ call_of plan.now step ∷ left plan.now marks.now result }
    ensures cursor { (before after : Cursor) → HasCursor plan.now step before → IsCursorAfter plan.now step before after → HasCursor plan.now result after }
{
    match step {
        Step::Clear => Step::ClearSync,
        Step::ClearSync => Step::Arm,
        Step::Arm => Step::ArmSync,
        Step::ArmSync => Step::Body { at: 1 },
        Step::Body { at } => next_body(plan, marks, len, at),
        Step::BodySync => Step::Open,
        Step::Open => Step::OpenSync,
        Step::OpenSync => next_group(plan, marks, 0),
        Step::Fill { group, range, done } => next_fill(plan, marks, group, range, done),
        Step::GroupSync { group } => Step::Mark { group },
        Step::Mark { group } => next_group(plan, marks, group + 1),
        Step::CloseSync => Step::Close,
        Step::Close => Step::LastSync,
        Step::LastSync | Step::End => Step::End,
    }
}
