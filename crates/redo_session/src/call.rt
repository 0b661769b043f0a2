//! The call of a step.
ghost use Rattle.std.specs.Prelude.{◌≡◌, ◌≢◌, ◌+◌, Some, length, min};
ghost use Rattle.journal_defs.specs.Form.{groups_of, journal_len};
ghost use Rattle.rx_ranges.specs.PlanChecks.{IsPlan};
ghost use Rattle.session_defs.specs.Session.{IsChangeCounted, IsMade};
ghost use Rattle.session_defs.specs.declared.TheConstants.{PIECE};
ghost use Rattle.redo_session.specs.Steps.{HasCursor, HasJournal, IsCursorAfter, IsStep, call_of};
ghost use Rattle.journal_format.specs.Cursors.{IsCursor};

use crate::step::Step;
use journal_defs::{OPEN_GATE, SET_MARK};
use journal_format::{Cursor, journal_piece_from};
use rx_ranges::Plan;
use rx_store::{Area, Fault, Store};
use session_defs::PIECE;

/// How many bytes the next piece of so many has.
fn piece_len(left: u64) -> usize
    ensures { result ≡ min PIECE left }
{
    left.min(PIECE as u64) as usize
}

/// Writes the piece of the first journal from a byte on, at which the listing goes on at a cursor.
fn write_body<S: Store>(
    plan: &Plan,
    len: u64,
    at: u64,
    cursor: &mut Cursor,
    buffer: &mut [u8],
    store: &mut S,
) -> Result<(), Fault>
    requires plan { IsPlan plan.now }
    requires len { len ≡ journal_len plan.now }
    requires step { IsStep plan.now (Step.Body at) }
    requires buffer { length buffer.old ≡ PIECE }
    requires cursor { IsCursor plan.now at cursor.old }
    requires sizes { HasJournal plan.now (Step.Body at) (S.state store.old).sizes }
    ensures made { IsMade (Some (call_of plan.now (Step.Body at))) result (S.state store.old) (S.state store.new) }
    ensures counted { IsChangeCounted (call_of plan.now (Step.Body at)).change result (S.faults store.old) (S.faults store.new) }
    ensures cursor { IsCursor plan.now (min (at + PIECE) (journal_len plan.now)) cursor.new }
    ensures buffer { length buffer.new ≡ PIECE }
{
    let piece = &mut buffer[..piece_len(len - at)];
    *cursor = journal_piece_from(plan, len, at, *cursor, piece);
    store.write_at(Area::Journal, at, piece)
}

/// Fills the piece of a range from its byte `done` on.
fn write_fill<S: Store>(
    plan: &Plan,
    group: usize,
    range: usize,
    done: u64,
    buffer: &mut [u8],
    store: &mut S,
) -> Result<(), Fault>
    requires plan { IsPlan plan.now }
    requires step { IsStep plan.now (Step.Fill group range done) }
    requires buffer { length buffer.old ≡ PIECE }
    requires sizes { (S.state store.old).sizes.image ≡ plan.now.image_len }
    ensures made { IsMade (Some (call_of plan.now (Step.Fill group range done))) result (S.state store.old) (S.state store.new) }
    ensures counted { IsChangeCounted (call_of plan.now (Step.Fill group range done)).change result (S.faults store.old) (S.faults store.new) }
    ensures buffer { length buffer.new ≡ PIECE }
{
    let claim = plan.ranges.items()[range];
    let piece = &mut buffer[..piece_len(claim.range.len - done)];
    piece.fill(claim.fill);
    store.write_at(Area::Image, claim.range.at + done, piece)
}

/// Makes the call of a step.
pub(crate) fn make_call<S: Store>(
    plan: &Plan,
    groups: usize,
    len: u64,
    step: Step,
    cursor: &mut Cursor,
    buffer: &mut [u8],
    store: &mut S,
) -> Result<(), Fault>
    requires plan { IsPlan plan.now }
    requires groups { groups ≡ groups_of plan.now }
    requires len { len ≡ journal_len plan.now }
    requires step { IsStep plan.now step }
    requires more { step ≢ Step.End }
    requires cursor { HasCursor plan.now step cursor.old }
    requires buffer { length buffer.old ≡ PIECE }
    requires image { (S.state store.old).sizes.image ≡ plan.now.image_len }
    requires journal { HasJournal plan.now step (S.state store.old).sizes }
    ensures made { IsMade (Some (call_of plan.now step)) result (S.state store.old) (S.state store.new) }
    ensures counted { IsChangeCounted (call_of plan.now step).change result (S.faults store.old) (S.faults store.new) }
    ensures cursor { IsCursorAfter plan.now step cursor.old cursor.new }
    ensures buffer { length buffer.new ≡ PIECE }
{
    match step {
        Step::Clear => store.cut_journal(0),
        Step::Arm => store.write_at(Area::Journal, 0, &[0]),
        Step::Body { at } => write_body(plan, len, at, cursor, buffer, store),
        Step::Open => store.write_at(Area::Journal, 0, &[OPEN_GATE]),
        Step::Fill { group, range, done } => write_fill(plan, group, range, done, buffer, store),
        Step::Mark { group } => {
            store.write_at(
                Area::Journal,
                len - 1 - (groups - group) as u64,
                &[SET_MARK],
            )
        }
        Step::Close => store.write_at(Area::Journal, len - 1, &[SET_MARK]),
        _ => store.sync(),
    }
}
