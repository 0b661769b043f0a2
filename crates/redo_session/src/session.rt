//! A session: a plan that is carried out, one call a turn.
ghost use Rattle.std.specs.Prelude.{◌≡◌, None, Some, false, IfOk, IfSome, OnOk, length, replicate, vec_len};
ghost use Rattle.journal_defs.specs.Form.{groups_of, journal_len};
ghost use Rattle.rx_ranges.specs.PlanChecks.{IsPlan};
ghost use Rattle.session_defs.specs.Session.{Begun, Resumed, HasSizes, IsAnswer, IsMade, IsTurnCounted, IsTurned, new_session, next_call};
ghost use Rattle.session_defs.specs.declared.TheConstants.{PIECE};
ghost use Rattle.session_defs.specs.Script.{rest_of};
ghost use Rattle.redo_session.specs.Steps.{IsStep, journal_at, left};
ghost use Rattle.redo_session.specs.Sessions.{stage_of};

use crate::NoMemory;
use crate::call::make_call;
use crate::step::{Step, next, next_group, turn_of};
use journal_format::{Cursor, JournalState, journal_len};
use rx_ranges::Plan;
use rx_store::Store;
use session_defs::{PIECE, Turn, TurnFault};
use std::alloc::Global;
use std::marker::Model;

/// A session that carries out a plan, one call on the store a turn. It takes its memory when it is made.
#[derive(Drop)]
pub struct Session<'p> {
    plan: &'p Plan,
    marks: Vec<bool>,
    /// The last mark of a journal that was found open.
    resumed: Option<bool>,
    len: u64,
    step: Step,
    /// Where the listing goes on in the body of the journal.
    cursor: Cursor,
    has_ended: bool,
    buffer: Vec<u8>,
}

impl<'p> Model for Session<'p> {
    ghost use Rattle.std.specs.Prelude.{vec_len};
    ghost use Rattle.session_defs.specs.Session.{SessionValue};
    ghost use Rattle.redo_session.specs.Sessions.{IsSession, session_of};

    ghost Value = { SessionValue };

    ghost view = { λ s. session_of s.plan.now s.resumed s.marks.items s.step s.has_ended };

    ghost invariant = { λ s. IsSession s.plan.now s.resumed s.marks.items s.len s.step (vec_len s.buffer) s.cursor };
}

/// How many groups the ranges of a plan have.
fn group_count(plan: &Plan) -> usize
    requires { IsPlan plan.now }
    ensures { result ≡ groups_of plan.now }
{
    (plan.ranges.items().len() + 63) / 64
}

/// So many marks, none of them set.
fn unset_marks(alloc: Global, groups: usize) -> Result<Vec<bool>, NoMemory>
    ensures { IfOk result (λ marks. marks.items ≡ replicate groups false) }
{
    vec![in alloc; false; groups]
}

/// Room for a piece.
fn room_for_piece(alloc: Global) -> Result<Vec<u8>, NoMemory>
    ensures { IfOk result (λ room. vec_len room ≡ PIECE) }
{
    vec![in alloc; 0; PIECE]
}

/// The step with which the groups that aren't marked are begun, or the end where all marks are set.
fn first_step(state: &JournalState) -> Step
    requires plan { IsPlan state.now.plan }
    requires groups { length state.now.groups ≡ groups_of state.now.plan }
    ensures step { IsStep state.now.plan result }
    ensures journal { journal_at state.now.plan result ≡ Some (journal_len state.now.plan) }
    ensures left { left state.now.plan state.now.groups result ≡ rest_of state.now.plan state.now.groups state.now.last }
{
    if state.complete() {
        return Step::End;
    }
    next_group(&state.plan, state.groups.items(), 0)
}

impl<'p> Session<'p> {
    /// A session that carries out a plan from the start. The image has the plan's length at each of its turns, and nobody else
    /// writes to the store.
    pub fn begin(alloc: Global, plan: &'p Plan) -> Result<Session<'p>, NoMemory>
        requires { IsPlan plan.now }
        ensures { IfOk result (λ session. session ≡ new_session plan.now Begun None) }
    {
        Ok(Session {
            plan,
            marks: unset_marks(alloc, group_count(plan))?,
            resumed: None,
            len: journal_len(plan),
            step: Step::Clear,
            cursor: Cursor::first(plan),
            has_ended: false,
            buffer: room_for_piece(alloc)?,
        })
    }

    /// A session that goes on with the plan of an open journal.
    pub fn resume(alloc: Global, state: &'p JournalState) -> Result<Session<'p>, NoMemory>
        requires plan { IsPlan state.now.plan }
        requires groups { length state.now.groups ≡ groups_of state.now.plan }
        ensures { IfOk result (λ session. session ≡ new_session state.now.plan (Resumed state.now.groups state.now.last) (Some (journal_len state.now.plan))) }
    {
        let marks = Vec::from_slice(alloc, state.groups.items())?;
        let step = first_step(state);
        Ok(Session {
            plan: &state.plan,
            marks,
            resumed: Some(state.last),
            len: journal_len(&state.plan),
            step,
            cursor: Cursor::first(&state.plan),
            has_ended: false,
            buffer: room_for_piece(alloc)?,
        })
    }

    /// Whether no turn is left: the session has finished, or a call of it failed.
    pub fn is_over(&self) -> bool
        ensures { stage_of result ≡ self.now.stage }
    {
        self.has_ended
    }

    /// Makes the next call of the store. Each turn of a session makes one, and answers what it did; the turn behind the last
    /// call makes none and answers Finished. A session whose call failed, or that has finished, is over.
    pub fn turn<S: Store>(&mut self, store: &mut S) -> Result<Turn, TurnFault>
        requires { IfSome (next_call self.old) (λ _. HasSizes self.old (S.state store.old)) }
        ensures answer { IsAnswer self.old (next_call self.old) result }
        ensures made { IsMade (next_call self.old) result (S.state store.old) (S.state store.new) }
        ensures turned { IsTurned (next_call self.old) result self.old self.new }
        ensures sizes { IfSome (next_call self.old) (λ _. OnOk result (HasSizes self.new (S.state store.new))) }
        ensures counted { IsTurnCounted (next_call self.old) result (S.faults store.old) (S.faults store.new) }
    {
        if self.has_ended {
            return Err(TurnFault::Over);
        }
        if let Step::End = self.step {
            self.has_ended = true;
            return Ok(Turn::Finished);
        }
        let groups = self.marks.len();
        let turn = turn_of(self.plan, self.step);
        let after = next(self.plan, &self.marks, self.len, self.step);
        let mut cursor = self.cursor;
        match make_call(
            self.plan,
            groups,
            self.len,
            self.step,
            &mut cursor,
            &mut self.buffer,
            store,
        ) {
            Ok(()) => {
                self.step = after;
                self.cursor = cursor;
                Ok(turn)
            }
            Err(_) => {
                self.has_ended = true;
                Err(TurnFault::Device)
            }
        }
    }
}
