//! The command `report`.
ghost use Rattle.std.specs.Prelude.{◌≡◌, ◌≢◌, IfSome};
ghost use Rattle.disk_defs.specs.Disk.{told_journal};
ghost use Rattle.disk_defs.specs.Stream.{taken_with, TookPrefixOf};
ghost use Rattle.disk_defs.specs.Count.{Rose};
ghost use Rattle.cmd_defs.specs.Outcome.{IsSilent};
ghost use Rattle.cmd_defs.specs.JournalFacts.{progress};
ghost use Rattle.cmd_defs.specs.ReportCommand.{ReportSays};

use crate::status::status_of_journal;
use cmd_defs::Status;
use journal_format::{JournalState, read_journal};
use rx_report::write_report;
use rx_store::{Sink, Store};
use std::alloc::Global;
use text_defs::ReportState;

/// How far the plan of a journal was carried out.
fn progress(state: &JournalState) -> ReportState
    ensures { result ≡ progress state.now.groups state.now.last }
{
    if state.complete() {
        ReportState::Done
    } else {
        ReportState::Pending
    }
}

/// The command `report`: reads the journal, and writes the report of its plan.
pub(crate) fn report<S: Store, K: Sink>(alloc: Global, store: &mut S, out: &mut K) -> Status
    ensures says { IfSome (told_journal (S.state store.old)) (λ journal. ReportSays result journal
        (λ report. K.taken out.new ≡ taken_with (K.taken out.old) report) (TookPrefixOf (K.taken out.old) (K.taken out.new))) }
    ensures known { result ≢ Status.Usage }
    ensures no_rules { result ≢ Status.SourceFault }
    ensures silent { IsSilent result → K.taken out.new ≡ K.taken out.old }
    ensures same { S.state store.new ≡ S.state store.old }
    ensures store_calm { result ≢ Status.DeviceFault → S.faults store.new ≡ S.faults store.old }
    ensures image { (S.faults store.new).image ≡ (S.faults store.old).image }
    ensures out_calm { result ≢ Status.SinkFault → K.faults out.new ≡ K.faults out.old }
    ensures device { result ≡ Status.DeviceFault → Rose (S.faults store.old).journal (S.faults store.new).journal }
    ensures sink { result ≡ Status.SinkFault → Rose (K.faults out.old) (K.faults out.new) }
{
    let state = match read_journal(alloc, store) {
        Ok(state) => state,
        Err(fault) => return status_of_journal(fault),
    };
    match write_report(out, &state.plan, progress(&state)) {
        Ok(()) => Status::Done,
        Err(_) => Status::SinkFault,
    }
}
