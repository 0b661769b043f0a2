//! The command `resume`.
ghost use Rattle.std.specs.Prelude.{◌≡◌, ◌≢◌, IfSome};
ghost use Rattle.disk_defs.specs.Disk.{held};
ghost use Rattle.disk_defs.specs.Stream.{taken_with, TookPrefixOf};
ghost use Rattle.disk_defs.specs.Count.{Rose};
ghost use Rattle.cmd_defs.specs.Calls.{RoseSomewhere};
ghost use Rattle.cmd_defs.specs.JournalFacts.{IsUntouched};
ghost use Rattle.cmd_defs.specs.Outcome.{IsRefusal, IsSilent};
ghost use Rattle.cmd_defs.specs.ResumeCommand.{ResumeSays};

use crate::carrying::carry_out;
use crate::status::status_of_journal;
use cmd_defs::Status;
use journal_format::read_journal;
use redo_session::Session;
use rx_store::{Area, Sink, Store};
use std::alloc::Global;

/// The command `resume`: finishes the plan of a journal that stands open, and writes its report.
pub(crate) fn resume<S: Store, K: Sink>(alloc: Global, store: &mut S, out: &mut K) -> Status
    ensures says { IfSome (held (S.state store.old)) (λ held. ResumeSays result held (S.state store.old) (S.state store.new)
        (λ report. K.taken out.new ≡ taken_with (K.taken out.old) report) (TookPrefixOf (K.taken out.old) (K.taken out.new))) }
    ensures known { result ≢ Status.Usage }
    ensures no_rules { result ≢ Status.SourceFault }
    ensures untouched { IsRefusal result → IsUntouched (S.state store.old) (S.state store.new) }
    ensures silent { IsSilent result → K.taken out.new ≡ K.taken out.old }
    ensures store_calm { result ≢ Status.DeviceFault → S.faults store.new ≡ S.faults store.old }
    ensures out_calm { result ≢ Status.SinkFault → K.faults out.new ≡ K.faults out.old }
    ensures device { result ≡ Status.DeviceFault → RoseSomewhere (S.faults store.old) (S.faults store.new) }
    ensures sink { result ≡ Status.SinkFault → Rose (K.faults out.old) (K.faults out.new) }
{
    match store.sync() {
        Ok(()) => {}
        Err(_) => return Status::DeviceFault,
    }
    let state = match read_journal(alloc, store) {
        Ok(state) => state,
        Err(fault) => return status_of_journal(fault),
    };
    let len = match store.len(Area::Image) {
        Ok(len) => len,
        Err(_) => return Status::DeviceFault,
    };
    match state.fits(len) {
        Ok(()) => {}
        Err(fault) => return status_of_journal(fault),
    }
    match Session::resume(alloc, &state) {
        Ok(session) => carry_out(session, &state.plan, store, out),
        Err(_) => Status::NoMemory,
    }
}
