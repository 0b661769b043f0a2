//! The session of a plan and its report, as `redact` and `resume` carry them out.
ghost use Rattle.std.specs.Prelude.{◌≡◌, ◌≢◌};
ghost use Rattle.disk_defs.specs.Stream.{taken_with, TookPrefixOf};
ghost use Rattle.disk_defs.specs.Count.{Rose};
ghost use Rattle.session_defs.specs.Script.{changes_of};
ghost use Rattle.session_defs.specs.Session.{HasSizes, Running, calls_of};
ghost use Rattle.text_defs.specs.Report.{report};
ghost use Rattle.cmd_defs.specs.Calls.{RoseSomewhere};
ghost use Rattle.cmd_defs.specs.Outcome.{IsRefusal, IsSilent};
ghost use Rattle.redact_cmd.specs.Stages.{CarriesOut};

use cmd_defs::Status;
use redo_session::{Session, finish};
use rx_ranges::Plan;
use rx_report::write_report;
use rx_store::{Sink, Store};
use text_defs::ReportState;

/// Makes all calls of a session that has made none yet, over a store of the sizes that its plan has, and writes the plan's report.
pub(crate) fn carry_out<S: Store, K: Sink>(
    mut session: Session<'_>,
    plan: &Plan,
    store: &mut S,
    out: &mut K,
) -> Status
    requires running { session.stage ≡ Running }
    requires unused { session.made ≡ 0 }
    requires sizes { HasSizes session (S.state store.old) }
    ensures says { CarriesOut result (changes_of (calls_of session.entry.plan session.entry.start)) (S.state store.old) (S.state store.new)
        (K.taken out.new ≡ taken_with (K.taken out.old) (report plan.now ReportState.Done))
        (TookPrefixOf (K.taken out.old) (K.taken out.new) (report plan.now ReportState.Done)) }
    ensures known { result ≢ Status.Usage }
    ensures no_source { result ≢ Status.SourceFault }
    ensures no_refusal { ¬ (IsRefusal result) }
    ensures silent { IsSilent result → K.taken out.new ≡ K.taken out.old }
    ensures store_calm { result ≢ Status.DeviceFault → S.faults store.new ≡ S.faults store.old }
    ensures out_calm { result ≢ Status.SinkFault → K.faults out.new ≡ K.faults out.old }
    ensures device { result ≡ Status.DeviceFault → RoseSomewhere (S.faults store.old) (S.faults store.new) }
    ensures sink { result ≡ Status.SinkFault → Rose (K.faults out.old) (K.faults out.new) }
{
    match finish(&mut session, store) {
        Ok(()) => {}
        Err(_) => return Status::DeviceFault,
    }
    match write_report(out, plan, ReportState::Done) {
        Ok(()) => Status::Done,
        Err(_) => Status::SinkFault,
    }
}
