//! The command `redact`.
ghost use Rattle.std.specs.Prelude.{◌≡◌, ◌≢◌, [], IfSome};
ghost use Rattle.disk_defs.specs.Disk.{held};
ghost use Rattle.disk_defs.specs.Stream.{taken_with, TookPrefixOf};
ghost use Rattle.disk_defs.specs.Count.{Rose};
ghost use Rattle.cmd_defs.specs.Calls.{RoseSomewhere};
ghost use Rattle.cmd_defs.specs.JournalFacts.{IsUntouched};
ghost use Rattle.cmd_defs.specs.Outcome.{IfTextAndHeld, IsRefusal, IsSilent};
ghost use Rattle.cmd_defs.specs.PlanCommand.{SaysRules};
ghost use Rattle.cmd_defs.specs.RedactCommand.{RedactSays};

use crate::carrying::carry_out;
use crate::planning::planned;
use crate::status::status_of_rules;
use cmd_defs::Status;
use journal_format::stands_open;
use redo_session::Session;
use rule_parse::read_rules;
use rx_store::{Sink, Source, Store};
use std::alloc::Global;

/// The command `redact`: reads the rules and the image, carries their plan out through the journal, and writes its report.
pub(crate) fn redact<S: Store, R: Source, K: Sink>(
    alloc: Global,
    store: &mut S,
    rules: &mut R,
    out: &mut K,
) -> Status
    ensures says { IfTextAndHeld (R.rest rules.old) (held (S.state store.old)) (λ text held. RedactSays result text held (S.state store.old) (S.state store.new)
        (λ report. K.taken out.new ≡ taken_with (K.taken out.old) report) (TookPrefixOf (K.taken out.old) (K.taken out.new))) }
    ensures ended { result ≡ Status.Done → IfSome (R.rest rules.new) (λ rest. rest ≡ []) }
    ensures known { result ≢ Status.Usage }
    ensures untouched { IsRefusal result → IsUntouched (S.state store.old) (S.state store.new) }
    ensures silent { IsSilent result → K.taken out.new ≡ K.taken out.old }
    ensures rules_first { result ≡ Status.DeviceFault → IfSome (R.rest rules.old) SaysRules }
    ensures store_calm { result ≢ Status.DeviceFault → S.faults store.new ≡ S.faults store.old }
    ensures rules_calm { result ≢ Status.SourceFault → R.faults rules.new ≡ R.faults rules.old }
    ensures out_calm { result ≢ Status.SinkFault → K.faults out.new ≡ K.faults out.old }
    ensures device { result ≡ Status.DeviceFault → RoseSomewhere (S.faults store.old) (S.faults store.new) }
    ensures source { result ≡ Status.SourceFault → Rose (R.faults rules.old) (R.faults rules.new) }
    ensures sink { result ≡ Status.SinkFault → Rose (K.faults out.old) (K.faults out.new) }
{
    let rules = match read_rules(alloc, rules) {
        Ok(rules) => rules,
        Err(fault) => return status_of_rules(fault),
    };
    match store.sync() {
        Ok(()) => {}
        Err(_) => return Status::DeviceFault,
    }
    match stands_open(store) {
        Ok(true) => return Status::JournalOpen,
        Ok(false) => {}
        Err(_) => return Status::DeviceFault,
    }
    let plan = match planned(alloc, store, &rules) {
        Ok(plan) => plan,
        Err(status) => return status,
    };
    match Session::begin(alloc, &plan) {
        Ok(session) => carry_out(session, &plan, store, out),
        Err(_) => Status::NoMemory,
    }
}
