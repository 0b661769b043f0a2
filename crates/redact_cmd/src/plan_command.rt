//! The command `plan`.
ghost use Rattle.std.specs.Prelude.{◌≡◌, ◌≢◌, [], IfSome};
ghost use Rattle.disk_defs.specs.Disk.{told_image};
ghost use Rattle.disk_defs.specs.Stream.{taken_with, TookPrefixOf};
ghost use Rattle.disk_defs.specs.Count.{Rose};
ghost use Rattle.cmd_defs.specs.Outcome.{IfBothTold, IsSilent};
ghost use Rattle.cmd_defs.specs.PlanCommand.{SaysRules, PlanSays};

use crate::planning::planned;
use crate::status::status_of_rules;
use cmd_defs::Status;
use rule_parse::read_rules;
use rx_report::write_report;
use rx_store::{Sink, Source, Store};
use std::alloc::Global;
use text_defs::ReportState;

/// The command `plan`: reads the rules and the image, and writes the report of their plan.
pub(crate) fn plan<S: Store, R: Source, K: Sink>(
    alloc: Global,
    store: &mut S,
    rules: &mut R,
    out: &mut K,
) -> Status
    ensures says { IfBothTold (R.rest rules.old) (told_image (S.state store.old)) (λ text image. PlanSays result text image
        (λ report. K.taken out.new ≡ taken_with (K.taken out.old) report) (TookPrefixOf (K.taken out.old) (K.taken out.new))) }
    ensures ended { result ≡ Status.Done → IfSome (R.rest rules.new) (λ rest. rest ≡ []) }
    ensures known { result ≢ Status.Usage }
    ensures silent { IsSilent result → K.taken out.new ≡ K.taken out.old }
    ensures same { S.state store.new ≡ S.state store.old }
    ensures rules_first { result ≡ Status.DeviceFault → IfSome (R.rest rules.old) SaysRules }
    ensures store_calm { result ≢ Status.DeviceFault → S.faults store.new ≡ S.faults store.old }
    ensures journal { (S.faults store.new).journal ≡ (S.faults store.old).journal }
    ensures rules_calm { result ≢ Status.SourceFault → R.faults rules.new ≡ R.faults rules.old }
    ensures out_calm { result ≢ Status.SinkFault → K.faults out.new ≡ K.faults out.old }
    ensures device { result ≡ Status.DeviceFault → Rose (S.faults store.old).image (S.faults store.new).image }
    ensures source { result ≡ Status.SourceFault → Rose (R.faults rules.old) (R.faults rules.new) }
    ensures sink { result ≡ Status.SinkFault → Rose (K.faults out.old) (K.faults out.new) }
{
    let rules = match read_rules(alloc, rules) {
        Ok(rules) => rules,
        Err(fault) => return status_of_rules(fault),
    };
    let plan = match planned(alloc, store, &rules) {
        Ok(plan) => plan,
        Err(status) => return status,
    };
    match write_report(out, &plan, ReportState::Planned) {
        Ok(()) => Status::Done,
        Err(_) => Status::SinkFault,
    }
}
