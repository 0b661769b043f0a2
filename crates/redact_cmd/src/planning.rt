//! The plan of an image and the rules, as `plan` and `redact` make it.
ghost use Rattle.std.specs.Prelude.{◌≡◌, ◌≢◌, IfErr, IfOk, IfSome, OnOk};
ghost use Rattle.disk_defs.specs.Disk.{size_of, told_image};
ghost use Rattle.disk_defs.specs.Count.{Rose};
ghost use Rattle.disk_defs.specs.declared.Area.TheVariants.{Image};
ghost use Rattle.rx_ranges.specs.PlanChecks.{IsPlan};
ghost use Rattle.redact_cmd.specs.Stages.{HasPlan, RefusesPlan};

use crate::status::{status_of_planning, status_of_reading};
use cmd_defs::Status;
use image_reader::read_image;
use rule_defs::Rules;
use rx_plan::make_plan;
use rx_ranges::Plan;
use rx_store::Store;
use std::alloc::Global;

/// The plan of the image and the rules, or the status with which a command ends that has none.
pub(crate) fn planned<S: Store>(alloc: Global, store: &mut S, rules: &Rules) -> Result<Plan, Status>
    ensures made { IfOk result (λ plan. IfSome (told_image (S.state store.old)) (λ image. HasPlan image rules.now plan)) }
    ensures is_plan { IfOk result IsPlan }
    ensures sized { IfOk result (λ plan. plan.image_len ≡ size_of Image (S.state store.old)) }
    ensures refused { IfErr result (λ status. IfSome (told_image (S.state store.old)) (λ image. RefusesPlan status image rules.now)) }
    ensures same { S.state store.new ≡ S.state store.old }
    ensures known { IfErr result (λ status. status ≢ Status.Usage) }
    ensures no_source { IfErr result (λ status. status ≢ Status.SourceFault) }
    ensures no_sink { IfErr result (λ status. status ≢ Status.SinkFault) }
    ensures calm { OnOk result (S.faults store.new ≡ S.faults store.old) }
    ensures store_calm { IfErr result (λ status. status ≢ Status.DeviceFault → S.faults store.new ≡ S.faults store.old) }
    ensures device { IfErr result (λ status. status ≡ Status.DeviceFault → Rose (S.faults store.old).image (S.faults store.new).image) }
    ensures journal { (S.faults store.new).journal ≡ (S.faults store.old).journal }
{
    let tree = match read_image(alloc, store) {
        Ok(tree) => tree,
        Err(fault) => return Err(status_of_reading(fault)),
    };
    match make_plan(alloc, store, &tree, rules) {
        Ok(plan) => Ok(plan),
        Err(fault) => Err(status_of_planning(fault)),
    }
}
