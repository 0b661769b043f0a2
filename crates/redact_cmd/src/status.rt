//! The status with which a command ends where a stage of it is refused.
ghost use Rattle.std.specs.Prelude.{◌≡◌};
ghost use Rattle.redact_cmd.specs.Stages.{status_of_rules, status_of_reading, status_of_journal, status_of_planning};

use cmd_defs::{JournalRefusal, PlanRefusal, Status};
use image_reader::ImageFault;
use journal_format::JournalFault;
use rule_parse::RuleFault;
use rx_plan::PlanFault;
use rx_store::ReadFault;

/// The status of a fault of reading the rules.
pub(crate) fn status_of_rules(fault: RuleFault) -> Status
    ensures { result ≡ status_of_rules fault }
{
    match fault {
        RuleFault::OtherForm => Status::NotBuilt,
        RuleFault::Source => Status::SourceFault,
        RuleFault::NoMemory => Status::NoMemory,
    }
}

/// The status of a fault of reading the image.
pub(crate) fn status_of_reading(fault: ImageFault) -> Status
    ensures { result ≡ status_of_reading fault }
{
    match fault {
        ImageFault::OtherKind => Status::NotBuilt,
        ImageFault::Read(ReadFault::Device) => Status::DeviceFault,
        ImageFault::Read(ReadFault::NoMemory) => Status::NoMemory,
        ImageFault::Read(ReadFault::NotThis) => Status::NotRecognised,
        ImageFault::Read(ReadFault::Damaged(sort, place)) => Status::Damaged(sort, place),
        ImageFault::Read(ReadFault::Unsupported(what, place)) => Status::Unsupported(what, place),
        ImageFault::Read(ReadFault::Limit(bound, number)) => Status::Limit(bound, number),
    }
}

/// The status of a refusal of the journal.
pub(crate) fn status_of_journal(fault: JournalFault) -> Status
    ensures { result ≡ status_of_journal fault }
{
    match fault {
        JournalFault::NotOpen => Status::JournalRefused(JournalRefusal::NotOpen),
        JournalFault::Bad { at } => Status::JournalRefused(JournalRefusal::Bad(at)),
        JournalFault::OtherLength { kept, found } => {
            Status::JournalRefused(JournalRefusal::OtherLength(kept, found))
        }
        JournalFault::Device => Status::DeviceFault,
        JournalFault::NoMemory => Status::NoMemory,
    }
}

/// The status of a refusal of the plan.
pub(crate) fn status_of_planning(fault: PlanFault) -> Status
    ensures { result ≡ status_of_planning fault }
{
    match fault {
        PlanFault::MeetsGuard { at, rule } => Status::PlanRefused(PlanRefusal::MeetsGuard(
            at, rule,
        )),
        PlanFault::Limit(bound, number) => Status::Limit(bound, number),
        PlanFault::NoMemory => Status::NoMemory,
    }
}
