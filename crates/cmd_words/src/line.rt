//! The line that says a status.
ghost use Rattle.std.specs.Prelude.{◌≡◌, ◌≤◌, length, OnOk, OnErr};
ghost use Rattle.disk_defs.specs.Count.{IsCounted};
ghost use Rattle.disk_defs.specs.Stream.{taken_with, TookPrefixOf};
ghost use Rattle.cmd_defs.specs.Status.{status_line, damage_line, sort_name, unsupported_line, value_name, refusal_line, journal_line, limit_line, bound_name, plain_text};

use arrayvec::ArrayString;
use cmd_defs::{JournalRefusal, PlanRefusal, Status};
use itoa::Buffer;
use rx_store::{Bound, Fault, Sink, Sort, What, write_all};

/// Writes the line that says a status. After a fault the sink took some first bytes of it.
pub fn write_status<K: Sink>(status: &Status, sink: &mut K) -> Result<(), Fault>
    ensures taken { OnOk result (K.taken sink.new ≡ taken_with (K.taken sink.old) (status_line status.now)) }
    ensures prefix { OnErr result (TookPrefixOf (K.taken sink.old) (K.taken sink.new) (status_line status.now)) }
    ensures counted { IsCounted result (K.faults sink.old) (K.faults sink.new) }
{
    write_all(sink, line_of(status).as_bytes())
}

/// Room for the longest line.
const LINE: usize = 160;

type Line = ArrayString<LINE>;

/// The name of a sort of damage.
#[tactic(auto, unfolding(cmd_defs::specs::Status::sort_name))]
fn name_of_sort(sort: Sort) -> &'static str
    ensures name { result.now ≡ sort_name sort }
    ensures short { length result.now ≤ 16 }
{
    match sort {
        Sort::BootField => "BootField",
        Sort::RecordMagic => "RecordMagic",
        Sort::MftHole => "MftHole",
        Sort::RecordField => "RecordField",
        Sort::Fixup => "Fixup",
        Sort::RunList => "RunList",
        Sort::RunCount => "RunCount",
        Sort::SegmentGap => "SegmentGap",
        Sort::Sizes => "Sizes",
        Sort::ListEntry => "ListEntry",
        Sort::AttributeMissing => "AttributeMissing",
        Sort::MftMap => "MftMap",
        Sort::BadName => "BadName",
        Sort::SuperField => "SuperField",
        Sort::RootKind => "RootKind",
        Sort::InodeNumber => "InodeNumber",
        Sort::DeadInode => "DeadInode",
        Sort::FileSize => "FileSize",
        Sort::BlockPointer => "BlockPointer",
        Sort::DirSize => "DirSize",
        Sort::DirEntry => "DirEntry",
        Sort::DirTwice => "DirTwice",
        Sort::HeaderField => "HeaderField",
        Sort::ForkExtent => "ForkExtent",
        Sort::ForkSum => "ForkSum",
        Sort::TreeHeader => "TreeHeader",
        Sort::NodeLink => "NodeLink",
        Sort::NodeRecord => "NodeRecord",
        Sort::CatalogRecord => "CatalogRecord",
        Sort::ExtentsRecord => "ExtentsRecord",
        Sort::CatalogTwice => "CatalogTwice",
        Sort::FolderMissing => "FolderMissing",
    }
}

/// The line that says what is wrong with an image.
#[tactic(auto, unfolding(cmd_defs::specs::Status::damage_line))]
fn line_of_damage(sort: Sort, place: u64) -> Line
    ensures { result.bytes ≡ damage_line sort place }
{
    let mut line = Line::new();
    line.push_str("dfredact: damaged: ");
    line.push_str(name_of_sort(sort));
    line.push_str(" at ");
    line.push_str(Buffer::new().format(place));
    line.push_str("\n");
    line
}

/// The name of what isn't supported.
#[tactic(auto, unfolding(cmd_defs::specs::Status::value_name))]
fn name_of_value(what: What) -> &'static str
    ensures name { result.now ≡ value_name what }
    ensures short { length result.now ≤ 12 }
{
    match what {
        What::BootGeometry => "BootGeometry",
        What::Snapshot => "Snapshot",
        What::ExtentsFork => "ExtentsFork",
    }
}

/// The line that says what of an image isn't supported.
#[tactic(auto, unfolding(cmd_defs::specs::Status::unsupported_line))]
fn line_of_unsupported(what: What, place: u64) -> Line
    ensures { result.bytes ≡ unsupported_line what place }
{
    let mut line = Line::new();
    line.push_str("dfredact: unsupported: ");
    line.push_str(name_of_value(what));
    line.push_str(" at ");
    line.push_str(Buffer::new().format(place));
    line.push_str("\n");
    line
}

/// The line that says a refusal of a plan.
#[tactic(auto, unfolding(cmd_defs::specs::Status::refusal_line))]
fn line_of_refusal(refusal: PlanRefusal) -> Line
    ensures { result.bytes ≡ refusal_line refusal }
{
    let PlanRefusal::MeetsGuard(place, rule) = refusal;
    let mut line = Line::new();
    line.push_str("dfredact: rule ");
    line.push_str(Buffer::new().format(rule));
    line.push_str(" would fill byte ");
    line.push_str(Buffer::new().format(place));
    line.push_str(" of the guard\n");
    line
}

/// The line that says why a journal is refused.
#[tactic(auto, unfolding(cmd_defs::specs::Status::journal_line))]
fn line_of_journal(refusal: JournalRefusal) -> Line
    ensures { result.bytes ≡ journal_line refusal }
{
    let mut line = Line::new();
    match refusal {
        JournalRefusal::NotOpen => line.push_str("dfredact: journal holds no plan\n"),
        JournalRefusal::Bad(place) => {
            line.push_str("dfredact: journal is bad at ");
            line.push_str(Buffer::new().format(place));
            line.push_str("\n");
        }
        JournalRefusal::OtherLength(kept, found) => {
            line.push_str("dfredact: journal is for ");
            line.push_str(Buffer::new().format(kept));
            line.push_str(" bytes, image has ");
            line.push_str(Buffer::new().format(found));
            line.push_str("\n");
        }
    }
    line
}

/// The name of what is counted.
#[tactic(auto, unfolding(cmd_defs::specs::Status::bound_name))]
fn name_of_bound(bound: Bound) -> &'static str
    ensures name { result.now ≡ bound_name bound }
    ensures short { length result.now ≤ 13 }
{
    match bound {
        Bound::Image => "Image",
        Bound::Slots => "Slots",
        Bound::Names => "Names",
        Bound::PathBytes => "PathBytes",
        Bound::Path => "Path",
        Bound::Depth => "Depth",
        Bound::Runs => "Runs",
        Bound::AttributeList => "AttributeList",
        Bound::RuleText => "RuleText",
        Bound::RuleLine => "RuleLine",
        Bound::Rules => "Rules",
        Bound::Ranges => "Ranges",
        Bound::Stream => "Stream",
    }
}

/// The line that says which limit was passed.
#[tactic(auto, unfolding(cmd_defs::specs::Status::limit_line))]
fn line_of_limit(bound: Bound, number: u64) -> Line
    ensures { result.bytes ≡ limit_line bound number }
{
    let mut line = Line::new();
    line.push_str("dfredact: limit ");
    line.push_str(name_of_bound(bound));
    line.push_str(" ");
    line.push_str(Buffer::new().format(number));
    line.push_str(" passed\n");
    line
}

/// The text that says a status with no operand.
#[tactic(auto, unfolding(cmd_defs::specs::Status::plain_text))]
fn text_of(status: &Status) -> &'static str
    ensures text { result.now ≡ plain_text status.now }
    ensures short { length result.now ≤ 149 }
{
    match status {
        Status::Usage => {
            "usage: inventory IMAGE, plan IMAGE RULES, redact IMAGE JOURNAL RULES, resume IMAGE JOURNAL, report JOURNAL, selftest KIND NUMBER FILES"
        }
        Status::NotRecognised => "no file system recognised",
        Status::JournalOpen => "journal already holds a plan",
        Status::DeviceFault => "image or journal failed",
        Status::SourceFault => "rule text failed",
        Status::SinkFault => "output failed",
        Status::NoMemory => "out of memory",
        Status::NotBuilt => "not built yet",
        Status::Done
        | Status::Damaged(_, _)
        | Status::Unsupported(_, _)
        | Status::PlanRefused(_)
        | Status::JournalRefused(_)
        | Status::Limit(_, _) => "",
    }
}

/// The line that says a status.
#[tactic(auto, unfolding(cmd_defs::specs::Status::status_line, cmd_defs::specs::Status::program_line))]
fn line_of(status: &Status) -> Line
    ensures { result.bytes ≡ status_line status.now }
{
    let mut line = Line::new();
    match status {
        Status::Done => return line,
        Status::Damaged(sort, place) => return line_of_damage(*sort, *place),
        Status::Unsupported(what, place) => return line_of_unsupported(*what, *place),
        Status::PlanRefused(refusal) => return line_of_refusal(*refusal),
        Status::JournalRefused(refusal) => return line_of_journal(*refusal),
        Status::Limit(bound, number) => return line_of_limit(*bound, *number),
        _ => {}
    }
    line.push_str("dfredact: ");
    line.push_str(text_of(status));
    line.push_str("\n");
    line
}
