//! The commands.
ghost use Rattle.std.specs.Prelude.{◌≡◌, ◌≢◌, ◌↔◌, ◌⊎◌, [], Some, None, IfSome, map, string_bytes};
ghost use Rattle.disk_defs.specs.Disk.{held, told_image, told_journal};
ghost use Rattle.disk_defs.specs.Stream.{taken_with, TookPrefixOf};
ghost use Rattle.disk_defs.specs.Count.{Rose};
ghost use Rattle.disk_defs.specs.declared.Area.{Area as AreaValue};
ghost use Rattle.cmd_defs.specs.Outcome.{IfBothTold, IfTextAndHeld, IsCalm, IsRefusal, IsSilent};
ghost use Rattle.cmd_defs.specs.Calls.{IsUnbuilt, MayCall, ReadsRules, faults_on, RoseSomewhere};
ghost use Rattle.cmd_defs.specs.JournalFacts.{IsUntouched};
ghost use Rattle.cmd_defs.specs.KeptTree.{KeepsTree};
ghost use Rattle.cmd_defs.specs.RedactCommand.{RedactAnswers, RedactSays};
ghost use Rattle.cmd_defs.specs.ReportCommand.{ReportAnswers, ReportSays};
ghost use Rattle.cmd_defs.specs.ResumeCommand.{ResumeAnswers, ResumeSays};
ghost use Rattle.cmd_defs.specs.PlanCommand.{PlanSays, PlanAnswers, SaysRules};
ghost use Rattle.cmd_defs.specs.Words.{command_of};
ghost use Rattle.cmd_defs.specs.declared.status.Status.{Status as StatusValue};

use crate::plan_command::plan;
use crate::redact_command::redact;
use crate::report_command::report;
use crate::resume_command::resume;
use cmd_defs::{Command, Status};
use cmd_words::parse_words;
use rx_store::{Sink, Source, Store};
use std::alloc::Global;

/// Carries out the command of the words, and answers how it ended.
///
/// `plan IMAGE RULES` reads the rule text to its end and then the image, and writes the report of their plan.
/// `redact IMAGE JOURNAL RULES` carries that plan out through the journal, and writes its report; `resume IMAGE JOURNAL` finishes the
/// plan of a journal that stands open; `report JOURNAL` writes the report of such a plan. Rule texts are read in the first form
/// alone, and images are UFS volumes; every other form of a text, images of NTFS and HFS+, and every other command are `NotBuilt`.
/// Words that fit no command are `Usage`.
///
/// An image with no file system that is known is `NotRecognised`, one that is damaged `Damaged`, one with a value that isn't
/// read `Unsupported`, and one that has more of something than is counted `Limit`, each with the place in the image or the limit.
///
/// `DeviceFault`, `SourceFault` and `SinkFault` come only where the store, the source or the sink failed in this call;
/// `NoMemory` where memory ran out. After `SinkFault` the sink took some first bytes of the report, and after every
/// other refusal nothing. Only a session of `redact` or `resume` changes what the store holds.
pub fn run<S: Store, R: Source, K: Sink>(
    alloc: Global,
    words: &[String],
    store: &mut S,
    rules: &mut R,
    out: &mut K,
) -> Status
    ensures usage { (result ≡ Status.Usage) ↔ (command_of (map (λ word. string_bytes word) words.now) ≡ None) }
    ensures unbuilt_commands { IfSome (command_of (map (λ word. string_bytes word) words.now)) (λ command. IsUnbuilt command → result ≡ Status.NotBuilt) }

    // What a status of each command says of the rule text, of what the store held and left, and of what was written. A redaction
    // that is done leaves the image's tree as it was, and the bytes of the files that meet no planned byte.
    ensures plan { command_of (map (λ word. string_bytes word) words.now) ≡ Some Command.Plan
        → IfBothTold (R.rest rules.old) (told_image (S.state store.old)) (λ text image. PlanSays result text image
        (λ report. K.taken out.new ≡ taken_with (K.taken out.old) report) (TookPrefixOf (K.taken out.old) (K.taken out.new))) }
    ensures redact { command_of (map (λ word. string_bytes word) words.now) ≡ Some Command.Redact
        → IfTextAndHeld (R.rest rules.old) (held (S.state store.old)) (λ text held. RedactSays result text held (S.state store.old) (S.state store.new)
        (λ report. K.taken out.new ≡ taken_with (K.taken out.old) report) (TookPrefixOf (K.taken out.old) (K.taken out.new))) }
    ensures keeps_tree { command_of (map (λ word. string_bytes word) words.now) ≡ Some Command.Redact → result ≡ Status.Done
        → IfTextAndHeld (R.rest rules.old) (held (S.state store.old)) (λ text before.
        IfSome (held (S.state store.new)) (λ now. KeepsTree text before.image now.image)) }
    ensures resume { command_of (map (λ word. string_bytes word) words.now) ≡ Some Command.Resume
        → IfSome (held (S.state store.old)) (λ held. ResumeSays result held (S.state store.old) (S.state store.new)
        (λ report. K.taken out.new ≡ taken_with (K.taken out.old) report) (TookPrefixOf (K.taken out.old) (K.taken out.new))) }
    ensures report { command_of (map (λ word. string_bytes word) words.now) ≡ Some Command.Report
        → IfSome (told_journal (S.state store.old)) (λ journal. ReportSays result journal
        (λ report. K.taken out.new ≡ taken_with (K.taken out.old) report) (TookPrefixOf (K.taken out.old) (K.taken out.new))) }
    ensures ended { IfSome (command_of (map (λ word. string_bytes word) words.now)) (λ command.
        ReadsRules command → result ≡ Status.Done → IfSome (R.rest rules.new) (λ rest. rest ≡ [])) }

    // With nothing counted it is the one answer that there is, or memory ran out.
    ensures complete { command_of (map (λ word. string_bytes word) words.now) ≡ Some Command.Plan → (answer : StatusValue)
        → IfBothTold (R.rest rules.old) (told_image (S.state store.old)) (λ text image. PlanAnswers answer text image
        → IsCalm (S.faults store.old).image (S.faults store.new).image → IsCalm (R.faults rules.old) (R.faults rules.new)
        → IsCalm (K.faults out.old) (K.faults out.new) → (result ≡ answer) ⊎ (result ≡ Status.NoMemory)) }
    ensures complete_redact { command_of (map (λ word. string_bytes word) words.now) ≡ Some Command.Redact → (answer : StatusValue)
        → IfTextAndHeld (R.rest rules.old) (held (S.state store.old)) (λ text held. RedactAnswers answer text held
        → ¬ (RoseSomewhere (S.faults store.old) (S.faults store.new)) → IsCalm (R.faults rules.old) (R.faults rules.new)
        → IsCalm (K.faults out.old) (K.faults out.new) → (result ≡ answer) ⊎ (result ≡ Status.NoMemory)) }
    ensures complete_resume { command_of (map (λ word. string_bytes word) words.now) ≡ Some Command.Resume → (answer : StatusValue)
        → IfSome (held (S.state store.old)) (λ held. ResumeAnswers answer held → ¬ (RoseSomewhere (S.faults store.old) (S.faults store.new))
        → IsCalm (K.faults out.old) (K.faults out.new) → (result ≡ answer) ⊎ (result ≡ Status.NoMemory)) }
    ensures complete_report { command_of (map (λ word. string_bytes word) words.now) ≡ Some Command.Report → (answer : StatusValue)
        → IfSome (told_journal (S.state store.old)) (λ journal. ReportAnswers answer journal
        → IsCalm (S.faults store.old).journal (S.faults store.new).journal → IsCalm (K.faults out.old) (K.faults out.new)
        → (result ≡ answer) ⊎ (result ≡ Status.NoMemory)) }

    // What a refusal leaves: nothing is written, and the store is as it was, but that `redact` and `resume` may have synced it.
    ensures silent { IsSilent result → K.taken out.new ≡ K.taken out.old }
    ensures untouched { IsRefusal result → IsUntouched (S.state store.old) (S.state store.new) }
    ensures same { IfSome (command_of (map (λ word. string_bytes word) words.now)) (λ command.
        command ≢ Command.Redact → command ≢ Command.Resume → S.state store.new ≡ S.state store.old) }

    // Faults have their cause, and the store is called only after the rules were read.
    ensures device { result ≡ Status.DeviceFault → RoseSomewhere (S.faults store.old) (S.faults store.new) }
    ensures source { result ≡ Status.SourceFault → Rose (R.faults rules.old) (R.faults rules.new) }
    ensures sink { result ≡ Status.SinkFault → Rose (K.faults out.old) (K.faults out.new) }
    ensures store_calm { result ≢ Status.DeviceFault → S.faults store.new ≡ S.faults store.old }
    ensures rules_calm { result ≢ Status.SourceFault → R.faults rules.new ≡ R.faults rules.old }
    ensures out_calm { result ≢ Status.SinkFault → K.faults out.new ≡ K.faults out.old }
    ensures rules_first { IfSome (command_of (map (λ word. string_bytes word) words.now)) (λ command.
        ReadsRules command → result ≡ Status.DeviceFault → IfSome (R.rest rules.old) SaysRules) }

    // A command makes no call on an area that it doesn't name: one that failed would have been counted.
    ensures uncalled { (area : AreaValue) → IfSome (command_of (map (λ word. string_bytes word) words.now)) (λ command.
        ¬ (MayCall command area) → faults_on area (S.faults store.new) ≡ faults_on area (S.faults store.old)) }

    // A command that reads no rules makes no call on their source, and one that isn't built none at all.
    ensures no_rules { IfSome (command_of (map (λ word. string_bytes word) words.now)) (λ command. ¬ (ReadsRules command) → rules.new ≡ rules.old) }
    ensures idle { IfSome (command_of (map (λ word. string_bytes word) words.now)) (λ command. IsUnbuilt command → (store.new ≡ store.old) × (out.new ≡ out.old)) }
    ensures no_command { command_of (map (λ word. string_bytes word) words.now) ≡ None → (store.new ≡ store.old) × (rules.new ≡ rules.old) × (out.new ≡ out.old) }
{
    match parse_words(words) {
        None => Status::Usage,
        Some(Command::Plan) => plan(alloc, store, rules, out),
        Some(Command::Redact) => redact(alloc, store, rules, out),
        Some(Command::Resume) => resume(alloc, store, out),
        Some(Command::Report) => report(alloc, store, out),
        Some(_) => Status::NotBuilt,
    }
}
