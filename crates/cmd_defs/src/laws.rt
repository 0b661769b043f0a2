//! The laws of the commands.
ghost use Rattle.cmd_defs.specs.AnswerLaws.{RedactHasOneAnswer, ReportHasOneAnswer, ResumeHasOneAnswer};
ghost use Rattle.cmd_defs.specs.PlanAnswerLaw.{PlanHasOneAnswer};

/// A rule text and an image have one answer of `plan`.
#[tactic(auto, using(crate::proofs::PlanAnswerLaw::one_answer))]
pub fn plan_has_one_answer()
    ensures { PlanHasOneAnswer }
{}

/// What a store holds has one answer of `resume`.
#[tactic(auto, using(crate::proofs::JournalAnswers::resume_answer))]
pub fn resume_has_one_answer()
    ensures { ResumeHasOneAnswer }
{}

/// A journal has one answer of `report`.
#[tactic(auto, using(crate::proofs::JournalAnswers::report_answer))]
pub fn report_has_one_answer()
    ensures { ReportHasOneAnswer }
{}

/// A rule text and what a store holds have one answer of `redact`.
#[tactic(auto, using(crate::proofs::JournalAnswers::redact_answer))]
pub fn redact_has_one_answer()
    ensures { RedactHasOneAnswer }
{}
