//! Laws of journals.
ghost use Rattle.journal_defs.specs.Laws.{ChecksLaw, OneJournalLaw, FirstJournalLaw, LengthLaw};

/// An open journal passes all checks exactly where it is the journal of some plan.
#[tactic(auto, using(crate::proofs::JournalLaws::checks_law))]
pub fn checked_journals_are_those_of_plans()
    ensures { ChecksLaw }
{}

/// A journal is that of one plan alone, with these marks alone.
pub fn a_journal_is_of_one_plan()
    ensures { OneJournalLaw }
{}

/// What is first written for a plan is, once its gate is open, a journal of it without a set mark.
#[tactic(auto, using(crate::proofs::JournalLaws::first_journal_law))]
pub fn each_plan_has_a_journal()
    ensures { FirstJournalLaw }
{}

/// A journal has the length that its plan gives it.
#[tactic(auto, using(crate::proofs::JournalLaws::length_law))]
pub fn journals_have_their_length()
    ensures { LengthLaw }
{}
