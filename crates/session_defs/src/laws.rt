//! Laws of what the calls of a session leave.
ghost use Rattle.session_defs.specs.Outcome.{ScriptLaw, RestLaw, HeldLaw, OneMoreLaw, FilledLengthLaw, FilledBytesLaw, UntouchedLaw, AcknowledgedLaw};

/// All calls of a plan leave the image with its ranges filled, and its journal with all marks, whatever the journal was.
#[tactic(auto, using(crate::proofs::OutcomeLaws::script_law))]
pub fn all_calls_fill_the_plan()
    ensures { ScriptLaw }
{}

/// The calls that are left of an open journal leave the image with the ranges of the unmarked groups filled, and all marks.
#[tactic(auto, using(crate::proofs::OutcomeLaws::rest_law))]
pub fn the_rest_fills_what_is_unmarked()
    ensures { RestLaw }
{}

/// What a store holds after changes is what it held with these changes made.
#[tactic(auto, using(crate::proofs::Made::held_law))]
pub fn stores_hold_what_changes_left()
    ensures { HeldLaw }
{}

/// After one change more a store is what that change makes of it.
#[tactic(auto, using(crate::proofs::Made::one_more_law))]
pub fn one_more_change_is_the_last()
    ensures { OneMoreLaw }
{}

/// A filled image is as long as the image.
#[tactic(auto, using(crate::proofs::Filled::filled_length_law))]
pub fn filled_images_keep_their_length()
    ensures { FilledLengthLaw }
{}

/// Each byte of a filled image is the fill that it was given, or the image's own byte.
#[tactic(auto, using(crate::proofs::Filled::filled_bytes_law))]
pub fn filled_bytes_are_planned_or_kept()
    ensures { FilledBytesLaw }
{}

/// A filled image agrees with the image wherever nothing is claimed.
pub fn what_is_not_claimed_stays()
    ensures { UntouchedLaw }
{}

/// No call writes to the image before the journal of the plan is open, and those behind write the fill of planned ranges alone.
pub fn only_what_the_journal_says_is_filled()
    ensures { AcknowledgedLaw }
{}
