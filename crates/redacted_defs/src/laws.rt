//! The laws.
ghost use Rattle.redacted_defs.specs.SameTree.{SameFilesLaw, SameTreeLaw};

/// An image that was filled as its plan says has the tree, the guard and the kind that it had, where the plan fills no byte of the guard.
pub fn a_redacted_image_has_the_same_tree()
    ensures { SameTreeLaw }
{}

/// A file that touches no planned byte has the same bytes at all its places, content and slack.
pub fn untouched_files_read_the_same()
    ensures { SameFilesLaw }
{}
