//! Laws of images: the contract of each of these functions is a law, and its body is empty.
ghost use Rattle.tree_defs.specs.Footprint.{ImageFootprintLaw};
ghost use Rattle.tree_defs.specs.Refusals.{ImageRefusalLaw};

/// The law of the footprint for images: an image that has the same length and the same bytes in the guard has the same tree or
/// the same refusal, the same guard, and the same kind.
pub fn images_rest_on_their_guard()
    ensures { ImageFootprintLaw }
{}

/// What refuses an image is true of it: it has no magic, or a clause is false at that place, something there isn't supported, or a
/// limit is passed. Nothing of the kind is true of an image that has a tree, and an image of which nothing of the kind is true has one.
#[tactic(auto, using(crate::proofs::Refusals::image_refusal_law))]
pub fn images_are_refused_truly()
    ensures { ImageRefusalLaw }
{}
