//! The laws of programs that ask: the contract of each of these functions is a law, and its body is empty.

ghost use Rattle.image_defs.specs.Agreement.{FootprintLaw};
ghost use Rattle.image_defs.specs.ViaLaws.{SetLaw, ViaLaw, ViaLooksLaw};

/// The law of the footprint. A program that asks an image gives the same value or fault on every image
/// that has the same length and the same bytes where the program looks, and it looks at the same ranges
/// there.
pub fn footprint<E, X>()
    ensures { FootprintLaw E X }
{}

/// The same from a set of bytes outside of which the program doesn't look.
pub fn footprint_of_a_set<E, X>()
    ensures { SetLaw E X }
{}

/// A program on bytes that stand elsewhere in an image gives what it gives on those bytes.
#[tactic(auto, using(crate::proofs::ViaLaws::via_law))]
pub fn elsewhere_gives_the_same<E, X>()
    ensures { ViaLaw E X }
{}

/// It looks at no byte of the image but the places of those at which the program looks.
#[tactic(auto, using(crate::proofs::ViaLaws::via_looks_law))]
pub fn elsewhere_looks_at_places<E, X>()
    ensures { ViaLooksLaw E X }
{}
