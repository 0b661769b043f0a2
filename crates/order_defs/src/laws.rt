//! Laws of lists in order.
ghost use Rattle.order_defs.specs.DistinctLaws.{DistinctLaw, RisingNumbersLaw, SortedNamesLaw};
ghost use Rattle.order_defs.specs.SortedLaws.{SortedLaw};

/// A list sorted by an order has the list's items, level ones as they stood, and is the only one that does.
pub fn sorted_lists_are_one<X>()
    ensures { SortedLaw X }
{}

/// The distinct items of a list rise and are the list's, and no other list does.
pub fn distinct_lists_are_one<X>()
    ensures { DistinctLaw X }
{}

/// The rising numbers of a list increase strictly, and are its numbers.
pub fn numbers_rise()
    ensures { RisingNumbersLaw }
{}

/// The sorted names of a list are in the order of their bytes, and are its names.
pub fn names_are_sorted()
    ensures { SortedNamesLaw }
{}
