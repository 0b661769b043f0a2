//! Lists that are taken item by item.
ghost use Rattle.std.specs.Prelude.{◌≡◌, [], ◌∷◌, MatchOption};

use std::marker::Model;

/// Items that are taken one after the other. Those that were taken leave little memory behind: the first stands last in the vector,
/// which gets shorter as soon as an eighth of it is to spare.
#[derive(Drop)]
pub(crate) struct Rest<T> {
    reversed: Vec<T>,
}

impl<T> Model for Rest<T> {
    ghost use Rattle.std.specs.Prelude.{List, reverse};

    ghost Value = { List T };

    ghost view = { λ r. reverse r.reversed.items };
}

impl<T> Rest<T> {
    /// All of these items.
    pub(crate) fn of(mut items: Vec<T>) -> Self
        ensures { result ≡ items.items }
    {
        items.reverse();
        Rest { reversed: items }
    }

    /// The first item.
    pub(crate) fn next(&mut self) -> Option<T>
        ensures { MatchOption result (self.old ≡ []) (λ item. self.old ≡ item ∷ self.new) }
    {
        let item = self.reversed.pop();
        let room = self.reversed.capacity();
        if room - self.reversed.len() > room / 8 {
            self.reversed.shrink_to_fit();
        }
        item
    }
}
