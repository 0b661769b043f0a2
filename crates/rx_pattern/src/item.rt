//! An item of a pattern.
ghost use Rattle.std.specs.Prelude.{◌≡◌};
ghost use Rattle.rx_pattern.specs.Match.{item_takes};

use crate::class::Class;

/// What a place of a pattern stands for.
#[derive(Debug, Drop)]
pub enum Item {
    /// This character.
    Plain(char),
    /// Any one character.
    AnyOne,
    /// Any characters, also none.
    Star,
    /// One character that a class takes.
    OneOf(Class),
}

impl Item {
    /// Whether it stands for one character and takes this one. A star doesn't stand for one character.
    pub fn takes(&self, c: char) -> bool
        ensures { result ≡ item_takes self.now c }
    {
        match self {
            Item::Plain(plain) => c == *plain,
            Item::AnyOne => true,
            Item::Star => false,
            Item::OneOf(class) => class.takes(c),
        }
    }
}
