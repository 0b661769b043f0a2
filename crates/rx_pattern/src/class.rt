//! A class: the characters that stand between `[` and `]`.
ghost use Rattle.std.specs.Prelude.{◌≡◌};
ghost use Rattle.std.specs.List.{list_any};
ghost use Rattle.rx_pattern.specs.Match.{has_character, class_takes};

use std::marker::Model;

/// A member of a class.
#[derive(Clone, Copy, Debug, PartialEq, Eq)]
pub enum Member {
    /// One character.
    Single(char),
    /// The characters from the first to the last by code point: none where the last is below the first.
    Between(char, char),
}

impl Member {
    /// Whether it has a character.
    pub fn has(&self, c: char) -> bool
        ensures { result ≡ has_character self.now c }
    {
        match self {
            Member::Single(single) => c == *single,
            Member::Between(first, last) => *first <= c && c <= *last,
        }
    }
}

/// The members of a class, in order.
#[derive(Debug, Drop)]
pub struct Members {
    members: Vec<Member>,
}

impl Model for Members {
    ghost use Rattle.std.specs.Prelude.{List};
    ghost use Rattle.rx_pattern.specs.declared.class.Member.{Member};

    ghost Value = { List Member };

    ghost view = { λ m. m.members.items };
}

impl Members {
    /// These members.
    pub fn from_vec(items: Vec<Member>) -> Self
        ensures { result ≡ items.items }
    {
        Members { members: items }
    }

    /// Whether one of them has a character.
    pub fn have(&self, c: char) -> bool
        ensures { result ≡ list_any (λ member. has_character member c) self.now }
    {
        self.members.iter().any(|member| member.has(c))
    }

    /// The members in order.
    pub fn items(&self) -> &[Member]
        ensures { result.now ≡ self.now }
    {
        self.members.as_slice()
    }
}

/// A class: its members, and whether it stands for the characters that none of them has.
#[derive(Debug, Drop)]
pub struct Class {
    pub negated: bool,
    pub members: Members,
}

impl Class {
    /// Whether it takes a character.
    pub fn takes(&self, c: char) -> bool
        ensures { result ≡ class_takes self.now c }
    {
        self.members.have(c) != self.negated
    }
}
