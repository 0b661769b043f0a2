//! Patterns.
ghost use Rattle.std.specs.Prelude.{◌≡◌, ◌↔◌, ℕ, IfOk, IsTrue};
ghost use Rattle.std.specs.Str.{chars};
ghost use Rattle.rx_pattern.specs.Match.{Match};
ghost use Rattle.rx_pattern.specs.MatchTest.{is_match};
ghost use Rattle.rx_pattern.specs.Reading.{read_pattern};

use crate::class::Class;
use crate::fault::PatternFault;
use crate::item::Item;
use crate::letters::split_first_char;
use crate::matching::matches_whole;
use crate::reading::{item_of, read_members, split_class};
use std::alloc::Global;
use std::marker::Model;

/// A pattern: its items from the left.
#[derive(Debug, Drop)]
pub struct Pattern {
    items: Vec<Item>,
}

impl Model for Pattern {
    ghost use Rattle.std.specs.Prelude.{List};
    ghost use Rattle.rx_pattern.specs.declared.item.Item.{Item};

    ghost Value = { List Item };

    ghost view = { λ p. p.items.items };
}

impl Pattern {
    /// Reads a pattern's text from the left.
    pub fn read(alloc: Global, text: &str) -> Result<Pattern, PatternFault>
        ensures items { IfOk result (λ pattern. read_pattern (chars text.now) ≡ Ok pattern) }
        ensures unclosed { (at : ℕ) → result ≡ Err (PatternFault.UnclosedClass at) → read_pattern (chars text.now) ≡ Err at }
    {
        let mut items = Vec::new(alloc);
        let mut rest = text;
        while let Some((c, behind)) = split_first_char(rest) {
            if c != '[' {
                items.push(item_of(c))?;
                rest = behind;
                continue;
            }
            let Some((negated, inside, later)) = split_class(behind) else {
                let at = text.len() - rest.len();
                return Err(PatternFault::UnclosedClass { at });
            };
            let members = read_members(alloc, inside)?;
            items.push(Item::OneOf(Class { negated, members }))?;
            rest = later;
        }
        Ok(Pattern { items })
    }

    /// Whether it matches the whole text.
    pub fn matches(&self, text: &str) -> bool
        ensures relation { IsTrue result ↔ Match self.now (chars text.now) }
        ensures test { result ≡ is_match self.now (chars text.now) }
    {
        matches_whole(self.items.as_slice(), text)
    }
}
