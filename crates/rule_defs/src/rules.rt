//! Lists of rules.
ghost use Rattle.std.specs.Prelude.{◌≡◌};
ghost use Rattle.rule_defs.specs.Numbered.{AreNumbered, AreFew};

use crate::Rule;
use std::marker::Model;

/// The rules of a text, numbered from 1 in order: at most 1,000.
#[derive(Debug, Drop)]
pub struct Rules {
    rules: Vec<Rule>,
}

impl Model for Rules {
    ghost use Rattle.std.specs.Prelude.{List};
    ghost use Rattle.rule_defs.specs.declared.Rule.{Rule};
    ghost use Rattle.rule_defs.specs.Numbered.{AreNumbered, AreFew};

    ghost Value = { List Rule };

    ghost view = { λ r. r.rules.items };

    ghost invariant = { λ r. AreNumbered r.rules.items × AreFew r.rules.items };
}

impl Rules {
    /// These rules.
    pub fn from_vec(items: Vec<Rule>) -> Self
        requires numbered { AreNumbered items.items }
        requires few { AreFew items.items }
        ensures { result ≡ items.items }
    {
        Rules { rules: items }
    }

    /// The rules in order.
    pub fn items(&self) -> &[Rule]
        ensures items { result.now ≡ self.now }
        ensures numbered { AreNumbered self.now }
        ensures few { AreFew self.now }
    {
        self.rules.as_slice()
    }
}
