//! Laws of rule texts, on functions that do nothing.
ghost use Rattle.std.specs.Prelude.{◌≡◌, ℕ, List};
ghost use Rattle.rule_defs.specs.Reads.{Reads};
ghost use Rattle.rule_defs.specs.declared.Rule.{Rule};

/// A text says one list of rules.
pub fn one_list_of_rules()
    ensures { (text : List ℕ) (a b : List Rule) → Reads text a → Reads text b → a ≡ b }
{}
