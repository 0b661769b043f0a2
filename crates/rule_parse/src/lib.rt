//! Reads the rule text.
//!
//! What a text says is defined in `rule_defs` (`Reads`): in the first form it is one line that says one rule. Such a text is read
//! to its end. A text that says no rules is refused as OtherForm, and that comes for no other text; Source comes only where the
//! source failed, and NoMemory where memory ran out.
//!
//!     // the text FILENAME "a.b" FILL 0x5F
//!     let rules = read_rules(alloc, &mut source)?;
//!     rules.items()[0]        // rule 1: the files with the name a.b are filled with 0x5F
#![tactic(auto)]

ghost use Rattle.std.specs.Prelude.{◌≡◌, ◌⊎◌, [], Err, IfOk, IfSome, IsErrOf, OnOk};
ghost use Rattle.disk_defs.specs.Count.{Rose};
ghost use Rattle.rule_defs.specs.Reads.{Reads, SaysNoRules};
ghost use Rattle.rule_parse.specs.Counted.{IsCountedForRules};
ghost use Rattle.rule_parse.specs.declared.RuleFault.TheVariants.{NoMemory};

mod first_form;

use crate::first_form::{MAX_TEXT, first_line_of, rules_of};
use rule_defs::Rules;
use rx_store::{ReadError, Source, read_to_end};
use std::alloc::{AllocError, Global};

/// Why no rules were read.
#[derive(Clone, Copy, Debug, PartialEq, Eq)]
pub enum RuleFault {
    /// The text has another form than the first.
    OtherForm,
    /// The source failed.
    Source,
    /// There was no memory.
    NoMemory,
}

impl From<AllocError> for RuleFault {
    ghost from_gives = { λ _ fault. fault ≡ NoMemory };

    fn from(_error: AllocError) -> RuleFault {
        RuleFault::NoMemory
    }
}

/// Reads the rule text to its end: the rules that it says. Each error has its cause: OtherForm comes where the text says
/// no rules, and Source where the source failed.
pub fn read_rules<R: Source>(alloc: Global, source: &mut R) -> Result<Rules, RuleFault>
    ensures read { IfOk result (λ rules. IfSome (R.rest source.old) (λ text. Reads text rules)) }
    ensures ended { OnOk result (IfSome (R.rest source.new) (λ rest. rest ≡ [])) }
    ensures other { IsErrOf result RuleFault.OtherForm → IfSome (R.rest source.old) SaysNoRules }
    ensures counted { IsCountedForRules result (R.faults source.old) (R.faults source.new) }

    // A text that says no rules is refused as one, where the source didn't fail and there was memory.
    ensures complete { IfSome (R.rest source.old) (λ text. SaysNoRules text → ¬ (Rose (R.faults source.old) (R.faults source.new))
        → (result ≡ Err RuleFault.OtherForm) ⊎ (result ≡ Err RuleFault.NoMemory)) }
{
    let text = match read_to_end(alloc, source, MAX_TEXT) {
        Ok(Some(text)) => text,
        Ok(None) => return Err(RuleFault::OtherForm),
        Err(ReadError::Fault) => return Err(RuleFault::Source),
        Err(ReadError::NoMemory) => return Err(RuleFault::NoMemory),
    };
    let Some((name, fill)) = first_line_of(&text) else {
        return Err(RuleFault::OtherForm);
    };
    Ok(rules_of(alloc, name, fill)?)
}
