//! The first form of a rule text.
ghost use Rattle.std.specs.Prelude.{◌≡◌, ℕ, ◌<◌, [], ◌∷◌, List, IfSome, IfNone, IfOk, IsTrue};
ghost use Rattle.std.specs.List.{list_all};
ghost use Rattle.rule_defs.specs.FirstLine.{without_end, IsOtherLine};
ghost use Rattle.rule_defs.specs.Reads.{is_name_byte, is_plain_name, hex_value, first_line, first_rule, IsFirstLine};

use rule_defs::{Action, Condition, Rule, Rules};
use rx_ranges::{NoMemory, Text};
use std::alloc::Global;

/// The length of the longest text in the first form: FILENAME and a quote, a name of 255 bytes, a quote, FILL and 0x,
/// two digits and a line feed.
pub(crate) const MAX_TEXT: usize = 10 + 255 + 9 + 2 + 1;

/// A text without the line feed that may end it.
fn trimmed(text: &[u8]) -> &[u8]
    ensures { result.now ≡ without_end text.now }
{
    text.strip_suffix(b"\n").unwrap_or(text)
}

/// The name and the two digits of a line in the first form.
fn split(line: &[u8]) -> Option<(&[u8], u8, u8)>
    ensures found { IfSome result (λ parts. line.now ≡ first_line parts.0.now parts.1 parts.2) }
    ensures none { IfNone result (IsOtherLine line.now) }
{
    let quoted = line.strip_prefix(b"FILENAME \"")?;
    let (head, digits) = quoted.split_last_chunk::<2>()?;
    let name = head.strip_suffix(b"\" FILL 0x")?;
    Some((name, digits[0], digits[1]))
}

/// The value of a hexadecimal digit of either case.
fn hex_value_of(digit: u8) -> Option<u8>
    ensures value { result ≡ hex_value digit }
    ensures small { IfSome result (λ value. value < 16) }
{
    match digit {
        b'0'..=b'9' => Some(digit - b'0'),
        b'A'..=b'F' => Some(digit - b'A' + 10),
        b'a'..=b'f' => Some(digit - b'a' + 10),
        _ => None,
    }
}

/// Whether a byte may stand in a name: a letter, a digit, '.', '_' or '-'.
fn may_stand_in_name(byte: u8) -> bool
    ensures { result ≡ is_name_byte byte }
{
    matches!(byte, b'a'..=b'z' | b'A'..=b'Z' | b'0'..=b'9' | b'.' | b'_' | b'-')
}

fn all_may_stand(name: &[u8]) -> bool
    ensures { result ≡ list_all is_name_byte name.now }
{
    name.iter().all(|byte| may_stand_in_name(*byte))
}

fn is_plain(name: &[u8]) -> bool
    ensures { result ≡ is_plain_name name.now }
{
    let len = name.len();
    1 <= len && len <= 255 && all_may_stand(name)
}

/// The name and the fill of a text in the first form.
pub(crate) fn first_line_of(text: &[u8]) -> Option<(&[u8], u8)>
    ensures found { IfSome result (λ line. IsFirstLine text.now line.0.now line.1) }
    ensures none { IfNone result ((name : List ℕ) (fill : ℕ) → ¬ (IsFirstLine text.now name fill)) }
{
    let (name, high, low) = split(trimmed(text))?;
    let fill = 16 * hex_value_of(high)? + hex_value_of(low)?;
    if !is_plain(name) {
        return None;
    }
    Some((name, fill))
}

/// The rules of a text in the first form.
#[tactic(auto, using(crate::proofs::FirstLines::plain_text))]
pub(crate) fn rules_of(alloc: Global, name: &[u8], fill: u8) -> Result<Rules, NoMemory>
    requires { IsTrue (is_plain_name name.now) }
    ensures { IfOk result (λ rules. rules ≡ first_rule name.now fill ∷ []) }
{
    let name = std::str::from_utf8(name).unwrap();
    let rule = Rule {
        number: 1,
        condition: Condition::FileName(Text::from_str(alloc, name)?),
        action: Action::Fill(fill),
    };
    Ok(Rules::from_vec(vec![in alloc; rule]?))
}
