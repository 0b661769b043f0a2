//! Printed words.
ghost use Rattle.std.specs.Prelude.{◌≡◌, ◌++◌, IfOk, OnOk, string_bytes};
ghost use Rattle.std.specs.Str.{encode_utf8_all};
ghost use Rattle.name_defs.specs.Spelling.{word_spelling};
ghost use Rattle.name_defs.specs.Texts.{word_text};

use crate::NoMemory;
use crate::pushing::{push_byte_escape, push_unit_escape};
use rx_ranges::Text;
use std::alloc::Global;

/// A word with its backslashes doubled, and with escapes for control characters, U+FFFE and U+FFFF.
pub fn print_word(alloc: Global, word: &str) -> Result<Text, NoMemory>
    ensures { IfOk result (λ text. text ≡ word_text word.now) }
{
    let mut text = String::new(alloc);
    for c in word.chars() {
        push_word_character(&mut text, c)?;
    }
    Ok(Text::from_string(text))
}

/// Appends a character of a word.
#[tactic(auto, unfolding(name_defs::specs::Spelling::word_spelling))]
pub(crate) fn push_word_character(text: &mut String, c: char) -> Result<(), NoMemory>
    ensures { OnOk result (string_bytes text.new ≡ string_bytes text.old ++ encode_utf8_all (word_spelling c)) }
{
    if c == '\\' {
        text.push_str("\\\\")
    } else if c.is_ascii_control() {
        push_byte_escape(text, c as u8)
    } else if c == '\u{FFFE}' || c == '\u{FFFF}' {
        push_unit_escape(text, c as u16)
    } else {
        text.push(c)
    }
}
