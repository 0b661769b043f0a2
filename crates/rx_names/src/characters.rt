//! Characters of names.
ghost use Rattle.std.specs.Prelude.{◌≡◌, ◌++◌, OnOk, string_bytes};
ghost use Rattle.std.specs.List.{flat_map};
ghost use Rattle.std.specs.Str.{encode_utf8_all, chars};
ghost use Rattle.name_defs.specs.Spelling.{name_spelling};

use crate::NoMemory;
use crate::pushing::push_byte_escape;
use crate::word::push_word_character;

/// Appends the characters of a text, each as in a name.
pub(crate) fn push_name_characters(text: &mut String, characters: &str) -> Result<(), NoMemory>
    ensures { OnOk result (string_bytes text.new
        ≡ string_bytes text.old ++ encode_utf8_all (flat_map name_spelling (chars characters.now))) }
{
    for c in characters.chars() {
        push_name_character(text, c)?;
    }
    Ok(())
}

/// Appends a character of a name: as that of a word, and `/` is escaped.
#[tactic(auto, unfolding(name_defs::specs::Spelling::name_spelling))]
pub(crate) fn push_name_character(text: &mut String, c: char) -> Result<(), NoMemory>
    ensures { OnOk result (string_bytes text.new ≡ string_bytes text.old ++ encode_utf8_all (name_spelling c)) }
{
    if c == '/' {
        push_byte_escape(text, b'/')
    } else {
        push_word_character(text, c)
    }
}
