//! Text inside XML.
ghost use Rattle.std.specs.Prelude.{◌≡◌, ◌++◌, IfOk, OnOk, string_bytes};
ghost use Rattle.std.specs.Str.{encode_utf8_all};
ghost use Rattle.name_defs.specs.Spelling.{xml_spelling};
ghost use Rattle.name_defs.specs.Texts.{xml_text};

use crate::NoMemory;
use rx_ranges::Text;
use std::alloc::Global;

/// A text with the entities of `&`, `<`, `>` and `"`.
pub fn xml_text(alloc: Global, text: &str) -> Result<Text, NoMemory>
    ensures { IfOk result (λ escaped. escaped ≡ xml_text text.now) }
{
    let mut escaped = String::new(alloc);
    for c in text.chars() {
        push_xml_character(&mut escaped, c)?;
    }
    Ok(Text::from_string(escaped))
}

/// Appends a character of XML text.
#[tactic(auto, unfolding(name_defs::specs::Spelling::xml_spelling))]
fn push_xml_character(text: &mut String, c: char) -> Result<(), NoMemory>
    ensures { OnOk result (string_bytes text.new ≡ string_bytes text.old ++ encode_utf8_all (xml_spelling c)) }
{
    match c {
        '&' => text.push_str("&amp;"),
        '<' => text.push_str("&lt;"),
        '>' => text.push_str("&gt;"),
        '"' => text.push_str("&quot;"),
        c => text.push(c),
    }
}
