//! Names of bytes.
ghost use Rattle.std.specs.Prelude.{◌≡◌, ◌++◌, OnOk, string_bytes};
ghost use Rattle.std.specs.List.{flat_map};
ghost use Rattle.std.specs.Str.{encode_utf8_all};
ghost use Rattle.name_defs.specs.Spelling.{byte_escape};
ghost use Rattle.name_defs.specs.Texts.{bytes_text};

use crate::NoMemory;
use crate::characters::push_name_characters;
use crate::pushing::push_byte_escape;

/// Appends a name of bytes as it prints.
pub(crate) fn push_bytes(text: &mut String, bytes: &[u8]) -> Result<(), NoMemory>
    ensures { OnOk result (string_bytes text.new ≡ string_bytes text.old ++ bytes_text bytes.now) }
{
    for chunk in bytes.utf8_chunks() {
        push_name_characters(text, chunk.valid())?;
        push_bad_bytes(text, chunk.invalid())?;
    }
    Ok(())
}

/// Appends bytes at which no character begins.
fn push_bad_bytes(text: &mut String, bytes: &[u8]) -> Result<(), NoMemory>
    ensures { OnOk result (string_bytes text.new
        ≡ string_bytes text.old ++ encode_utf8_all (flat_map byte_escape bytes.now)) }
{
    for byte in bytes {
        push_byte_escape(text, *byte)?;
    }
    Ok(())
}
