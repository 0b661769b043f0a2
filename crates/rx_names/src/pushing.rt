//! Appending the escapes of what doesn't print as it is.
ghost use Rattle.std.specs.Prelude.{◌≡◌, ◌++◌, OnOk, string_bytes};
ghost use Rattle.std.specs.Str.{encode_utf8_all};
ghost use Rattle.name_defs.specs.Spelling.{byte_escape, unit_escape};

use crate::NoMemory;
use name_defs::hex_digit;

/// Appends the characters that have these bytes as their numbers.
fn push_ascii(text: &mut String, bytes: &[u8]) -> Result<(), NoMemory>
    ensures { OnOk result (string_bytes text.new ≡ string_bytes text.old ++ encode_utf8_all bytes.now) }
{
    for byte in bytes {
        text.push(*byte as char)?;
    }
    Ok(())
}

/// Appends a byte as `\xHH`.
#[tactic(auto, unfolding(name_defs::specs::Spelling::byte_escape))]
pub(crate) fn push_byte_escape(text: &mut String, byte: u8) -> Result<(), NoMemory>
    ensures { OnOk result (string_bytes text.new ≡ string_bytes text.old ++ encode_utf8_all (byte_escape byte)) }
{
    let escape = [b'\\', b'x', hex_digit(byte / 16), hex_digit(byte % 16)];
    push_ascii(text, &escape)
}

/// Appends a unit of 16 bits as `\uHHHH`.
#[tactic(auto, unfolding(name_defs::specs::Spelling::unit_escape))]
pub(crate) fn push_unit_escape(text: &mut String, unit: u16) -> Result<(), NoMemory>
    ensures { OnOk result (string_bytes text.new ≡ string_bytes text.old ++ encode_utf8_all (unit_escape unit)) }
{
    let escape = [
        b'\\',
        b'u',
        hex_digit((unit / 4096) as u8),
        hex_digit((unit / 256 % 16) as u8),
        hex_digit((unit / 16 % 16) as u8),
        hex_digit((unit % 16) as u8),
    ];
    push_ascii(text, &escape)
}
