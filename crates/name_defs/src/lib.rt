//! How stored names, words and texts are printed, and hexadecimal digits.
//!
//! A name is stored as bytes (UFS) or as 16-bit units (NTFS, HFS+). Printed, valid characters stay as they are; a backslash is
//! doubled; control characters and a slash are `\xHH`, a byte at which no UTF-8 begins too; a lone surrogate, U+FFFE and U+FFFF
//! are `\uHHHH`. Digits are upper case. Valid UTF-8 is that of the Unicode Standard, section 3.9.
//!
//! The promised laws of `laws`: each stored name has a spelling of its own, and a printed name has no control character and no slash.
//!
//!     the bytes 61 FF 5C 0A print as  a\xFF\\\x0A
#![tactic(auto)]

pub mod laws;

ghost use Rattle.std.specs.Prelude.{◌≡◌, ◌<◌};
ghost use Rattle.name_defs.specs.Spelling.{hex_digit};

/// The upper-case hexadecimal digit of a number.
#[tactic(auto, unfolding(crate::specs::Spelling::hex_digit))]
pub fn hex_digit(value: u8) -> u8
    requires { value < 16 }
    ensures digit { result ≡ hex_digit value }
    ensures ascii { result < 128 }
{
    if value < 10 {
        b'0' + value
    } else {
        b'A' + (value - 10)
    }
}
