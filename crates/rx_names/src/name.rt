//! Printed names.
ghost use Rattle.std.specs.Prelude.{◌≡◌, IfOk};
ghost use Rattle.rx_names.specs.Names.{name_text};

use crate::NoMemory;
use crate::bytes::push_bytes;
use crate::units::push_units;
use rx_ranges::Text;
use std::alloc::Global;

/// A stored name: its bytes, or its units of 16 bits.
#[derive(Clone, Copy, Debug)]
pub enum NameRef<'a> {
    Bytes(&'a [u8]),
    Units(&'a [u16]),
}

/// A name as text: its characters as they are, but for `\`, `/`, control characters, U+FFFE and U+FFFF, and escapes of
/// what is no character.
pub fn print_name(alloc: Global, name: NameRef<'_>) -> Result<Text, NoMemory>
    ensures { IfOk result (λ text. text ≡ name_text name.entry) }
{
    let mut text = String::new(alloc);
    match name {
        NameRef::Bytes(bytes) => push_bytes(&mut text, bytes)?,
        NameRef::Units(units) => push_units(&mut text, units)?,
    }
    Ok(Text::from_string(text))
}
