//! Names of units of 16 bits.
ghost use Rattle.std.specs.Prelude.{◌≡◌, ◌≤◌, ◌++◌, [], ◌∷◌, true, false, length, drop, slice_index, IsNone, IsSome, IfSome, IfOk, OnOk, string_bytes};
ghost use Rattle.std.specs.Option.{SomeIff};
ghost use Rattle.std.specs.Char.Utf16.{surrogate_pair_char};
ghost use Rattle.name_defs.specs.Texts.{units_text};
ghost use Rattle.name_defs.specs.Items.{begins_pair};

use crate::NoMemory;
use crate::characters::push_name_character;
use crate::pushing::push_unit_escape;

/// Appends a name of units as it prints.
pub(crate) fn push_units(text: &mut String, units: &[u16]) -> Result<(), NoMemory>
    ensures { OnOk result (string_bytes text.new ≡ string_bytes text.old ++ units_text units.now) }
{
    let mut rest = units;
    while let Some((first, after)) = rest.split_first() {
        rest = push_front(text, *first, after)?;
    }
    Ok(())
}

/// Appends what stands in front of units, and lends the units behind it.
fn push_front<'a>(text: &mut String, first: u16, after: &'a [u16]) -> Result<&'a [u16], NoMemory>
    ensures text { IfOk result (λ rest.
        string_bytes text.new ++ units_text rest.now ≡ string_bytes text.old ++ units_text (first ∷ after.now)) }
    ensures shorter { IfOk result (λ rest. length rest.now ≤ length after.now) }
{
    match pair_in_front(first, after) {
        Some((c, behind)) => {
            push_name_character(text, c)?;
            Ok(behind)
        }
        None => {
            push_alone(text, first)?;
            Ok(after)
        }
    }
}

/// Appends a unit that is in no pair.
fn push_alone(text: &mut String, unit: u16) -> Result<(), NoMemory>
    ensures { OnOk result (string_bytes text.new ≡ string_bytes text.old ++ units_text (unit ∷ [])) }
{
    match char::from_u32(u32::from(unit)) {
        Some(c) => push_name_character(text, c),
        None => push_unit_escape(text, unit),
    }
}

/// The character of a pair of surrogates in front of units, and the units behind it.
fn pair_in_front(first: u16, after: &[u16]) -> Option<(char, &[u16])>
    ensures none { IsNone result → begins_pair (first ∷ after.now) ≡ false }
    ensures pair { IsSome result → begins_pair (first ∷ after.now) ≡ true }
    ensures character { IfSome result (λ found. found.0 ≡ surrogate_pair_char first (slice_index after.now 0)) }
    ensures behind { IfSome result (λ found. found.1.now ≡ drop 1 after.now) }
{
    let (second, behind) = after.split_first()?;
    let c = pair_character(first, *second)?;
    Some((c, behind))
}

/// The character of two units, if they are a pair of surrogates.
fn pair_character(first: u16, second: u16) -> Option<char>
    ensures { SomeIff result (begins_pair (first ∷ second ∷ []) ≡ true) (surrogate_pair_char first second) }
{
    if first < 0xD800 || first >= 0xDC00 || second < 0xDC00 || second >= 0xE000 {
        return None;
    }
    let high = u32::from(first) - 0xD800;
    let low = u32::from(second) - 0xDC00;
    char::from_u32(0x1_0000 + high * 0x400 + low)
}
