//! How a pattern's text reads.
ghost use Rattle.std.specs.Prelude.{◌≡◌, ◌≤◌, ◌<◌, ◌++◌, ◌∷◌, true, false, drop, length, Some, None, MatchOption, IfOk};
ghost use Rattle.std.specs.Str.{chars};
ghost use Rattle.rx_pattern.specs.Reading.{range_end, members_of, inside_of, is_negated, behind_mark, class_width, item_of};

use crate::class::{Member, Members};
use crate::fault::NoMemory;
use crate::item::Item;
use crate::letters::split_first_char;
use std::alloc::Global;

/// The item of a character that begins no class.
pub(crate) fn item_of(c: char) -> Item
    ensures { result ≡ item_of c }
{
    match c {
        '*' => Item::Star,
        '?' => Item::AnyOne,
        plain => Item::Plain(plain),
    }
}

/// The text of a class from behind its `[` on: whether it is negated, its characters, and what is behind its closing `]`.
/// None where it isn't closed.
pub(crate) fn split_class(text: &str) -> Option<(bool, &str, &str)>
    ensures { MatchOption result (inside_of (behind_mark (chars text.now)) ≡ None)
        (λ (negated, inside, behind). (is_negated (chars text.now) ≡ negated)
        × (inside_of (behind_mark (chars text.now)) ≡ Some (chars inside.now))
        × (chars behind.now ≡ drop (class_width (chars text.now)) (chars text.now))
        × (length behind.now ≤ length text.now)) }
{
    match split_mark(text) {
        Some(body) => {
            let (inside, behind) = split_inside(body)?;
            Some((true, inside, behind))
        }
        None => {
            let (inside, behind) = split_inside(text)?;
            Some((false, inside, behind))
        }
    }
}

/// What is behind a leading `!`.
fn split_mark(text: &str) -> Option<&str>
    ensures { MatchOption result (is_negated (chars text.now) ≡ false)
        (λ body. (is_negated (chars text.now) ≡ true) × (chars body.now ≡ drop 1 (chars text.now))
        × (length body.now ≤ length text.now)) }
{
    let (c, body) = split_first_char(text)?;
    if c == '!' { Some(body) } else { None }
}

/// The characters of a class up to its closing `]`, and what is behind that. The first one doesn't close it.
fn split_inside(text: &str) -> Option<(&str, &str)>
    ensures { MatchOption result (inside_of (chars text.now) ≡ None)
        (λ (inside, behind). (inside_of (chars text.now) ≡ Some (chars inside.now))
        × (chars text.now ≡ chars inside.now ++ 93 ∷ chars behind.now)
        × (length behind.now ≤ length text.now)) }
{
    let (_, others) = split_first_char(text)?;
    let mut rest = others;
    while let Some((c, behind)) = split_first_char(rest) {
        if c == ']' {
            return Some((&text[..text.len() - rest.len()], behind));
        }
        rest = behind;
    }
    None
}

/// The members of a class, by its characters.
pub(crate) fn read_members(alloc: Global, inside: &str) -> Result<Members, NoMemory>
    ensures { IfOk result (λ members. members ≡ members_of (chars inside.now)) }
{
    let mut members = Vec::new(alloc);
    let mut rest = inside;
    while let Some((first, behind)) = split_first_char(rest) {
        if let Some((last, later)) = split_range(behind) {
            members.push(Member::Between(first, last))?;
            rest = later;
            continue;
        }
        members.push(Member::Single(first))?;
        rest = behind;
    }
    Ok(Members::from_vec(members))
}

/// The last character of a range, and what is behind it, where a `-` and that character follow the first one.
fn split_range(text: &str) -> Option<(char, &str)>
    ensures { MatchOption result (range_end (chars text.now) ≡ None)
        (λ (last, later). (range_end (chars text.now) ≡ Some last) × (chars later.now ≡ drop 2 (chars text.now))
        × (length later.now < length text.now)) }
{
    let (dash, behind) = split_first_char(text)?;
    if dash != '-' {
        return None;
    }
    split_first_char(behind)
}
