//! Whether a pattern's items match a text.
ghost use Rattle.std.specs.Prelude.{◌≡◌, ◌<◌, true, false, drop, length, MatchOption};
ghost use Rattle.std.specs.Str.{chars};
ghost use Rattle.rx_pattern.specs.MatchTest.{is_match, some_rest};
ghost use Rattle.rx_pattern.specs.Tries.{first_takes_first, begins_with_star, nothing_left};

use crate::item::Item;
use crate::letters::split_first_char;

/// Whether the items match the whole text.
pub(crate) fn matches_whole(items: &[Item], text: &str) -> bool
    ensures { result ≡ is_match items.now (chars text.now) }
{
    let mut left = items;
    let mut rest = text;
    while let Some((later, behind)) = take_one(left, rest) {
        left = later;
        rest = behind;
    }
    match behind_star(left) {
        Some(later) => matches_some_rest(later, rest),
        None => have_ended(left, rest),
    }
}

/// Whether the items match some rest of the text. The place to go back to is behind the last star that was reached: an
/// earlier one need not take more, since the later one takes what it would.
fn matches_some_rest(items: &[Item], text: &str) -> bool
    ensures { result ≡ some_rest (is_match items.now) (chars text.now) }
{
    let mut star = items;
    let mut tried = text;
    let mut left = star;
    let mut rest = tried;
    loop {
        if let Some((later, behind)) = take_one(left, rest) {
            left = later;
            rest = behind;
            continue;
        }
        if let Some(later) = behind_star(left) {
            star = later;
            tried = rest;
            left = star;
            continue;
        }
        if have_ended(left, rest) {
            return true;
        }
        let Some((_, behind)) = split_first_char(tried) else {
            return false;
        };
        tried = behind;
        left = star;
        rest = tried;
    }
}

/// What is left behind the first item and the first character, where that item takes that character.
fn take_one<'a>(items: &'a [Item], text: &'a str) -> Option<(&'a [Item], &'a str)>
    ensures { MatchOption result (first_takes_first items.now (chars text.now) ≡ false)
        (λ (later, behind). (first_takes_first items.now (chars text.now) ≡ true) × (later.now ≡ drop 1 items.now)
        × (chars behind.now ≡ drop 1 (chars text.now)) × (length behind.now < length text.now)
        × (length later.now < length items.now)) }
{
    let (item, later) = items.split_first()?;
    let (c, behind) = split_first_char(text)?;
    if item.takes(c) {
        Some((later, behind))
    } else {
        None
    }
}

/// What is behind the first item, where that is a star.
fn behind_star(items: &[Item]) -> Option<&[Item]>
    ensures { MatchOption result (begins_with_star items.now ≡ false)
        (λ later. (begins_with_star items.now ≡ true) × (later.now ≡ drop 1 items.now)
        × (length later.now < length items.now)) }
{
    match items.split_first() {
        Some((Item::Star, later)) => Some(later),
        _ => None,
    }
}

/// Whether items and text have both ended.
fn have_ended(items: &[Item], text: &str) -> bool
    ensures { result ≡ nothing_left items.now (chars text.now) }
{
    items.is_empty() && text.is_empty()
}
