//! Patterns of names, and texts that they match or don't.
use rx_pattern::{Pattern, PatternFault};
use std::alloc::Global;
use std::test::Fail;

fn matches(alloc: Global, pattern: &str, text: &str) -> Result<bool, PatternFault> {
    Ok(Pattern::read(alloc, pattern)?.matches(text))
}

/// The byte of the first class that isn't closed, and None where the pattern reads.
fn open_at(alloc: Global, pattern: &str) -> Result<Option<usize>, PatternFault> {
    match Pattern::read(alloc, pattern) {
        Ok(_) => Ok(None),
        Err(PatternFault::UnclosedClass { at }) => Ok(Some(at)),
        Err(PatternFault::NoMemory) => Err(PatternFault::NoMemory),
    }
}

/// Patterns, texts, and whether they match.
const TEXTS: &[(&str, &str, bool)] = &[
    ("f*3.dat", "f0013.dat", true),
    ("f*3.dat", "f0013.data", false),
    ("*", "", true),
    ("", "", true),
    ("", "a", false),
    ("?", "", false),
    ("*ab*ab", "abxaabab", true),
    ("*ab*ab", "xab", false),
    // classes
    ("[]]", "]", true),
    ("[!a-c]", "d", true),
    ("[!a-c]", "b", false),
    ("[a-]", "-", true),
    ("[a-]]", "a]", true),
    ("[]-a]", "_", true),
    ("[--a]", ".", true),
    // a range that runs back is empty
    ("[b-a]", "a", false),
    ("[b-a]", "b", false),
    ("[b-a]", "-", false),
    ("[!b-a]", "b", true),
    ("[!b-a]", "ab", false),
    // characters of several bytes
    ("[à-ï]", "é", true),
    ("[à-ï]", "ñ", false),
    ("[€]?", "€😀", true),
    ("[!€]", "😀", true),
    ("é*😀", "é€€😀", true),
    ("??", "é", false),
];

#[test]
fn a_text_matches_or_not(rt: HostRuntime) -> Result<(), Fail> {
    for (pattern, text, wanted) in TEXTS {
        assert_eq!(rt;
            matches(rt.alloc(), pattern, text)?,
            *wanted,
            "{pattern} {text}"
        );
    }
    Ok(())
}

const CLASSES: &[(&str, Option<usize>)] = &[
    ("x[]", Some(1)),
    ("[a", Some(0)),
    ("[!]", Some(0)),
    ("é[", Some(2)),
    ("[a][", Some(3)),
    ("[a[b", Some(0)),
    ("[a]", None),
];

#[test]
fn the_first_open_class_is_named(rt: HostRuntime) -> Result<(), Fail> {
    for (pattern, at) in CLASSES {
        assert_eq!(rt; open_at(rt.alloc(), pattern)?, *at, "{pattern}");
    }
    Ok(())
}

const MANY_STARS: &[(&str, bool)] = &[
    ("****a", false),
    ("*b*b*b*b*b*b*b*b*a", false),
    ("*b*b*b*b*b*b*b*b*", true),
];

#[test]
fn many_stars_on_a_long_text(rt: HostRuntime) -> Result<(), Fail> {
    let mut text = String::new(rt.alloc());
    for _ in 0..20_000 {
        text.push('b')?;
    }
    for (pattern, wanted) in MANY_STARS {
        assert_eq!(rt;
            matches(rt.alloc(), pattern, text.as_str())?,
            *wanted,
            "{pattern}"
        );
    }
    Ok(())
}
