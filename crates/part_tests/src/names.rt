//! Printed names, words and texts, with values that are worked out by hand.
use rx_names::{NameRef, NoMemory, print_name, print_word, xml_text};
use rx_ranges::Text;
use std::alloc::Global;
use std::process::Abort;
use std::test::Fail;

/// Compares a text with the one that is wanted.
fn same(rt: &impl Abort, found: Result<Text, NoMemory>, wanted: &str) -> Result<(), NoMemory> {
    let found = found?;
    assert_eq!(*rt; found.as_str(), wanted);
    Ok(())
}

/// Compares what is printed of each name with the text beside it.
fn printed(rt: &impl Abort, alloc: Global, rows: &[(NameRef, &str)]) -> Result<(), NoMemory> {
    for (name, text) in rows {
        same(rt, print_name(alloc, *name), text)?;
    }
    Ok(())
}

const BYTES: &[(NameRef, &str)] = &[
    (NameRef::Bytes(b"\x61\xFF\x5C\x0A"), "a\\xFF\\\\\\x0A"),
    (NameRef::Bytes(b""), ""),
    (NameRef::Bytes(b"a/b c~"), "a\\x2Fb c~"),
    (NameRef::Bytes(b"\x00\x1F\x20\x7E\x7F"), "\\x00\\x1F ~\\x7F"),
];

#[test]
fn names_of_bytes(rt: HostRuntime) -> Result<(), Fail> {
    Ok(printed(&rt, rt.alloc(), BYTES)?)
}

/// U+0080, U+07FF, U+0800, U+D7FF, U+E000, U+FFFD and U+10000 stand at the edges of the forms.
const CHARACTERS: &[(NameRef, &str)] = &[
    (NameRef::Bytes(b"\xC2\x80\xDF\xBF"), "\u{80}\u{7FF}"),
    (NameRef::Bytes(b"\xE0\xA0\x80"), "\u{800}"),
    (
        NameRef::Bytes(b"\xED\x9F\xBF\xEE\x80\x80"),
        "\u{D7FF}\u{E000}",
    ),
    (NameRef::Bytes(b"\xEF\xBF\xBD"), "\u{FFFD}"),
    (NameRef::Bytes(b"\xF0\x90\x80\x80"), "\u{10000}"),
    (NameRef::Bytes(b"\xF4\x8F\xBF\xBF"), "\u{10FFFF}"),
    (
        NameRef::Bytes(b"\xEF\xBF\xBE\xEF\xBF\xBF"),
        "\\uFFFE\\uFFFF",
    ),
];

#[test]
fn characters_of_utf8(rt: HostRuntime) -> Result<(), Fail> {
    Ok(printed(&rt, rt.alloc(), CHARACTERS)?)
}

/// Overlong forms, an encoded surrogate, a character above U+10FFFF and sequences that are cut.
const BAD_BYTES: &[(NameRef, &str)] = &[
    (NameRef::Bytes(b"\xC0\x80\xC1\xBF"), "\\xC0\\x80\\xC1\\xBF"),
    (NameRef::Bytes(b"\xE0\x9F\xBF"), "\\xE0\\x9F\\xBF"),
    (NameRef::Bytes(b"\xF0\x8F\xBF\xBF"), "\\xF0\\x8F\\xBF\\xBF"),
    (NameRef::Bytes(b"\xED\xA0\x80"), "\\xED\\xA0\\x80"),
    (NameRef::Bytes(b"\xF4\x90\x80\x80"), "\\xF4\\x90\\x80\\x80"),
    (NameRef::Bytes(b"\xF5\x80"), "\\xF5\\x80"),
    (NameRef::Bytes(b"a\xE2\x82"), "a\\xE2\\x82"),
    (NameRef::Bytes(b"\xF0\x9F\x98"), "\\xF0\\x9F\\x98"),
    (NameRef::Bytes(b"\xE2\x82\x61\xC3\xA9"), "\\xE2\\x82a\u{E9}"),
];

#[test]
fn bytes_that_begin_no_character(rt: HostRuntime) -> Result<(), Fail> {
    Ok(printed(&rt, rt.alloc(), BAD_BYTES)?)
}

const UNITS: &[(NameRef, &str)] = &[
    (NameRef::Units(&[0xD800, 0x002F]), "\\uD800\\x2F"),
    (NameRef::Units(&[]), ""),
    (NameRef::Units(&[0xD83D, 0xDE00]), "\u{1F600}"),
    (
        NameRef::Units(&[0xD800, 0xDC00, 0xDBFF, 0xDFFF]),
        "\u{10000}\u{10FFFF}",
    ),
    (NameRef::Units(&[0xDE00, 0xD83D]), "\\uDE00\\uD83D"),
    (
        NameRef::Units(&[0xD83D, 0xD83D, 0xDE00]),
        "\\uD83D\u{1F600}",
    ),
    (NameRef::Units(&[0xD7FF, 0xE000]), "\u{D7FF}\u{E000}"),
    (
        NameRef::Units(&[0x005C, 0xFFFD, 0xFFFE, 0xFFFF]),
        "\\\\\u{FFFD}\\uFFFE\\uFFFF",
    ),
];

#[test]
fn names_of_units(rt: HostRuntime) -> Result<(), Fail> {
    Ok(printed(&rt, rt.alloc(), UNITS)?)
}

#[test]
fn words_keep_their_slashes(rt: HostRuntime) -> Result<(), Fail> {
    let word = print_word(rt.alloc(), "/img/a\\b\t\u{FFFE}\u{E9}");
    same(&rt, word, "/img/a\\\\b\\x09\\uFFFE\u{E9}")?;
    Ok(same(&rt, print_word(rt.alloc(), ""), "")?)
}

#[test]
fn entities_of_xml(rt: HostRuntime) -> Result<(), Fail> {
    same(&rt, xml_text(rt.alloc(), "a<&\""), "a&lt;&amp;&quot;")?;
    let text = xml_text(rt.alloc(), "x > 'y' \u{E9}\\");
    same(&rt, text, "x &gt; 'y' \u{E9}\\")?;
    Ok(same(&rt, xml_text(rt.alloc(), ""), "")?)
}
