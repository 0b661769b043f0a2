//! Tests of what no clause says: which files the words name, and what a run over real files answers.
ghost use Rattle.std.specs.Io.{WritesAtMost};

use super::{Use, answer_to, files_of, words_of};
use redact_cmd::{JournalRefusal, Status};
use rx_store::{MemSink, StdSink};
use std::alloc::{AllocError, Global};
use std::env::{Env, FillError};
use std::fs::File;
use std::test::Fail;
use std::{env, fs, io, process};

/// The numbers of the small image that aren't 0, by their places: a UFS2 with one file `/a`, which holds `abc`.
const NUMBERS: [(usize, u32); 27] = [
    (65_548, 17),
    (65_552, 18),
    (65_580, 1),
    (65_584, 4096),
    (65_588, 4096),
    (65_592, 1),
    (65_652, 512),
    (65_656, 16),
    (65_720, 16),
    (65_724, 64),
    (66_908, 0x1954_0119),
    (74_240, 0x0002_41ED),
    (74_256, 512),
    (74_352, 20),
    (74_496, 0x0001_81A4),
    (74_512, 3),
    (74_608, 21),
    (81_920, 2),
    (81_924, 0x0104_000C),
    (81_928, 0x2E),
    (81_932, 2),
    (81_936, 0x0204_000C),
    (81_940, 0x2E2E),
    (81_944, 3),
    (81_948, 0x0108_01E8),
    (81_952, 0x61),
    (86_016, 0x0063_6261),
];

/// What is reported of it when `a` was filled.
const REPORT: &str =
    "redaction done\nimage 262144\nranges 1\nbytes 3\nRANGE 86016 3 1 0x58\nFILE 1 /a\n";

fn small_image(alloc: Global) -> Result<Vec<u8>, AllocError> {
    let mut image = vec![in alloc; 0u8; 262_144]?;
    for (at, number) in NUMBERS {
        put(&mut image, at, number);
    }
    Ok(image)
}

/// Puts the number at a place of the image.
fn put(image: &mut [u8], at: usize, number: u32) {
    for (held, byte) in image.iter_mut().skip(at).zip(number.to_le_bytes()) {
        *held = byte;
    }
}

/// The path of a file of the tests.
fn place(rt: &HostRuntime, name: &str) -> io::Result<String> {
    let id = process::id(rt.process());
    let name = format!(in rt.alloc(); "dfredact-main-{id}-{name}")?;
    Ok(
        env::temp_dir(rt)?
            .join(rt.alloc(), name.as_str())?
            .into_string(),
    )
}

/// A word of a command line: behind an `@` the name of a file of the tests, else the word as it is.
fn word_of(rt: &HostRuntime, word: &str) -> io::Result<String> {
    match word.strip_prefix("@") {
        Some(name) => place(rt, name),
        None => Ok(String::from_str(rt.alloc(), word)?),
    }
}

/// The words of a command line.
fn copied(rt: &HostRuntime, words: &[&str]) -> io::Result<Vec<String>> {
    let mut copied = Vec::new(rt.alloc());
    for word in words {
        copied.push(word_of(rt, word)?)?;
    }
    Ok(copied)
}

/// What the program answers to these words, with its answer to a file.
fn status_of(rt: &HostRuntime, words: &[&str], out: &str) -> io::Result<Status> {
    let words = copied(rt, words)?;
    let out = File::create(rt, &word_of(rt, out)?)?;
    Ok(answer_to(rt, &words, &mut StdSink::new(out)))
}

/// How the image and the journal of a command's words are opened.
const USES: [(&[&str], Option<Use>, Option<Use>); 4] = [
    (&["plan", "image", "rules"], Some(Use::Read), None),
    (
        &["redact", "image", "journal", "rules"],
        Some(Use::Write),
        Some(Use::Make),
    ),
    (
        &["resume", "image", "journal"],
        Some(Use::Write),
        Some(Use::Write),
    ),
    (&["report", "journal"], None, Some(Use::Read)),
];

#[test]
fn only_redact_and_resume_open_the_image_for_writing(rt: HostRuntime) -> Result<(), Fail> {
    for (words, image, journal) in USES {
        let words = copied(&rt, words)?;
        let files = files_of(&words);
        assert!(rt; files.image == image.map(|how| ("image", how)));
        assert!(rt; files.journal == journal.map(|how| ("journal", how)));
    }
    Ok(())
}

/// Makes the small image and a rule text that fills its file.
fn make_files(rt: &HostRuntime, image: &str, rules: &str) -> io::Result<()> {
    fs::write(rt, &place(rt, image)?, &small_image(rt.alloc())?)?;
    fs::write(rt, &place(rt, rules)?, "FILENAME \"a\" FILL 0x58\n")
}

fn remove_files(rt: &HostRuntime, names: &[&str]) -> io::Result<()> {
    for name in names {
        fs::remove_file(rt, &place(rt, name)?)?;
    }
    Ok(())
}

/// Words, where the answer goes, and the status. A directory can be opened, but not read.
const REFUSED: &[(&[&str], &str, Status)] = &[
    (&["plan", "@none", "@rules"], "@out", Status::DeviceFault),
    (&["plan", "/", "@rules"], "@out", Status::DeviceFault),
    (&["plan", "@image", "@none"], "@out", Status::SourceFault),
    (&["plan", "@image", "/"], "@out", Status::SourceFault),
    (&["plan", "@none", "@none"], "@out", Status::SourceFault),
    (
        &["plan", "@image", "@rules"],
        "/dev/full",
        Status::SinkFault,
    ),
    (&["plans", "@image", "@rules"], "@out", Status::Usage),
    // a directory is no journal, and the link is another name of the image
    (
        &["redact", "@image", "/", "@rules"],
        "@out",
        Status::DeviceFault,
    ),
    (
        &["redact", "@image", "@link", "@rules"],
        "@out",
        Status::DeviceFault,
    ),
];

#[test]
fn what_is_refused_leaves_the_image(rt: HostRuntime) -> Result<(), Fail> {
    make_files(&rt, "image", "rules")?;
    let image = place(&rt, "image")?;
    fs::hard_link(&rt, &image, &place(&rt, "link")?)?;
    for (words, out, want) in REFUSED {
        assert_eq!(rt; status_of(&rt, words, out)?, *want, "{words:?}");
    }
    assert_eq!(rt; fs::read_to_string(&rt, &place(&rt, "out")?)?.as_str(), "");
    assert!(rt; fs::read(&rt, &image)? == small_image(rt.alloc())?);
    Ok(remove_files(&rt, &["image", "link", "rules", "out"])?)
}

/// Words and their status, one behind the other.
const STEPS: &[(&[&str], Status)] = &[
    (&["plan", "@redacted", "@its_rules"], Status::Done),
    (
        &["redact", "@redacted", "@journal", "@its_rules"],
        Status::Done,
    ),
    (
        &["redact", "@redacted", "@journal", "@its_rules"],
        Status::JournalOpen,
    ),
    (&["resume", "@redacted", "@journal"], Status::Done),
    (
        &["resume", "@redacted", "@its_rules"],
        Status::JournalRefused(JournalRefusal::NotOpen),
    ),
    (&["report", "@journal"], Status::Done),
];

#[test]
fn an_image_is_redacted_and_its_journal_kept(rt: HostRuntime) -> Result<(), Fail> {
    make_files(&rt, "redacted", "its_rules")?;
    let image = place(&rt, "redacted")?;
    for (words, want) in STEPS {
        assert_eq!(rt; status_of(&rt, words, "@its_out")?, *want);
    }
    assert_eq!(rt;
        fs::read_to_string(&rt, &place(&rt, "its_out")?)?.as_str(),
        REPORT
    );
    let mut filled = small_image(rt.alloc())?;
    put(&mut filled, 86_016, 0x0058_5858);
    assert!(rt; fs::read(&rt, &image)? == filled);
    assert_eq!(rt; fs::read(&rt, &place(&rt, "journal")?)?.len(), 75);
    Ok(remove_files(&rt, &["redacted", "journal", "its_rules", "its_out"])?)
}

/// The arguments of a program whose second one isn't UTF-8.
#[derive(Drop)]
struct Torn;

impl Env for Torn {
    fn arg(&self, i: usize, buf: &mut [u8]) -> Result<usize, FillError>
        ensures bound { WritesAtMost result buf.new }
    {
        if i >= 2 || buf.is_empty() {
            return Err(FillError::NotPresent);
        }
        buf[0] = 0xFF;
        Ok(i)
    }

    fn var(&self, _name: &str, _buf: &mut [u8]) -> Result<usize, FillError> {
        Err(FillError::NotPresent)
    }

    fn var_at(&self, _i: usize, _buf: &mut [u8]) -> Result<usize, FillError> {
        Err(FillError::NotPresent)
    }
}

#[test]
fn words_that_are_not_text_ask_for_nothing(rt: HostRuntime) -> Result<(), Fail> {
    let words = words_of(&(Torn, rt.alloc()))?;
    assert!(rt; words.is_empty());
    let mut out = MemSink::new(rt.alloc(), 16)?;
    assert_eq!(rt; answer_to(&rt, &words, &mut out), Status::Usage);
    assert_eq!(rt; out.bytes(), b"".as_slice());
    Ok(())
}
