//! The command `plan` on the small image and on images that differ from it.
use crate::small_image::{ENTRIES, Edit, FILE, FREE, ROOT, edited};
use redact_cmd::{Status, run};
use rx_store::{MemSink, MemSource, MemStore};
use std::alloc::{AllocError, Global};
use std::process::Abort;
use std::test::Fail;

pub(crate) const RULE: &[u8] = b"FILENAME \"a\" FILL 0x58";

const REPORT: &[u8] =
    b"redaction planned\nimage 262144\nranges 1\nbytes 3\nRANGE 86016 3 1 0x58\nFILE 1 /a\n";

const NOTHING: &[u8] = b"redaction planned\nimage 262144\nranges 0\nbytes 0\n";

pub(crate) const PLAN: &[&str] = &["plan", "IMAGE", "RULES"];

/// A store with this image and this journal, and room for a session.
pub(crate) fn store_of(
    alloc: Global,
    image: Vec<u8>,
    journal: &[u8],
) -> Result<MemStore, AllocError> {
    let journal = Vec::from_slice(alloc, journal)?;
    let room = journal.len().max(4096) as u64;
    MemStore::new(alloc, image, journal, room, 100, 10_000)
}

/// Runs words over a store and a source, and gives the status and what was written to a sink with so much room.
fn outcome(
    alloc: Global,
    words: &[&str],
    store: &mut MemStore,
    source: &mut MemSource,
    room: usize,
) -> Result<(Status, Vec<u8>), AllocError> {
    let mut all = Vec::new(alloc);
    for word in words {
        all.push(String::from_str(alloc, word)?)?;
    }
    let mut sink = MemSink::new(alloc, room)?;
    let status = run(alloc, &all, store, source, &mut sink);
    Ok((status, Vec::from_slice(alloc, sink.bytes())?))
}

/// Runs words over a store and a rule text, and gives the status and what was written.
pub(crate) fn ran(
    alloc: Global,
    words: &[&str],
    store: &mut MemStore,
    rules: &[u8],
) -> Result<(Status, Vec<u8>), AllocError> {
    let mut source = MemSource::new(Vec::from_slice(alloc, rules)?, None);
    outcome(alloc, words, store, &mut source, 4096)
}

/// The status and the text of words over the small image with these changes.
pub(crate) fn found(
    alloc: Global,
    words: &[&str],
    edits: &[Edit<'_>],
    rules: &[u8],
) -> Result<(Status, Vec<u8>), AllocError> {
    let mut store = store_of(alloc, edited(alloc, edits)?, &[])?;
    ran(alloc, words, &mut store, rules)
}

/// Compares what a run answered with the status and the text that are wanted.
pub(crate) fn answers(rt: &impl Abort, found: (Status, Vec<u8>), status: Status, text: &[u8]) {
    assert_eq!(*rt; found.0, status);
    assert_eq!(*rt; found.1.as_slice(), text);
}

/// Changes of the small image, a rule text, and the report of the plan then.
const PLANNED: &[(&[Edit<'static>], &[u8], &[u8])] = &[
    (&[], RULE, REPORT),
    (&[], b"FILENAME \"a\" FILL 0x58\n", REPORT),
    (&[], b"FILENAME \"a.b\" FILL 0xfF\n", NOTHING),
    // an empty root, a name with a slash, and a root without files
    (&[Edit::Bytes(ROOT + 16, b"\x00\x00")], RULE, NOTHING),
    (&[Edit::Bytes(ENTRIES + 32, b"/")], RULE, NOTHING),
    (&[Edit::Bytes(ENTRIES + 24, b"\x01")], RULE, NOTHING),
    // an extended area of one byte in a hole, a second block that is a hole, and a first one
    (&[Edit::Bytes(FILE + 92, b"\x01")], RULE, REPORT),
    (
        &[Edit::Bytes(FILE + 16, b"\x01\x10")],
        RULE,
        b"redaction planned\nimage 262144\nranges 1\nbytes 4096\nRANGE 86016 4096 1 0x58\nFILE 1 /a\n",
    ),
    (&[Edit::Bytes(FILE + 112, b"\x00")], RULE, NOTHING),
    // a file with two names
    (
        &[
            Edit::Entry(ENTRIES + 24, 3, 12, b"a"),
            Edit::Entry(ENTRIES + 36, 3, 476, b"b"),
        ],
        b"FILENAME \"b\" FILL 0x0a",
        b"redaction planned\nimage 262144\nranges 1\nbytes 3\nRANGE 86016 3 1 0x0A\nFILE 1 /a\nFILE 1 /b\n",
    ),
    // a file that shares a block
    (
        &[
            Edit::Entry(ENTRIES + 24, 3, 12, b"a"),
            Edit::Entry(ENTRIES + 36, 4, 476, b"b"),
            Edit::Inode(FREE, 0x81A4, 2, 21),
        ],
        RULE,
        b"redaction planned\nimage 262144\nranges 1\nbytes 3\nRANGE 86016 3 1 0x58\nFILE 1 /a\nALIAS /b\n",
    ),
    (
        &[
            Edit::Entry(ENTRIES + 24, 3, 12, b"a"),
            Edit::Entry(ENTRIES + 36, 4, 476, b"b"),
            Edit::Inode(FREE, 0x81A4, 2, 21),
        ],
        b"FILENAME \"b\" FILL 0x58",
        b"redaction planned\nimage 262144\nranges 1\nbytes 2\nRANGE 86016 2 1 0x58\nALIAS /a\nFILE 1 /b\n",
    ),
    // exactly twelve blocks in two rows
    (
        &[
            Edit::Inode(FILE, 0x81A4, 49152, 0),
            Edit::Pointers(FILE, [21, 22, 23, 24, 25, 26, 40, 41, 42, 43, 44, 45]),
        ],
        RULE,
        b"redaction planned\nimage 262144\nranges 2\nbytes 49152\nRANGE 86016 24576 1 0x58\nRANGE 163840 24576 1 0x58\nFILE 1 /a\n",
    ),
    // a last block that is partly used, and pointers behind it
    (
        &[
            Edit::Inode(FILE, 0x81A4, 8195, 0),
            Edit::Pointers(FILE, [21, 22, 30, -1, 0, 64, 0, 0, 0, 0, 0, 0]),
        ],
        RULE,
        b"redaction planned\nimage 262144\nranges 2\nbytes 8195\nRANGE 86016 8192 1 0x58\nRANGE 122880 3 1 0x58\nFILE 1 /a\n",
    ),
    // blocks out of order
    (
        &[
            Edit::Inode(FILE, 0x81A4, 8192, 0),
            Edit::Pointers(FILE, [31, 30, 0, 0, 0, 0, 0, 0, 0, 0, 0, 0]),
        ],
        RULE,
        b"redaction planned\nimage 262144\nranges 1\nbytes 8192\nRANGE 122880 8192 1 0x58\nFILE 1 /a\n",
    ),
    // an empty file
    (&[Edit::Inode(FILE, 0x81A4, 0, 0)], RULE, NOTHING),
    // a thirteenth block, through a block of pointers
    (
        &[
            Edit::Inode(FILE, 0x81A4, 49153, 0),
            Edit::Pointers(FILE, [21, 22, 23, 24, 25, 26, 27, 28, 29, 30, 31, 32]),
            Edit::Bytes(FILE + 208, &[40]),
            Edit::Bytes(163_840, &[41]),
        ],
        RULE,
        b"redaction planned\nimage 262144\nranges 2\nbytes 49153\nRANGE 86016 49152 1 0x58\nRANGE 167936 1 1 0x58\nFILE 1 /a\n",
    ),
    // a directory below the root
    (
        &[
            Edit::Entry(ENTRIES + 24, 3, 12, b"a"),
            Edit::Entry(ENTRIES + 36, 4, 476, b"b"),
            Edit::Inode(FREE, 0x41ED, 512, 22),
            Edit::Entry(90_112, 3, 512, b"c"),
        ],
        b"FILENAME \"c\" FILL 0x58",
        b"redaction planned\nimage 262144\nranges 1\nbytes 3\nRANGE 86016 3 1 0x58\nFILE 1 /a\nFILE 1 /b/c\n",
    ),
    // a root of two blocks of entries
    (
        &[
            Edit::Inode(ROOT, 0x41ED, 1024, 20),
            Edit::Entry(ENTRIES + 512, 4, 512, b"b"),
            Edit::Inode(FREE, 0x81A4, 4096, 22),
        ],
        b"FILENAME \"b\" FILL 0x58\n",
        b"redaction planned\nimage 262144\nranges 1\nbytes 4096\nRANGE 90112 4096 1 0x58\nFILE 1 /b\n",
    ),
];

#[test]
fn images_are_planned(rt: HostRuntime) -> Result<(), Fail> {
    for (edits, rules, report) in PLANNED {
        let found = found(rt.alloc(), PLAN, edits, rules)?;
        answers(&rt, found, Status::Done, report);
    }
    Ok(())
}

/// What `plan` answers on the small image where this call of the store, this read of the source or the sink's room is in the way.
fn troubled(
    alloc: Global,
    calls: Vec<u64>,
    read: Option<u64>,
    room: usize,
) -> Result<(Status, Vec<u8>), AllocError> {
    let mut store = store_of(alloc, edited(alloc, &[])?, &[])?;
    store.fail_at(calls);
    let mut source = MemSource::new(Vec::from_slice(alloc, RULE)?, read);
    outcome(alloc, PLAN, &mut store, &mut source, room)
}

#[test]
fn each_call_that_fails_is_answered(rt: HostRuntime) -> Result<(), Fail> {
    let alloc = rt.alloc();
    for call in 1..=10 {
        let found = troubled(alloc, vec![in alloc; call]?, None, 4096)?;
        answers(&rt, found, Status::DeviceFault, b"");
    }
    for read in 1..=2 {
        let found = troubled(alloc, Vec::new(alloc), Some(read), 4096)?;
        answers(&rt, found, Status::SourceFault, b"");
    }
    let found = troubled(alloc, Vec::new(alloc), None, 10)?;
    answers(&rt, found, Status::SinkFault, b"redaction ");
    Ok(())
}

#[test]
fn no_call_after_the_tenth(rt: HostRuntime) -> Result<(), Fail> {
    let alloc = rt.alloc();
    let found = troubled(alloc, (11..40).collect(alloc)?, None, 4096)?;
    answers(&rt, found, Status::Done, REPORT);
    Ok(())
}

/// Words and rule texts that ask for what isn't done, and the answer.
const OTHERS: &[(&[&str], &[u8], Status)] = &[
    (&[], RULE, Status::Usage),
    (&["inventory", "IMAGE"], RULE, Status::NotBuilt),
    (&["selftest", "ufs2", "7", "40"], RULE, Status::NotBuilt),
    (PLAN, b"", Status::NotBuilt),
    (PLAN, b"FILENAME \"\" FILL 0x58", Status::NotBuilt),
    (PLAN, b"FILENAME \"a\" FILL 0X58", Status::NotBuilt),
    (PLAN, b"FILENAME \"a\" FILL 0x5", Status::NotBuilt),
    (PLAN, b"FILENAME \"a\"  FILL 0x58", Status::NotBuilt),
    (PLAN, b"FILENAME \"a\" FILL 0x58\r\n", Status::NotBuilt),
    (PLAN, b"FILENAME \"a\" FILL 0x58\n\n", Status::NotBuilt),
    (PLAN, b"FILENAME \"a b\" FILL 0x58", Status::NotBuilt),
    (PLAN, b"FILENAME \"a\" KEEP", Status::NotBuilt),
    (
        PLAN,
        b"\xEF\xBB\xBFFILENAME \"a\" FILL 0x58",
        Status::NotBuilt,
    ),
];

#[test]
fn other_words_and_rule_texts_are_refused(rt: HostRuntime) -> Result<(), Fail> {
    for (words, rules, status) in OTHERS {
        let found = found(rt.alloc(), words, &[], rules)?;
        answers(&rt, found, *status, b"");
    }
    Ok(())
}
