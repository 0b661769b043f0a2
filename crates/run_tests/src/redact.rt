//! The commands `redact`, `resume` and `report` on the small image, one after the other.
use crate::plan::{RULE, answers, ran, store_of};
use crate::small_image::{Edit, FILE, edited};
use redact_cmd::{JournalRefusal, PlanRefusal, Status};
use rx_store::MemStore;
use std::alloc::{AllocError, Global};
use std::process::Abort;
use std::test::Fail;

const DONE: &[u8] =
    b"redaction done\nimage 262144\nranges 1\nbytes 3\nRANGE 86016 3 1 0x58\nFILE 1 /a\n";

const PENDING: &[u8] =
    b"redaction pending\nimage 262144\nranges 1\nbytes 3\nRANGE 86016 3 1 0x58\nFILE 1 /a\n";

/// The journal of the three bytes of `/a`, whose marks are all set.
const FILLED: [u8; 75] = [
    0x4F, 0x44, 0x46, 0x52, 0x4A, 0x20, 0x76, 0x31, 0x00, 0x00, 0x04, 0x00, 0x00, 0x00, 0x00, 0x00,
    0x01, 0x00, 0x00, 0x00, 0x01, 0x00, 0x00, 0x00, 0x23, 0x00, 0x00, 0x00, 0x00, 0x00, 0x00, 0x00,
    0x09, 0x00, 0x00, 0x00, 0x00, 0x00, 0x00, 0x00, 0x00, 0x50, 0x01, 0x00, 0x00, 0x00, 0x00, 0x00,
    0x03, 0x00, 0x00, 0x00, 0x00, 0x00, 0x00, 0x00, 0x01, 0x00, 0x00, 0x00, 0x58, 0x00, 0x00, 0x00,
    0x01, 0x01, 0x00, 0x00, 0x00, 0x02, 0x00, 0x2F, 0x61, 0x44, 0x44,
];

const REDACT: &[&str] = &["redact", "IMAGE", "JOURNAL", "RULES"];

const RESUME: &[&str] = &["resume", "IMAGE", "JOURNAL"];

const REPORT: &[&str] = &["report", "JOURNAL"];

/// Words, and the status and the text that they answer.
type Step = (&'static [&'static str], Status, &'static [u8]);

/// The changes of the small image, and the journal: so many bytes of the one whose marks are set, and these behind them.
type Disk = (&'static [Edit<'static>], usize, &'static [u8]);

/// The three bytes of the file are filled.
const FILLING: &[Edit<'static>] = &[Edit::Bytes(86_016, &[0x58, 0x58, 0x58])];

const OTHER_CONTENT: &[Edit<'static>] = &[Edit::Bytes(86_016, b"xyz")];

/// The file's block is that of the root's entries.
const GUARDED: &[Edit<'static>] = &[Edit::Inode(FILE, 0x81A4, 3, 20)];

const SHORTER: &[Edit<'static>] = &[Edit::End(262_143)];

const NOT_OPEN: Status = Status::JournalRefused(JournalRefusal::NotOpen);

const BAD: Status = Status::JournalRefused(JournalRefusal::Bad(24));

/// A disk, what is done, and the disk behind it.
const RUNS: &[(Disk, &[Step], Disk)] = &[
    (
        (&[], 0, b""),
        &[
            (REDACT, Status::Done, DONE),
            (REDACT, Status::JournalOpen, b""),
            (RESUME, Status::Done, DONE),
            (REPORT, Status::Done, DONE),
        ],
        (FILLING, 75, b""),
    ),
    // another content ends alike
    (
        (OTHER_CONTENT, 0, b""),
        &[(REDACT, Status::Done, DONE)],
        (FILLING, 75, b""),
    ),
    // what was pending is resumed
    (
        (&[], 73, b"\x00\x00"),
        &[
            (REPORT, Status::Done, PENDING),
            (RESUME, Status::Done, DONE),
        ],
        (FILLING, 75, b""),
    ),
    // journals that hold no plan
    (
        (&[], 40, b""),
        &[(RESUME, NOT_OPEN, b""), (REPORT, NOT_OPEN, b"")],
        (&[], 40, b""),
    ),
    (
        (&[], 74, b""),
        &[(RESUME, BAD, b""), (REPORT, BAD, b"")],
        (&[], 74, b""),
    ),
    // an image of another length
    (
        (SHORTER, 75, b""),
        &[(
            RESUME,
            Status::JournalRefused(JournalRefusal::OtherLength(262_144, 262_143)),
            b"",
        )],
        (SHORTER, 75, b""),
    ),
    // a plan that meets the guard
    (
        (GUARDED, 0, b"old"),
        &[(
            REDACT,
            Status::PlanRefused(PlanRefusal::MeetsGuard(81_920, 1)),
            b"",
        )],
        (GUARDED, 0, b"old"),
    ),
];

fn journal_of(alloc: Global, disk: &Disk) -> Result<Vec<u8>, AllocError> {
    let mut journal = Vec::from_slice(alloc, &FILLED)?;
    journal.truncate(disk.1);
    journal.extend_from_slice(disk.2)?;
    Ok(journal)
}

/// A store that holds this disk.
fn store_with(alloc: Global, disk: &Disk) -> Result<MemStore, AllocError> {
    store_of(
        alloc,
        edited(alloc, disk.0)?,
        journal_of(alloc, disk)?.as_slice(),
    )
}

/// Compares what a store holds with the disk that is wanted.
fn holds(rt: &impl Abort, alloc: Global, store: &MemStore, disk: &Disk) -> Result<(), AllocError> {
    assert!(*rt; store.image() == edited(alloc, disk.0)?.as_slice());
    assert_eq!(*rt; store.journal(), journal_of(alloc, disk)?.as_slice());
    Ok(())
}

#[test]
fn disks_are_redacted_and_resumed(rt: HostRuntime) -> Result<(), Fail> {
    let alloc = rt.alloc();
    for (before, steps, behind) in RUNS {
        let mut store = store_with(alloc, before)?;
        for (words, status, text) in *steps {
            answers(&rt, ran(alloc, words, &mut store, RULE)?, *status, text);
        }
        holds(&rt, alloc, &store, behind)?;
    }
    Ok(())
}

#[test]
fn a_session_that_fails_leaves_what_it_made(rt: HostRuntime) -> Result<(), Fail> {
    let alloc = rt.alloc();
    let mut store = store_with(alloc, &(&[], 0, b""))?;
    store.fail_at((21..90).collect(alloc)?);
    let stopped = ran(alloc, REDACT, &mut store, RULE)?;
    answers(&rt, stopped, Status::DeviceFault, b"");
    assert!(rt; store.image() == edited(alloc, &[])?.as_slice());
    store.fail_at(Vec::new(alloc));
    let resumed = ran(alloc, RESUME, &mut store, RULE)?;
    answers(&rt, resumed, Status::Done, DONE);
    holds(&rt, alloc, &store, &(FILLING, 75, b""))?;
    Ok(())
}
