//! The line and the code of each status.
use cmd_defs::{JournalRefusal, PlanRefusal, Status};
use cmd_words::write_status;
use rx_store::{Bound, Fault, MemSink, Sort, What};
use std::test::Fail;

const USAGE: &str =
    "dfredact: usage: inventory IMAGE, plan IMAGE RULES, redact IMAGE JOURNAL RULES, resume IMAGE JOURNAL, report JOURNAL, selftest KIND NUMBER FILES\n";

/// Statuses with their codes and their lines, each kind once, and each refusal of a journal.
const LINES: [(Status, u8, &str); 16] = [
    (Status::Done, 0, ""),
    (Status::Usage, 2, USAGE),
    (
        Status::NotRecognised,
        3,
        "dfredact: no file system recognised\n",
    ),
    (
        Status::Damaged(Sort::DirTwice, 81956),
        4,
        "dfredact: damaged: DirTwice at 81956\n",
    ),
    (
        Status::Unsupported(What::Snapshot, 74584),
        5,
        "dfredact: unsupported: Snapshot at 74584\n",
    ),
    (
        Status::DeviceFault,
        10,
        "dfredact: image or journal failed\n",
    ),
    (Status::SourceFault, 11, "dfredact: rule text failed\n"),
    (Status::SinkFault, 12, "dfredact: output failed\n"),
    (
        Status::Limit(Bound::Ranges, 1_000_000),
        13,
        "dfredact: limit Ranges 1000000 passed\n",
    ),
    (Status::NoMemory, 14, "dfredact: out of memory\n"),
    (Status::NotBuilt, 15, "dfredact: not built yet\n"),
    (
        Status::JournalOpen,
        8,
        "dfredact: journal already holds a plan\n",
    ),
    (
        Status::JournalRefused(JournalRefusal::NotOpen),
        9,
        "dfredact: journal holds no plan\n",
    ),
    (
        Status::JournalRefused(JournalRefusal::Bad(24)),
        9,
        "dfredact: journal is bad at 24\n",
    ),
    (
        Status::JournalRefused(JournalRefusal::OtherLength(262144, 262145)),
        9,
        "dfredact: journal is for 262144 bytes, image has 262145\n",
    ),
    (
        Status::PlanRefused(PlanRefusal::MeetsGuard(81920, 1)),
        7,
        "dfredact: rule 1 would fill byte 81920 of the guard\n",
    ),
];

#[test]
fn each_status_has_its_code_and_its_line(rt: HostRuntime) -> Result<(), Fail> {
    for (status, code, line) in LINES {
        let mut sink = MemSink::new(rt.alloc(), 200)?;
        assert_eq!(rt; status.code(), code);
        assert_eq!(rt; write_status(&status, &mut sink), Ok(()), "{status:?}");
        assert_eq!(rt; sink.bytes(), line.as_bytes(), "{status:?}");
    }
    Ok(())
}

#[test]
fn a_line_that_finds_no_room_is_a_fault(rt: HostRuntime) -> Result<(), Fail> {
    let mut sink = MemSink::new(rt.alloc(), 12)?;
    assert_eq!(rt; write_status(&Status::NotBuilt, &mut sink), Err(Fault));
    assert_eq!(rt; sink.bytes(), b"dfredact: no".as_slice());
    Ok(())
}
