//! A worked journal, and the plan that it holds carried out.
ghost use Rattle.std.specs.Prelude.{◌≡◌};
ghost use Rattle.rx_ranges.specs.PlanChecks.{IsPlan};

use journal_format::{JournalFault, journal_len, journal_piece, read_journal};
use redo_session::{Session, finish};
use rx_ranges::{FillMap, Listing, Plan};
use rx_store::{Area, Fault, MemStore, Store};
use session_defs::{Turn, TurnFault};
use std::alloc::{AllocError, Global};
use std::test::Fail;

/// The journal of an image of 262,144 bytes of which rule 1 filled three with 0x58, those from byte 86,016 on, which are the file
/// `/a`: its gate is open, and all marks are set.
const FILLED: [u8; 75] = [
    0x4F, 0x44, 0x46, 0x52, 0x4A, 0x20, 0x76, 0x31, 0x00, 0x00, 0x04, 0x00, 0x00, 0x00, 0x00, 0x00,
    0x01, 0x00, 0x00, 0x00, 0x01, 0x00, 0x00, 0x00, 0x23, 0x00, 0x00, 0x00, 0x00, 0x00, 0x00, 0x00,
    0x09, 0x00, 0x00, 0x00, 0x00, 0x00, 0x00, 0x00, 0x00, 0x50, 0x01, 0x00, 0x00, 0x00, 0x00, 0x00,
    0x03, 0x00, 0x00, 0x00, 0x00, 0x00, 0x00, 0x00, 0x01, 0x00, 0x00, 0x00, 0x58, 0x00, 0x00, 0x00,
    0x01, 0x01, 0x00, 0x00, 0x00, 0x02, 0x00, 0x2F, 0x61, 0x44, 0x44,
];

/// A store with an image of so many zeros, and this journal.
fn store_of(alloc: Global, image: usize, journal: &[u8]) -> Result<MemStore, AllocError> {
    let image = vec![in alloc; 0; image]?;
    let journal = Vec::from_slice(alloc, journal)?;
    let room = journal.len().max(75) as u64;
    MemStore::new(alloc, image, journal, room, 20, 200)
}

#[test]
fn a_journal_is_read_and_written(rt: HostRuntime) -> Result<(), Fail> {
    let mut store = store_of(rt.alloc(), 0, &FILLED)?;
    let state = read_journal(rt.alloc(), &mut store)?;
    assert!(rt; state.complete());
    assert_eq!(rt; state.fits(262_144), Ok(()));
    assert_eq!(rt;
        state.fits(262_145),
        Err(JournalFault::OtherLength {
            kept: 262_144,
            found: 262_145
        })
    );
    assert_eq!(rt; journal_len(&state.plan), 75);
    let mut first = [7; 75];
    journal_piece(&state.plan, 0, &mut first);
    let mut expected = FILLED;
    expected[0] = 0;
    expected[73] = 0;
    expected[74] = 0;
    assert_eq!(rt; first, expected);
    let mut piece = [7; 30];
    journal_piece(&state.plan, 45, &mut piece);
    assert_eq!(rt; piece.as_slice(), &expected[45..75]);
    Ok(())
}

/// What reading a journal with these bytes refuses.
fn fault_of(alloc: Global, journal: &[u8]) -> Result<Option<JournalFault>, AllocError> {
    let mut store = store_of(alloc, 0, journal)?;
    Ok(read_journal(alloc, &mut store).err())
}

#[test]
fn a_journal_that_is_cut_is_refused(rt: HostRuntime) -> Result<(), Fail> {
    assert_eq!(rt;
        (
            fault_of(rt.alloc(), &FILLED[..40])?,
            fault_of(rt.alloc(), &FILLED[..74])?
        ),
        (
            Some(JournalFault::NotOpen),
            Some(JournalFault::Bad { at: 24 })
        )
    );
    Ok(())
}

/// Bytes of the journal, and at which place it is refused where they are others: a path with a control character, and counts that no
/// memory suffices for.
const REFUSED: [(usize, u8, u64); 6] = [
    (72, 0x7F, 71),
    (15, 0xFF, 8),
    (19, 0xFF, 16),
    (23, 0xFF, 20),
    (31, 0xFF, 24),
    (39, 0xFF, 32),
];

#[test]
fn a_journal_that_is_none_is_refused(rt: HostRuntime) -> Result<(), Fail> {
    for (place, byte, at) in REFUSED {
        let mut journal = FILLED;
        for there in journal.iter_mut().skip(place).take(1) {
            *there = byte;
        }
        assert_eq!(rt;
            fault_of(rt.alloc(), &journal)?,
            Some(JournalFault::Bad { at }),
            "{place}"
        );
    }
    Ok(())
}

/// The plan of an image of 262,144 bytes in which nothing is filled.
fn nothing(alloc: Global) -> Plan
    ensures { IsPlan result }
{
    Plan {
        image_len: 262_144,
        ranges: FillMap::from_sorted(Vec::new(alloc)),
        listing: Listing::from_vec(Vec::new(alloc)),
    }
}

#[test]
fn a_journal_without_ranges_has_41_bytes(rt: HostRuntime) -> Result<(), Fail> {
    let plan = nothing(rt.alloc());
    assert_eq!(rt; journal_len(&plan), 41);
    let mut bytes = [7; 41];
    journal_piece(&plan, 0, &mut bytes);
    let mut wanted = [0; 41];
    wanted[1..8].copy_from_slice(b"DFRJ v1");
    wanted[10] = 4;
    wanted[24] = 1;
    assert_eq!(rt; bytes, wanted);
    Ok(())
}

/// Whether an image has its three bytes filled and no other.
fn is_filled(image: &[u8]) -> bool {
    image.iter().enumerate().all(|(at, byte)| *byte
        == if 86_016 <= at && at < 86_019 { 0x58 } else { 0 })
}

#[test]
fn a_plan_is_carried_out_in_fourteen_calls(rt: HostRuntime) -> Result<(), Fail> {
    let state = read_journal(rt.alloc(), &mut store_of(rt.alloc(), 0, &FILLED)?)?;
    let mut store = store_of(rt.alloc(), 262_144, &[])?;
    assert!(rt; store.len(Area::Image)? == state.plan.image_len);
    store.fail_at(vec![in rt.alloc(); 16]?);
    let mut session = Session::begin(rt.alloc(), &state.plan)?;
    assert_eq!(rt; finish(&mut session, &mut store), Ok(()));
    assert_eq!(rt; session.turn(&mut store), Err(TurnFault::Over));
    assert!(rt; is_filled(store.image()));
    assert_eq!(rt; store.journal(), FILLED.as_slice());
    assert_eq!(rt; store.len(Area::Image), Err(Fault));
    Ok(())
}

#[test]
fn a_session_goes_on_where_one_was_stopped(rt: HostRuntime) -> Result<(), Fail> {
    let mut open = FILLED;
    open[73] = 0;
    open[74] = 7;
    let mut store = store_of(rt.alloc(), 262_144, &open)?;
    let state = read_journal(rt.alloc(), &mut store)?;
    assert!(rt; !state.complete());
    assert!(rt; store.len(Area::Image)? == state.plan.image_len);
    let mut session = Session::resume(rt.alloc(), &state)?;
    assert_eq!(rt; session.turn(&mut store), Ok(Turn::Filled));
    let mut other = Session::resume(rt.alloc(), &state)?;
    assert!(rt; store.len(Area::Image)? == state.plan.image_len);
    assert!(rt; store.len(Area::Journal)? == journal_len(&state.plan));
    assert_eq!(rt; finish(&mut other, &mut store), Ok(()));
    assert!(rt; is_filled(store.image()));
    assert_eq!(rt; store.journal(), FILLED.as_slice());
    Ok(())
}
