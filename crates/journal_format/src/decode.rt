//! What a journal holds behind its header.
ghost use Rattle.std.specs.Prelude.{◌≡◌, ◌+◌, ◌*◌, ◌≤◌, [], map, IfErr, IfOk, IfSome, OnOk, length, slice_index};
ghost use Rattle.bytes_defs.specs.Bytes.{part};
ghost use Rattle.disk_defs.specs.Disk.{size_of, told_of};
ghost use Rattle.disk_defs.specs.declared.Area.TheVariants.{Journal};
ghost use Rattle.journal_defs.specs.Checks as checks_spec;
ghost use Rattle.journal_defs.specs.Form as form_spec;
ghost use Rattle.journal_defs.specs.Form.{group_count};
ghost use Rattle.rx_ranges.specs.declared.plan.TheConstants.{MAX_LISTING_BYTES, MAX_RANGES};
ghost use Rattle.journal_defs.specs.Reading.{plan_in};
ghost use Rattle.journal_format.specs.Header.{IsHeader, checks_of, header_in};
ghost use Rattle.journal_format.specs.Parts.{Always, IsPart, IsWindow, ReadsPart};
ghost use Rattle.journal_format.specs.Says.{IsCalm, Says, IsState, FailsAs, IsReadCounted};

use crate::fault::JournalFault;
use crate::fields::{Header, first_failing, header_checks};
use crate::listing::read_lines;
use crate::ranges::read_ranges;
use crate::state::{JournalState, Marks};
use crate::window::Window;
use journal_defs::SET_MARK;
use rx_ranges::{FillMap, Listing, NoMemory, Plan};
use rx_store::Store;
use std::alloc::Global;

/// Whether a mark is set.
fn is_set(mark: u8) -> bool
    ensures { result ≡ form_spec.is_set mark }
{
    mark == SET_MARK
}

/// Which of these marks are set.
fn set_marks(alloc: Global, bytes: &[u8]) -> Result<Vec<bool>, NoMemory>
    ensures { IfOk result (λ marks. marks.items ≡ map form_spec.is_set bytes.now) }
{
    bytes.iter().map(|mark| is_set(*mark)).collect(alloc)
}

/// The numbers of the header of a journal of `len` bytes, where it passes its checks.
pub(crate) fn checked_header(bytes: &[u8], len: u64) -> Result<Header, JournalFault>
    requires header { 40 ≤ length bytes.now }
    requires long { 41 ≤ len }
    ensures says { FailsAs (checks_spec.header_checks bytes.now len) result }
    ensures is { IfOk result (λ header. header ≡ header_in bytes.now) }
    ensures few { IfOk result (λ header. header.ranges ≤ MAX_RANGES) }
    ensures short { IfOk result (λ header. header.listing_len ≤ MAX_LISTING_BYTES) }
    ensures fits { IfOk result (λ header. 40 + 24 * header.ranges + header.listing_len + (group_count header.ranges + 1) ≡ len) }
    ensures calm { IfErr result IsCalm }
{
    match first_failing(&header_checks(bytes, len)) {
        None => Ok(Header::of(bytes)),
        Some(bad) => Err(JournalFault::Bad { at: bad }),
    }
}

/// Reads the plan of a journal with this header.
fn read_plan<S: Store>(
    alloc: Global,
    window: &mut Window,
    store: &mut S,
    header: &Header,
) -> Result<Plan, JournalFault>
    requires window { IsWindow (told_of Journal (S.state store.old)) (size_of Journal (S.state store.old)) window.old }
    requires header { IsPart (told_of Journal (S.state store.old)) 0 40 (IsHeader (size_of Journal (S.state store.old)) header.now) }
    requires few { header.now.ranges ≤ MAX_RANGES }
    requires short { header.now.listing_len ≤ MAX_LISTING_BYTES }
    requires fits { 40 + 24 * header.now.ranges + header.now.listing_len ≤ size_of Journal (S.state store.old) }
    ensures read { ReadsPart (told_of Journal (S.state store.old)) 0 (λ _. 40 + 24 * header.now.ranges + header.now.listing_len) Always
        (checks_of (size_of Journal (S.state store.old))) (λ plan whole. (plan ≡ plan_in whole) × IsHeader (size_of Journal (S.state store.old)) header.now whole) result }
    ensures window { OnOk result (IsWindow (told_of Journal (S.state store.old)) (size_of Journal (S.state store.old)) window.new) }
    ensures same { S.state store.new ≡ S.state store.old }
    ensures counted { IsReadCounted result (S.faults store.old) (S.faults store.new) }
{
    let begin = header.listing();
    let end = header.listing_end();
    let ranges = read_ranges(
        alloc,
        window,
        store,
        u64::from(header.ranges),
        header.image_len,
    )?;
    let lines = read_lines(alloc, window, store, begin, end, header.lines)?;
    Ok(Plan {
        image_len: header.image_len,
        ranges: FillMap::from_sorted(ranges),
        listing: Listing::from_vec(lines),
    })
}

/// Reads the marks of so many groups from a place on.
fn read_groups<S: Store>(
    alloc: Global,
    window: &mut Window,
    store: &mut S,
    at: u64,
    groups: usize,
) -> Result<Marks, JournalFault>
    requires window { IsWindow (told_of Journal (S.state store.old)) (size_of Journal (S.state store.old)) window.old }
    requires inside { at + groups ≤ size_of Journal (S.state store.old) }
    requires few { groups ≤ 65536 }
    ensures read { ReadsPart (told_of Journal (S.state store.old)) at (λ _. at + groups) Always (λ _. []) (λ marks whole. marks ≡ map form_spec.is_set (part whole at groups)) result }
    ensures window { OnOk result (IsWindow (told_of Journal (S.state store.old)) (size_of Journal (S.state store.old)) window.new) }
    ensures same { S.state store.new ≡ S.state store.old }
    ensures counted { IsReadCounted result (S.faults store.old) (S.faults store.new) }
{
    window.reach(store, at, groups)?;
    let marks = set_marks(alloc, window.bytes_at(at, groups))?;
    Ok(Marks::from_vec(marks))
}

/// Reads the last mark, which stands at a place.
fn read_last<S: Store>(window: &mut Window, store: &mut S, at: u64) -> Result<bool, JournalFault>
    requires window { IsWindow (told_of Journal (S.state store.old)) (size_of Journal (S.state store.old)) window.old }
    requires inside { at + 1 ≤ size_of Journal (S.state store.old) }
    ensures read { ReadsPart (told_of Journal (S.state store.old)) at (λ _. at + 1) Always (λ _. []) (λ last whole. last ≡ form_spec.is_set (slice_index whole at)) result }
    ensures same { S.state store.new ≡ S.state store.old }
    ensures counted { IsReadCounted result (S.faults store.old) (S.faults store.new) }
{
    window.reach(store, at, 1)?;
    Ok(is_set(window.bytes_at(at, 1)[0]))
}

/// Reads what a journal with this header holds.
pub(crate) fn read_state<S: Store>(
    alloc: Global,
    store: &mut S,
    header: &Header,
    len: u64,
) -> Result<JournalState, JournalFault>
    requires len { len ≡ size_of Journal (S.state store.old) }
    requires header { IsPart (told_of Journal (S.state store.old)) 0 40 (IsHeader (size_of Journal (S.state store.old)) header.now) }
    requires few { header.now.ranges ≤ MAX_RANGES }
    requires short { header.now.listing_len ≤ MAX_LISTING_BYTES }
    requires fits { 40 + 24 * header.now.ranges + header.now.listing_len + (group_count header.now.ranges + 1) ≡ len }
    ensures told { IfSome (told_of Journal (S.state store.old)) (λ bytes. Says bytes result) }
    ensures state { IfOk result (IsState (size_of Journal (S.state store.old))) }
    ensures same { S.state store.new ≡ S.state store.old }
    ensures counted { IsReadCounted result (S.faults store.old) (S.faults store.new) }
{
    let mut window = Window::new(alloc, len)?;
    let plan = read_plan(alloc, &mut window, store, header)?;
    let marks = header.listing_end();
    let count = header.groups();
    let groups = read_groups(alloc, &mut window, store, marks, count as usize)?;
    let last = read_last(&mut window, store, marks + count)?;
    Ok(JournalState { plan, groups, last })
}
