//! Reads the journal of a store.
ghost use Rattle.std.specs.Prelude.{◌≡◌, ◌+◌, ◌*◌, ◌<◌, ℕ, All, ◌≤◌, Err, List, length, IfErr, IfOk, IfSome};
ghost use Rattle.bytes_defs.specs.Bytes.{part};
ghost use Rattle.disk_defs.specs.Count.{IsCountedIn};
ghost use Rattle.disk_defs.specs.Disk.{size_of, told_of};
ghost use Rattle.disk_defs.specs.declared.Area.TheVariants.{Journal};
ghost use Rattle.journal_defs.specs.Form.{group_count};
ghost use Rattle.journal_format.specs.Header.{IsHeader};
ghost use Rattle.journal_format.specs.Says.{IsCalm, Says, IsState, IsReadCounted};
ghost use Rattle.rx_ranges.specs.declared.plan.TheConstants.{MAX_LISTING_BYTES, MAX_RANGES};

use crate::decode::{checked_header, read_state};
use crate::fault::JournalFault;
use crate::fields::Header;
use crate::state::JournalState;
use disk_defs::{Area, Fault};
use journal_defs::OPEN_GATE;
use rx_store::Store;
use std::alloc::Global;

/// The first bytes of the journal: its header.
fn read_header<S: Store>(store: &mut S) -> Result<[u8; 40], Fault>
    requires { 40 ≤ size_of Journal (S.state store.old) }
    ensures bytes { IfOk result (λ header. IfSome (told_of Journal (S.state store.old)) (λ bytes. header ≡ part bytes 0 40)) }
    ensures len { IfOk result (λ header. length header ≡ 40) }
    ensures same { S.state store.new ≡ S.state store.old }
    ensures counted { IsCountedIn Journal result (S.faults store.old) (S.faults store.new) }
{
    let mut header = [0; 40];
    store.read_at(Area::Journal, 0, &mut header)?;
    Ok(header)
}

/// The numbers of the header of a journal of `len` bytes, where it is one of an open journal, and passes its checks.
fn open_header(header: &[u8], len: u64) -> Result<Header, JournalFault>
    requires header { length header.now ≡ 40 }
    requires long { 41 ≤ len }
    ensures is { IfOk result (λ numbers. (bytes : List ℕ) → part bytes 0 40 ≡ header.now → IsHeader len numbers bytes) }
    ensures refuses { IfErr result (λ fault. (bytes : List ℕ) → length bytes ≡ len → part bytes 0 40 ≡ header.now → Says bytes (Err fault)) }
    ensures few { IfOk result (λ numbers. numbers.ranges ≤ MAX_RANGES) }
    ensures short { IfOk result (λ numbers. numbers.listing_len ≤ MAX_LISTING_BYTES) }
    ensures fits { IfOk result (λ numbers. 40 + 24 * numbers.ranges + numbers.listing_len + (group_count numbers.ranges + 1) ≡ len) }
    ensures fit { All (λ byte. byte < 256) header.now }
    ensures calm { IfErr result IsCalm }
{
    if header[0] != OPEN_GATE {
        return Err(JournalFault::NotOpen);
    }
    checked_header(header, len)
}

/// What the journal of a store holds. Another length is never answered.
pub fn read_journal<S: Store>(alloc: Global, store: &mut S) -> Result<JournalState, JournalFault>
    ensures told { IfSome (told_of Journal (S.state store.old)) (λ bytes. Says bytes result) }
    ensures state { IfOk result (IsState (size_of Journal (S.state store.old))) }
    ensures same { S.state store.new ≡ S.state store.old }
    ensures counted { IsReadCounted result (S.faults store.old) (S.faults store.new) }
{
    let len = store.len(Area::Journal)?;
    if len < 41 {
        return Err(JournalFault::NotOpen);
    }
    let bytes = read_header(store)?;
    let header = open_header(&bytes, len)?;
    read_state(alloc, store, &header, len)
}
