//! A window on the journal of a store.
ghost use Rattle.std.specs.Prelude.{◌≡◌, ◌+◌, ◌-◌, ◌<◌, ◌≤◌, ℕ, IsTrue, All, List, Option, length, IfOk, IfSome, OnOk};
ghost use Rattle.bytes_defs.specs.Bytes.{part};
ghost use Rattle.disk_defs.specs.Count.{IsCountedIn};
ghost use Rattle.disk_defs.specs.Disk.{size_of, told_of};
ghost use Rattle.disk_defs.specs.declared.Area.TheVariants.{Journal};
ghost use Rattle.journal_format.specs.Parts.{HasBytes, IsWindow};

use disk_defs::{Area, Fault};
use rx_ranges::NoMemory;
use rx_store::Store;
use std::alloc::Global;

/// How many bytes a window has room for. No path of a listing is longer.
pub(crate) const WINDOW_LEN: usize = 65_536;

/// The bytes of a journal from a place on, as many as were read.
#[derive(Drop)]
pub(crate) struct Window {
    room: Vec<u8>,
    place: u64,
    filled: usize,
    /// How many bytes the journal has.
    size: u64,
}

/// Room for a window.
fn room_for_window(alloc: Global) -> Result<Vec<u8>, NoMemory>
    ensures { IfOk result (λ room. length room.items ≡ WINDOW_LEN) }
{
    vec![in alloc; 0; WINDOW_LEN]
}

/// Reads bytes of the journal from a place on into the first bytes of a buffer.
fn read_first<S: Store>(store: &mut S, at: u64, len: usize, room: &mut [u8]) -> Result<(), Fault>
    requires inside { at + len ≤ size_of Journal (S.state store.old) }
    requires room { len ≤ length room.old }
    ensures told { OnOk result (IfSome (told_of Journal (S.state store.old)) (λ journal. part room.new 0 len ≡ part journal at len)) }
    ensures same { S.state store.new ≡ S.state store.old }
    ensures counted { IsCountedIn Journal result (S.faults store.old) (S.faults store.new) }
{
    store.read_at(Area::Journal, at, &mut room[..len])
}

/// So many bytes of a slice, from a place on.
#[tactic(auto, unfolding(bytes_defs::specs::Bytes::part))]
fn part_of(bytes: &[u8], from: usize, len: usize) -> &[u8]
    requires { from + len ≤ length bytes.now }
    ensures is { result.now ≡ part bytes.now from len }
    ensures long { length result.now ≡ len }
    ensures fit { All (λ byte. byte < 256) result.now }
{
    &bytes[from..from + len]
}

impl Window {
    /// A window on a journal of so many bytes, of which none is read.
    pub(crate) fn new(alloc: Global, size: u64) -> Result<Window, NoMemory>
        ensures { IfOk result (λ window. (told : Option (List ℕ)) → IsWindow told size window) }
    {
        Ok(Window {
            room: room_for_window(alloc)?,
            place: 0,
            filled: 0,
            size,
        })
    }

    /// Whether the window has so many bytes from a place on.
    fn has(&self, at: u64, len: usize) -> bool
        ensures { IsTrue result → HasBytes self.now at len }
    {
        self.place <= at && len <= self.filled && at - self.place <= (self.filled - len) as u64
    }

    /// Reads the journal from a place on, as far as there is room, where the window hasn't so many bytes from there on.
    pub(crate) fn reach<S: Store>(
        &mut self,
        store: &mut S,
        at: u64,
        len: usize,
    ) -> Result<(), Fault>
        requires window { IsWindow (told_of Journal (S.state store.old)) (size_of Journal (S.state store.old)) self.old }
        requires inside { at + len ≤ size_of Journal (S.state store.old) }
        requires room { len ≤ WINDOW_LEN }
        ensures window { OnOk result (IsWindow (told_of Journal (S.state store.old)) (size_of Journal (S.state store.old)) self.new) }
        ensures has { OnOk result (HasBytes self.new at len) }
        ensures same { S.state store.new ≡ S.state store.old }
        ensures counted { IsCountedIn Journal result (S.faults store.old) (S.faults store.new) }
    {
        if self.has(at, len) {
            return Ok(());
        }
        let filled = (self.size - at).min(WINDOW_LEN as u64) as usize;
        read_first(store, at, filled, &mut self.room)?;
        self.place = at;
        self.filled = filled;
        Ok(())
    }

    /// The bytes from a place on, so many of them.
    pub(crate) fn bytes_at(&self, at: u64, len: usize) -> &[u8]
        requires room { self.now.filled ≤ length self.now.room.items }
        requires has { HasBytes self.now at len }
        ensures is { result.now ≡ part self.now.room.items (at - self.now.place) len }
        ensures long { length result.now ≡ len }
        ensures fit { All (λ byte. byte < 256) result.now }
    {
        part_of(&self.room, (at - self.place) as usize, len)
    }
}
