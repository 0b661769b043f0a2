//! A store in memory, whose calls fail where they are told to.
ghost use Rattle.std.specs.Prelude.{◌≡◌, ◌+◌, ◌≤◌, [], false, length, max, vec_len, vec_capacity, IfOk, OnOk, OnErr, IsErr, Contains};
ghost use Rattle.disk_defs.specs.Disk.{size_of, state_after, IsAfterFailed, MayWrite, ReadsFrom};
ghost use Rattle.disk_defs.specs.Story.{Write, Cut, Sync, changed};
ghost use Rattle.disk_defs.specs.Count.{FailedIn, FailedInBoth, IsCountedIn, IsCountedInBoth, faults_after, faults_after_in, faults_after_in_both, no_faults, one_more, one_more_in, one_more_in_both};
ghost use Rattle.disk_defs.specs.Memory.{FitsInMemory, IsRefused, has_room, held_in_memory, room_after};
ghost use Rattle.bytes_defs.specs.Bytes.{part};
ghost use Rattle.rx_store.specs.Changes.{FitsIn, IsHeldAs, held_of};

use crate::NoMemory;
use crate::append::{overwrite, write_from};
use crate::changes::Changes;
use crate::fault_counts::FaultCounts;
use crate::store::Store;
use disk_defs::{Area, Fault};
use std::alloc::Global;
use std::marker::Model;

/// How many calls were made and failed, and the numbers of those that fail. The counts stay at their last value.
#[derive(Drop)]
struct Calls {
    made: u64,
    failing: Vec<u64>,
    failed: u64,
    faults: FaultCounts,
}

impl Calls {
    /// Counts a call on an area, and lets it fail where its number was named.
    fn begin(&mut self, area: Area) -> Result<(), Fault>
        ensures fails { Contains self.old.failing.items (one_more self.old.made) → IsErr result }
        ensures only_named { OnErr result (Contains self.old.failing.items (one_more self.old.made)) }
        ensures calls { self.new ≡ record self.old {
          made = one_more self.old.made;
          failed = faults_after result self.old.failed;
          faults = faults_after_in area result self.old.faults;
        } }
        ensures counted { IsCountedIn area result self.old.faults self.new.faults }
    {
        self.made = self.made.saturating_add(1);
        if self.failing.contains(&self.made) {
            return Err(self.fail(area));
        }
        Ok(())
    }

    /// Counts a change of an area, and lets it fail where its number was named or there is no room for it.
    fn begin_change(&mut self, area: Area, has_room: bool) -> Result<(), Fault>
        ensures fails { Contains self.old.failing.items (one_more self.old.made) → IsErr result }
        ensures full { has_room ≡ false → IsErr result }
        ensures only { OnErr result (IsRefused self.old.failing.items (one_more self.old.made) has_room) }
        ensures calls { self.new ≡ record self.old {
          made = one_more self.old.made;
          failed = faults_after result self.old.failed;
          faults = faults_after_in area result self.old.faults;
        } }
        ensures counted { IsCountedIn area result self.old.faults self.new.faults }
    {
        self.begin(area)?;
        if !has_room {
            return Err(self.fail(area));
        }
        Ok(())
    }

    /// Counts a sync, and lets it fail where its number was named or there is no room for it.
    fn begin_sync(&mut self, has_room: bool) -> Result<(), Fault>
        ensures fails { Contains self.old.failing.items (one_more self.old.made) → IsErr result }
        ensures full { has_room ≡ false → IsErr result }
        ensures only { OnErr result (IsRefused self.old.failing.items (one_more self.old.made) has_room) }
        ensures calls { self.new ≡ record self.old {
          made = one_more self.old.made;
          failed = faults_after result self.old.failed;
          faults = faults_after_in_both result self.old.faults;
        } }
        ensures counted { IsCountedInBoth result self.old.faults self.new.faults }
    {
        self.made = self.made.saturating_add(1);
        if self.failing.contains(&self.made) {
            return Err(self.fail_both());
        }
        if !has_room {
            return Err(self.fail_both());
        }
        Ok(())
    }

    /// Counts a fault on an area.
    fn fail(&mut self, area: Area) -> Fault
        ensures calls { self.new ≡ record self.old { failed = one_more self.old.failed; faults = one_more_in area self.old.faults } }
        ensures counted { FailedIn area self.old.faults self.new.faults }
    {
        self.failed = self.failed.saturating_add(1);
        self.faults.add(area);
        Fault
    }

    /// Counts a fault on both areas.
    fn fail_both(&mut self) -> Fault
        ensures calls { self.new ≡ record self.old { failed = one_more self.old.failed; faults = one_more_in_both self.old.faults } }
        ensures counted { FailedInBoth self.old.faults self.new.faults }
    {
        self.failed = self.failed.saturating_add(1);
        self.faults.add_both();
        Fault
    }
}

/// A store in memory. It tells all that was done to it.
#[derive(Drop)]
pub struct MemStore {
    image: Vec<u8>,
    journal: Vec<u8>,
    room: usize,
    changes: Changes,
    calls: Calls,
    ghost kept: { IsHeldAs changes.story image journal },
    ghost fits: { FitsInMemory (held_of image journal) },
}

impl Model for MemStore {
    ghost use Rattle.std.specs.Prelude.{◌≤◌, vec_len, vec_capacity};
    ghost use Rattle.std.proofs.Common.{subst, sym};
    ghost use Rattle.disk_defs.specs.Memory.{FitsInMemory, StoreInMemory};

    ghost Value = { StoreInMemory };

    ghost view = { λ store. record {
      story = store.changes.story;
      fits = subst FitsInMemory (sym store.kept) store.fits;
      room = record { journal = store.room; changes = store.changes.changes; bytes = store.changes.bytes };
      failing = store.calls.failing.items;
      calls = store.calls.made;
      failed = store.calls.failed;
      faults = store.calls.faults;
    } };

    ghost invariant = { λ store. (vec_len store.journal ≤ store.room) × (store.room ≤ vec_capacity store.journal) };
}

impl MemStore {
    /// A store that holds these bytes, of whose calls none fails. Room for a journal of `room` bytes is taken here, and for a
    /// record of `changes` changes that write `log` bytes in all: no later call takes memory, and a change for which there is no
    /// room fails.
    pub fn new(
        alloc: Global,
        image: Vec<u8>,
        mut journal: Vec<u8>,
        room: u64,
        changes: u64,
        log: u64,
    ) -> Result<MemStore, NoMemory>
        requires { vec_len journal ≤ room }
        ensures held { IfOk result (λ store. held_in_memory store ≡ record { image = image.items; journal = journal.items }) }
        ensures events { IfOk result (λ store. store.story.events ≡ []) }
        ensures room { IfOk result (λ store. store.room ≡ record { journal = room; changes = changes; bytes = log }) }
        ensures failing { IfOk result (λ store. store.failing ≡ []) }
        ensures calls { IfOk result (λ store. store.calls ≡ 0) }
        ensures failed { IfOk result (λ store. store.failed ≡ 0) }
        ensures faults { IfOk result (λ store. store.faults ≡ no_faults) }
    {
        let first = Changes::new(alloc, &image, &journal, changes as usize, log as usize)?;
        journal.reserve(room as usize - journal.len())?;
        Ok(MemStore {
            image,
            journal,
            room: room as usize,
            changes: first,
            calls: Calls {
                made: 0,
                failing: Vec::new(alloc),
                failed: 0,
                faults: FaultCounts::new(),
            },
        })
    }

    /// A store that holds a copy of an image and no journal, with no room for a change: it is read alone.
    pub fn of_image(alloc: Global, image: &[u8]) -> Result<MemStore, NoMemory>
        ensures held { IfOk result (λ store. held_in_memory store ≡ record { image = image.now; journal = [] }) }
        ensures failing { IfOk result (λ store. store.failing ≡ []) }
        ensures faults { IfOk result (λ store. store.faults ≡ no_faults) }
    {
        let image = Vec::from_slice(alloc, image)?;
        MemStore::new(alloc, image, Vec::new(alloc), 0, 0, 0)
    }

    /// Lets the calls of the store with these numbers fail, counted from 1 over all of its calls, and no others but those for
    /// which there is no room. A change that fails so changes nothing.
    pub fn fail_at(&mut self, calls: Vec<u64>)
        ensures failing { self.new.failing ≡ calls.items }
        ensures story { self.new.story ≡ self.old.story }
        ensures room { self.new.room ≡ self.old.room }
        ensures calls { self.new.calls ≡ self.old.calls }
        ensures failed { self.new.failed ≡ self.old.failed }
        ensures faults { self.new.faults ≡ self.old.faults }
    {
        self.calls.failing = calls;
    }

    /// What the image holds.
    pub fn image(&self) -> &[u8]
        ensures { result.now ≡ (held_in_memory self.now).image }
    {
        self.image.as_slice()
    }

    /// What the journal holds.
    pub fn journal(&self) -> &[u8]
        ensures { result.now ≡ (held_in_memory self.now).journal }
    {
        self.journal.as_slice()
    }

    /// How many calls have failed.
    pub fn faults(&self) -> u64
        ensures { result ≡ self.now.failed }
    {
        self.calls.failed
    }

    /// Whether there is room for a write.
    fn has_room(&self, area: Area, at: u64, bytes: &[u8]) -> bool
        ensures { result ≡ has_room (Write area at bytes.now) self.now.room }
    {
        let recorded = self.changes.left() > 0 && bytes.len() <= self.changes.bytes_left();
        match area {
            Area::Image => recorded,
            Area::Journal => {
                recorded && at <= self.room as u64 && bytes.len() as u64 <= self.room as u64 - at
            }
        }
    }
}

/// Copies the bytes from a place on.
#[tactic(auto, unfolding(bytes_defs::specs::Bytes::part))]
fn copy_from(bytes: &[u8], at: u64, buf: &mut [u8])
    requires { at + length buf.old ≤ length bytes.now }
    ensures { buf.new ≡ part bytes.now at (length buf.new) }
{
    let at = at as usize;
    buf.copy_from_slice(&bytes[at..at + buf.len()]);
}

/// Writes bytes into an area.
fn put(image: &mut Vec<u8>, journal: &mut Vec<u8>, area: Area, at: u64, bytes: &[u8])
    requires fits { FitsIn area at (length bytes.now) image.old journal.old }
    ensures written { held_of image.new journal.new ≡ changed (Write area at bytes.now) (held_of image.old journal.old) }
    ensures room { vec_len journal.new ≤ max (vec_len journal.old) (at + length bytes.now) }
    ensures capacity { vec_capacity journal.old ≤ vec_capacity journal.new }
{
    match area {
        Area::Image => overwrite(image, at as usize, bytes),
        Area::Journal => write_from(journal, at as usize, bytes),
    }
}

impl Store for MemStore {
    ghost use Rattle.disk_defs.specs.Memory.{state_in_memory};

    ghost state = { state_in_memory };

    ghost faults = { λ store. store.faults };

    fn len(&mut self, area: Area) -> Result<u64, Fault>
        ensures size { IfOk result (λ size. size ≡ size_of area (state_in_memory self.old)) }
        ensures same { state_in_memory self.new ≡ state_in_memory self.old }
        ensures counted { IsCountedIn area result self.old.faults self.new.faults }

        // It fails exactly where its number was named.
        ensures fails { Contains self.old.failing (one_more self.old.calls) → IsErr result }
        ensures only_named { OnErr result (Contains self.old.failing (one_more self.old.calls)) }
        ensures story { self.new.story ≡ self.old.story }
        ensures room { self.new.room ≡ self.old.room }
        ensures failing { self.new.failing ≡ self.old.failing }
        ensures calls { self.new.calls ≡ one_more self.old.calls }
        ensures failures { self.new.failed ≡ faults_after result self.old.failed }
        ensures faults { self.new.faults ≡ faults_after_in area result self.old.faults }
    {
        self.calls.begin(area)?;
        let len = match area {
            Area::Image => self.image.len(),
            Area::Journal => self.journal.len(),
        };
        Ok(len as u64)
    }

    fn read_at(&mut self, area: Area, at: u64, buf: &mut [u8]) -> Result<(), Fault>
        requires { at + length buf.old ≤ size_of area (state_in_memory self.old) }
        ensures bytes { OnOk result (ReadsFrom area at (state_in_memory self.old) buf.new) }
        ensures same { state_in_memory self.new ≡ state_in_memory self.old }
        ensures counted { IsCountedIn area result self.old.faults self.new.faults }

        // It fails exactly where its number was named.
        ensures fails { Contains self.old.failing (one_more self.old.calls) → IsErr result }
        ensures only_named { OnErr result (Contains self.old.failing (one_more self.old.calls)) }
        ensures story { self.new.story ≡ self.old.story }
        ensures room { self.new.room ≡ self.old.room }
        ensures failing { self.new.failing ≡ self.old.failing }
        ensures calls { self.new.calls ≡ one_more self.old.calls }
        ensures failures { self.new.failed ≡ faults_after result self.old.failed }
        ensures faults { self.new.faults ≡ faults_after_in area result self.old.faults }
    {
        self.calls.begin(area)?;
        match area {
            Area::Image => copy_from(&self.image, at, buf),
            Area::Journal => copy_from(&self.journal, at, buf),
        }
        Ok(())
    }

    fn write_at(&mut self, area: Area, at: u64, bytes: &[u8]) -> Result<(), Fault>
        requires { MayWrite area at (length bytes.now) (state_in_memory self.old) }
        ensures done { OnOk result (state_in_memory self.new ≡ state_after (Write area at bytes.now) (state_in_memory self.old)) }
        ensures failed { OnErr result (IsAfterFailed (Write area at bytes.now) (state_in_memory self.old) (state_in_memory self.new)) }
        ensures counted { IsCountedIn area result self.old.faults self.new.faults }

        // It fails exactly where its number was named or there is no room, and then changes nothing.
        ensures fails { Contains self.old.failing (one_more self.old.calls) → IsErr result }
        ensures full { has_room (Write area at bytes.now) self.old.room ≡ false → IsErr result }
        ensures only { OnErr result (IsRefused self.old.failing (one_more self.old.calls) (has_room (Write area at bytes.now) self.old.room)) }
        ensures unchanged { OnErr result (self.new.story ≡ self.old.story) }
        ensures room { OnOk result (self.new.room ≡ room_after (Write area at bytes.now) self.old.room) }
        ensures failing { self.new.failing ≡ self.old.failing }
        ensures calls { self.new.calls ≡ one_more self.old.calls }
        ensures failures { self.new.failed ≡ faults_after result self.old.failed }
        ensures faults { self.new.faults ≡ faults_after_in area result self.old.faults }
    {
        let has_room = self.has_room(area, at, bytes);
        self.calls.begin_change(area, has_room)?;
        put(&mut self.image, &mut self.journal, area, at, bytes);
        self.changes.add_write(area, at, bytes);
        Ok(())
    }

    fn cut_journal(&mut self, len: u64) -> Result<(), Fault>
        requires { len ≤ size_of Area.Journal (state_in_memory self.old) }
        ensures done { OnOk result (state_in_memory self.new ≡ state_after (Cut len) (state_in_memory self.old)) }
        ensures failed { OnErr result (IsAfterFailed (Cut len) (state_in_memory self.old) (state_in_memory self.new)) }
        ensures counted { IsCountedIn Area.Journal result self.old.faults self.new.faults }

        // It fails exactly where its number was named or there is no room, and then changes nothing.
        ensures fails { Contains self.old.failing (one_more self.old.calls) → IsErr result }
        ensures full { has_room (Cut len) self.old.room ≡ false → IsErr result }
        ensures only { OnErr result (IsRefused self.old.failing (one_more self.old.calls) (has_room (Cut len) self.old.room)) }
        ensures unchanged { OnErr result (self.new.story ≡ self.old.story) }
        ensures room { OnOk result (self.new.room ≡ room_after (Cut len) self.old.room) }
        ensures failing { self.new.failing ≡ self.old.failing }
        ensures calls { self.new.calls ≡ one_more self.old.calls }
        ensures failures { self.new.failed ≡ faults_after result self.old.failed }
        ensures faults { self.new.faults ≡ faults_after_in Area.Journal result self.old.faults }
    {
        let has_room = self.changes.left() > 0;
        self.calls.begin_change(Area::Journal, has_room)?;
        self.journal.truncate(len as usize);
        self.changes.add_cut(len);
        Ok(())
    }

    fn sync(&mut self) -> Result<(), Fault>
        ensures done { OnOk result (state_in_memory self.new ≡ state_after Sync (state_in_memory self.old)) }
        ensures failed { OnErr result (state_in_memory self.new ≡ state_in_memory self.old) }
        ensures counted { IsCountedInBoth result self.old.faults self.new.faults }

        // It fails exactly where its number was named or there is no room, and then changes nothing.
        ensures fails { Contains self.old.failing (one_more self.old.calls) → IsErr result }
        ensures full { has_room Sync self.old.room ≡ false → IsErr result }
        ensures only { OnErr result (IsRefused self.old.failing (one_more self.old.calls) (has_room Sync self.old.room)) }
        ensures unchanged { OnErr result (self.new.story ≡ self.old.story) }
        ensures room { OnOk result (self.new.room ≡ room_after Sync self.old.room) }
        ensures failing { self.new.failing ≡ self.old.failing }
        ensures calls { self.new.calls ≡ one_more self.old.calls }
        ensures failures { self.new.failed ≡ faults_after result self.old.failed }
        ensures faults { self.new.faults ≡ faults_after_in_both result self.old.faults }
    {
        let has_room = self.changes.left() > 0;
        self.calls.begin_sync(has_room)?;
        self.changes.add_sync();
        Ok(())
    }

    ghost use Rattle.disk_defs.specs.Memory.{sizes_fit_in_memory, tells_its_sizes_in_memory};

    ghost tells_its_sizes = { tells_its_sizes_in_memory };

    ghost sizes_fit = { sizes_fit_in_memory };
}
