//! The changes that were made to a store in memory, with their bytes.
ghost use Rattle.std.specs.Prelude.{◌≡◌, ◌+◌, ◌-◌, ◌≤◌, ◌<◌, ◌++◌, ◌∷◌, [], length, vec_len, vec_capacity, IfOk};
ghost use Rattle.disk_defs.specs.Story.{Write, Cut, Sync, Made, and_then};

use crate::NoMemory;
use crate::append::append;
use disk_defs::Area;
use std::alloc::Global;
use std::marker::Model;

/// A change. The bytes of a write stand in the log, `len` of them from byte `from` on.
#[derive(Clone, Copy)]
pub(crate) enum Recorded {
    Write {
        area: Area,
        at: u64,
        from: usize,
        len: usize,
    },
    Cut(u64),
    Sync,
}

/// What a store in memory held at first, and the changes since. Room for them and for the bytes that they write is taken
/// when it is made.
#[derive(Drop)]
pub(crate) struct Changes {
    image: Vec<u8>,
    journal: Vec<u8>,
    log: Vec<u8>,
    records: Vec<Recorded>,
    most_bytes: usize,
    most_records: usize,
}

/// Adds a change for which there is room.
fn push(records: &mut Vec<Recorded>, change: Recorded)
    requires { vec_len records.old < vec_capacity records.old }
    ensures items { records.new.items ≡ records.old.items ++ change ∷ [] }
    ensures len { vec_len records.new ≡ vec_len records.old + 1 }
    ensures capacity { vec_capacity records.old ≤ vec_capacity records.new }
{
    records.push(change).unwrap();
}

impl Model for Changes {
    ghost use Rattle.std.specs.Prelude.{◌-◌, ◌≤◌, All, vec_len, vec_capacity};
    ghost use Rattle.rx_store.specs.Changes.{IsInLog, Recording, events_of};

    ghost Value = { Recording };

    ghost view = { λ changes. record {
      story = record {
        first = record { image = changes.image.items; journal = changes.journal.items };
        events = events_of changes.log.items changes.records.items;
      };
      changes = changes.most_records - vec_len changes.records;
      bytes = changes.most_bytes - vec_len changes.log;
    } };

    ghost invariant = { λ changes. All (IsInLog changes.log.items) changes.records.items
        × (vec_len changes.records ≤ changes.most_records) × (changes.most_records ≤ vec_capacity changes.records)
        × (vec_len changes.log ≤ changes.most_bytes) × (changes.most_bytes ≤ vec_capacity changes.log) };
}

impl Changes {
    /// No changes yet to what a store holds, and room for so many changes and so many written bytes.
    pub(crate) fn new(
        alloc: Global,
        image: &[u8],
        journal: &[u8],
        most_records: usize,
        most_bytes: usize,
    ) -> Result<Changes, NoMemory>
        ensures first { IfOk result (λ changes. changes.story ≡ record { first = record { image = image.now; journal = journal.now }; events = [] }) }
        ensures changes { IfOk result (λ changes. changes.changes ≡ most_records) }
        ensures bytes { IfOk result (λ changes. changes.bytes ≡ most_bytes) }
    {
        Ok(Changes {
            image: Vec::from_slice(alloc, image)?,
            journal: Vec::from_slice(alloc, journal)?,
            log: Vec::with_capacity(alloc, most_bytes)?,
            records: Vec::with_capacity(alloc, most_records)?,
            most_bytes,
            most_records,
        })
    }

    /// How many changes may still come.
    pub(crate) fn left(&self) -> usize
        ensures { result ≡ self.now.changes }
    {
        self.most_records - self.records.len()
    }

    /// How many bytes may still be written.
    pub(crate) fn bytes_left(&self) -> usize
        ensures { result ≡ self.now.bytes }
    {
        self.most_bytes - self.log.len()
    }

    /// Adds a write.
    pub(crate) fn add_write(&mut self, area: Area, at: u64, bytes: &[u8])
        requires one { 0 < self.old.changes }
        requires room { length bytes.now ≤ self.old.bytes }
        ensures story { self.new.story ≡ and_then (Made (Write area at bytes.now)) self.old.story }
        ensures changes { self.new.changes ≡ self.old.changes - 1 }
        ensures bytes { self.new.bytes ≡ self.old.bytes - length bytes.now }
    {
        let from = self.log.len();
        append(&mut self.log, bytes);
        let len = bytes.len();
        push(
            &mut self.records,
            Recorded::Write {
                area,
                at,
                from,
                len,
            },
        );
    }

    /// Adds a cut.
    pub(crate) fn add_cut(&mut self, len: u64)
        requires one { 0 < self.old.changes }
        ensures story { self.new.story ≡ and_then (Made (Cut len)) self.old.story }
        ensures changes { self.new.changes ≡ self.old.changes - 1 }
        ensures bytes { self.new.bytes ≡ self.old.bytes }
    {
        push(&mut self.records, Recorded::Cut(len));
    }

    /// Adds a sync.
    pub(crate) fn add_sync(&mut self)
        requires one { 0 < self.old.changes }
        ensures story { self.new.story ≡ and_then (Made Sync) self.old.story }
        ensures changes { self.new.changes ≡ self.old.changes - 1 }
        ensures bytes { self.new.bytes ≡ self.old.bytes }
    {
        push(&mut self.records, Recorded::Sync);
    }
}
