//! A sink in memory, with room for so many bytes.
ghost use Rattle.std.specs.Prelude.{◌≡◌, ◌-◌, ◌<◌, ◌≤◌, length, take, min, IfOk, OnErr, IsErr};
ghost use Rattle.disk_defs.specs.Stream.{taken_with};
ghost use Rattle.disk_defs.specs.Count.{IsCounted, faults_after};
ghost use Rattle.disk_defs.specs.Memory.{sink_with_room};

use crate::NoMemory;
use crate::append::append;
use crate::sink::Sink;
use disk_defs::Fault;
use std::alloc::Global;
use std::marker::Model;

/// A sink in memory. It tells what it took, and takes no memory after it was made.
#[derive(Drop)]
pub struct MemSink {
    bytes: Vec<u8>,
    room: usize,
    faults: u64,
}

impl Model for MemSink {
    ghost use Rattle.std.specs.Prelude.{◌≤◌, vec_len, vec_capacity};
    ghost use Rattle.disk_defs.specs.Memory.{SinkInMemory};

    ghost Value = { SinkInMemory };

    ghost view = { λ sink. record { bytes = sink.bytes.items; room = sink.room; faults = sink.faults } };

    ghost invariant = { λ sink. (vec_len sink.bytes ≤ sink.room) × (sink.room ≤ vec_capacity sink.bytes) };
}

impl MemSink {
    /// A sink that takes `room` bytes in all.
    pub fn new(alloc: Global, room: usize) -> Result<MemSink, NoMemory>
        ensures { IfOk result (λ sink. sink ≡ sink_with_room room) }
    {
        Ok(MemSink {
            bytes: Vec::with_capacity(alloc, room)?,
            room,
            faults: 0,
        })
    }

    /// What the sink took.
    pub fn bytes(&self) -> &[u8]
        ensures { result.now ≡ self.now.bytes }
    {
        self.bytes.as_slice()
    }
}

impl Sink for MemSink {
    ghost use Rattle.std.specs.Prelude.{Some};

    ghost taken = { λ sink. Some sink.bytes };

    ghost faults = { λ sink. sink.faults };

    fn write(&mut self, bytes: &[u8]) -> Result<usize, Fault>
        ensures within { IfOk result (λ count. count ≤ length bytes.now) }
        ensures progress { IfOk result (λ count. 0 < length bytes.now → 0 < count) }
        ensures taken { IfOk result
            (λ count. Some self.new.bytes ≡ taken_with (Some self.old.bytes) (take count bytes.now)) }
        ensures fault { OnErr result (self.new.bytes ≡ self.old.bytes) }
        ensures counted { IsCounted result self.old.faults self.new.faults }

        // It takes what fits, and fails exactly where a piece that isn't empty finds no room at all.
        ensures most { IfOk result
            (λ count. count ≡ min (length bytes.now) (self.old.room - length self.old.bytes)) }
        ensures fails { 0 < length bytes.now → length self.old.bytes ≡ self.old.room → IsErr result }
        ensures not_empty { OnErr result (0 < length bytes.now) }
        ensures full { OnErr result (length self.old.bytes ≡ self.old.room) }
        ensures room { self.new.room ≡ self.old.room }
        ensures faults { self.new.faults ≡ faults_after result self.old.faults }
    {
        let count = bytes.len().min(self.room - self.bytes.len());
        if count == 0 && !bytes.is_empty() {
            self.faults = self.faults.saturating_add(1);
            return Err(Fault);
        }
        append(&mut self.bytes, &bytes[..count]);
        Ok(count)
    }
}
