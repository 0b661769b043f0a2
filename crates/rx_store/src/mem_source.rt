//! A source in memory, of whose reads one may fail.
ghost use Rattle.std.specs.Prelude.{◌≡◌, ◌<◌, ◌≤◌, [], Some, length, take, min, IfOk, OnErr, IsErr};
ghost use Rattle.disk_defs.specs.Stream.{GivesFirst, rest_after};
ghost use Rattle.disk_defs.specs.Count.{IsCounted, one_more, faults_after};
ghost use Rattle.disk_defs.specs.Memory.{source_of};

use crate::source::Source;
use disk_defs::Fault;
use std::marker::Model;

/// How many reads were made and failed, and the number of the one that fails. Both counts stay at their last value.
#[derive(Drop)]
struct Reads {
    made: u64,
    failing: Option<u64>,
    faults: u64,
}

impl Reads {
    /// Counts a read, and lets it fail where its number was named.
    fn begin(&mut self) -> Result<(), Fault>
        ensures fails { self.old.failing ≡ Some (one_more self.old.made) → IsErr result }
        ensures only_named { OnErr result (self.old.failing ≡ Some (one_more self.old.made)) }
        ensures failing { self.new.failing ≡ self.old.failing }
        ensures made { self.new.made ≡ one_more self.old.made }
        ensures faults { self.new.faults ≡ faults_after result self.old.faults }
        ensures counted { IsCounted result self.old.faults self.new.faults }
    {
        self.made = self.made.saturating_add(1);
        if self.failing == Some(self.made) {
            self.faults = self.faults.saturating_add(1);
            return Err(Fault);
        }
        Ok(())
    }
}

/// A source in memory. It tells what is still to come.
#[derive(Drop)]
pub struct MemSource {
    text: Vec<u8>,
    at: usize,
    reads: Reads,
}

impl Model for MemSource {
    ghost use Rattle.std.specs.Prelude.{◌≤◌, drop, vec_len};
    ghost use Rattle.disk_defs.specs.Memory.{SourceInMemory};

    ghost Value = { SourceInMemory };

    ghost view = { λ source. record {
      rest = drop source.at source.text.items;
      failing = source.reads.failing;
      reads = source.reads.made;
      faults = source.reads.faults;
    } };

    ghost invariant = { λ source. source.at ≤ vec_len source.text };
}

impl MemSource {
    /// A source of this text. The read with the number `fail`, counted from 1, fails, and no other.
    pub fn new(text: Vec<u8>, fail: Option<u64>) -> MemSource
        ensures { result ≡ source_of text.items fail }
    {
        MemSource {
            text,
            at: 0,
            reads: Reads {
                made: 0,
                failing: fail,
                faults: 0,
            },
        }
    }
}

/// Copies as many of the bytes as the buffer has room for into its first places, and says how many.
fn copy_first(bytes: &[u8], buf: &mut [u8]) -> usize
    ensures count { result ≡ min (length buf.new) (length bytes.now) }
    ensures copied { take result buf.new ≡ take result bytes.now }
{
    let count = buf.len().min(bytes.len());
    buf[..count].copy_from_slice(&bytes[..count]);
    count
}

impl Source for MemSource {
    ghost use Rattle.std.specs.Prelude.{Some};

    ghost rest = { λ source. Some source.rest };

    ghost faults = { λ source. source.faults };

    fn read(&mut self, buf: &mut [u8]) -> Result<usize, Fault>
        ensures within { IfOk result (λ count. count ≤ length buf.new) }
        ensures given { IfOk result (GivesFirst (Some self.old.rest) buf.new) }
        ensures rest { IfOk result (λ count. Some self.new.rest ≡ rest_after (Some self.old.rest) count) }
        ensures end { result ≡ Ok 0 → 0 < length buf.new → self.old.rest ≡ [] }
        ensures fault { OnErr result (self.new.rest ≡ self.old.rest) }
        ensures counted { IsCounted result self.old.faults self.new.faults }

        // It gives as much as there is and fits, and fails exactly where its number was named.
        ensures most { IfOk result (λ count. count ≡ min (length buf.new) (length self.old.rest)) }
        ensures fails { self.old.failing ≡ Some (one_more self.old.reads) → IsErr result }
        ensures only_named { OnErr result (self.old.failing ≡ Some (one_more self.old.reads)) }
        ensures failing { self.new.failing ≡ self.old.failing }
        ensures reads { self.new.reads ≡ one_more self.old.reads }
        ensures faults { self.new.faults ≡ faults_after result self.old.faults }
    {
        self.reads.begin()?;
        let count = copy_first(&self.text[self.at..], buf);
        self.at += count;
        Ok(count)
    }
}
