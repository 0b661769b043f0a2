//! A sink over a writer of std.
ghost use Rattle.std.specs.Prelude.{◌≡◌, ◌<◌, ◌≤◌, length, IfOk, OnErr, nat_lt};
ghost use Rattle.disk_defs.specs.Count.{IsCounted};
ghost use Rattle.rx_store.specs.Outside.{EndsIn};
ghost use Rattle.rx_store.specs.declared.outside.Outcome.TheVariants.{Bytes, Failed};

use crate::outside::{Outcome, Outside, Writes};
use crate::sink::Sink;
use disk_defs::Fault;
use std::io::Write;
use std::marker::Model;

/// A sink over a writer of std. It doesn't tell what it took. A write of nothing is a fault, and one that a signal
/// interrupted is made again, as std does. The writer is to pass on each write at once: what a buffer holds back counts
/// as taken here.
#[derive(Drop)]
pub struct StdSink<W> {
    writer: Outside<W>,
}

/// What a contract sees of it is the count of its faults.
impl<W> Model for StdSink<W> {
    ghost use Rattle.std.specs.Prelude.{ℕ};

    ghost Value = { ℕ };

    ghost view = { λ sink. sink.writer.faults };
}

impl<W> StdSink<W> {
    /// A sink over this writer.
    pub fn new(writer: W) -> StdSink<W>
        ensures { result ≡ 0 }
    {
        StdSink {
            writer: Outside::new(Some(writer)),
        }
    }
}

/// Writes until a write is answered.
fn write_answered<W: Writes>(writer: &mut Outside<W>, bytes: &[u8]) -> Result<usize, Fault>
    ensures within { IfOk result (λ count. count ≤ length bytes.now) }
    ensures progress { IfOk result (λ count. 0 < length bytes.now → 0 < count) }
    ensures counted { IsCounted result writer.old.faults writer.new.faults }
    ensures answered { IfOk result (λ count. EndsIn W.answered (nat_lt 0 (length bytes.now)) writer.old writer.new 0 (Bytes count)) }
    ensures failed { OnErr result (EndsIn W.answered (nat_lt 0 (length bytes.now)) writer.old writer.new 0 Failed) }
{
    'again: loop {
        match writer.write(bytes) {
            Outcome::Bytes(count) => return Ok(count),
            Outcome::Again => {}
            Outcome::Failed => return Err(Fault),
        }
    }
}

impl<W: Write> Sink for StdSink<W> {
    ghost use Rattle.std.specs.Prelude.{None};

    ghost taken = { λ _. None };

    ghost faults = { λ sink. sink };

    fn write(&mut self, bytes: &[u8]) -> Result<usize, Fault> {
        write_answered(&mut self.writer, bytes)
    }
}
