//! A source over a reader of std.
ghost use Rattle.std.specs.Prelude.{◌≡◌, ◌≤◌, length, IfOk, OnErr, IsErr, IsTrue, is_none, false};
ghost use Rattle.disk_defs.specs.Count.{IsCounted};
ghost use Rattle.rx_store.specs.Outside.{EndsIn};
ghost use Rattle.rx_store.specs.declared.outside.Outcome.TheVariants.{Bytes, Failed};

use crate::outside::{Outcome, Outside, Reads};
use crate::source::Source;
use disk_defs::Fault;
use std::io::Read;
use std::marker::Model;

/// A source over a reader of std, or over a file that couldn't be opened. It doesn't tell what is still to come. A read
/// that a signal interrupted is made again, as std does.
#[derive(Drop)]
pub struct StdSource<R> {
    reader: Outside<R>,
}

impl<R> Model for StdSource<R> {
    ghost use Rattle.std.specs.Prelude.{is_none};
    ghost use Rattle.rx_store.specs.Readers.{SourceOfReader};

    ghost Value = { SourceOfReader };

    ghost view = { λ source. record { is_missing = is_none source.reader.device; faults = source.reader.faults } };
}

impl<R> StdSource<R> {
    /// A source over this reader. None is a file that couldn't be opened: each read of it fails.
    pub fn new(reader: Option<R>) -> StdSource<R>
        ensures { result ≡ record { is_missing = is_none reader; faults = 0 } }
    {
        StdSource {
            reader: Outside::new(reader),
        }
    }
}

/// Reads until a read is answered.
fn read_answered<R: Reads>(reader: &mut Outside<R>, buf: &mut [u8]) -> Result<usize, Fault>
    ensures within { IfOk result (λ count. count ≤ length buf.new) }
    ensures missing { IsTrue (is_none reader.old.device) → IsErr result }
    ensures same { is_none reader.new.device ≡ is_none reader.old.device }
    ensures counted { IsCounted result reader.old.faults reader.new.faults }
    ensures answered { IfOk result (λ count. EndsIn R.answered false reader.old reader.new 0 (Bytes count)) }
    ensures failed { OnErr result (EndsIn R.answered false reader.old reader.new 0 Failed) }
{
    'again: loop {
        match reader.read(buf) {
            Outcome::Bytes(count) => return Ok(count),
            Outcome::Again => {}
            Outcome::Failed => return Err(Fault),
        }
    }
}

impl<R: Read> Source for StdSource<R> {
    ghost use Rattle.std.specs.Prelude.{None};

    ghost rest = { λ _. None };

    ghost faults = { λ source. source.faults };

    fn read(&mut self, buf: &mut [u8]) -> Result<usize, Fault>
        ensures within { IfOk result (λ count. count ≤ length buf.new) }
        ensures counted { IsCounted result self.old.faults self.new.faults }
        ensures missing { IsTrue self.old.is_missing → IsErr result }
        ensures reader { self.new.is_missing ≡ self.old.is_missing }
    {
        read_answered(&mut self.reader, buf)
    }
}
