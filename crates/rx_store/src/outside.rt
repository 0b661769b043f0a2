//! One call on what std reads or writes, what it came to, and what is counted with it. The faults of the edges over std are
//! counted nowhere else; what is in memory counts its own.
//!
//! Std's contracts don't say when a call fails. So each trait here has a relation of what a call answered, which any
//! implementation may give a meaning: what is proved of a call holds under each meaning, and so speaks of the very answer
//! of exactly one call. What is left to trust is that the bodies under the traits make the calls that they name.
ghost use Rattle.std.specs.Prelude.{◌≡◌, ◌<◌, ◌≤◌, ℕ, Result, length, false, is_none, nat_lt, IfOk, IsErr, IsTrue, OnErr, true, ⊤};
ghost use Rattle.disk_defs.specs.Count.{IsCounted, Rose, one_more};
ghost use Rattle.std.specs.declared.io.Error.{Error};
ghost use Rattle.rx_store.specs.Outside.{Came, IfBytes, IsNoted, judged, settled};

use disk_defs::Fault;
use std::fs::OpenFile;
use std::io;
use std::io::{ErrorKind, Read, Seek, SeekFrom, Write};
use std::marker::Model;

/// What one call came to.
#[derive(Clone, Copy)]
pub(crate) enum Outcome {
    /// So many bytes moved.
    Bytes(usize),
    /// A signal interrupted it before a byte moved: it is to be made again, as std does.
    Again,
    Failed,
}

/// Judges what std answered to a call. That no byte moved is a fault where some are due.
fn judge(answer: io::Result<usize>, due: bool) -> Outcome
    ensures { result ≡ judged due answer }
{
    match answer {
        Ok(0) if due => Outcome::Failed,
        Ok(count) => Outcome::Bytes(count),
        Err(error) => match error.kind() {
            ErrorKind::Interrupted => Outcome::Again,
            _ => Outcome::Failed,
        },
    }
}

/// What reads as std's readers do.
pub(crate) trait Reads {
    /// What such an answer to a call says of the reader before and after it.
    ghost answered: { Self → Result ℕ Error → Self → Type 0 } = { λ _ _ _. ⊤ };

    fn call(&mut self, buf: &mut [u8]) -> io::Result<usize>
        ensures within { IfOk result (λ count. count ≤ length buf.new) }
        ensures answered { answered self.old result self.new };
}

impl<R: Read> Reads for R {
    fn call(&mut self, buf: &mut [u8]) -> io::Result<usize> {
        self.read(buf)
    }
}

/// What reads from any place on, as std's files do.
pub(crate) trait ReadsFrom {
    /// What such an answer to a call says of the file before and after it.
    ghost answered: { Self → Result ℕ Error → Self → Type 0 } = { λ _ _ _. ⊤ };

    fn call_from(&mut self, at: u64, buf: &mut [u8]) -> io::Result<usize>
        ensures within { IfOk result (λ count. count ≤ length buf.new) }
        ensures answered { answered self.old result self.new };
}

impl<F: Read + Seek> ReadsFrom for F {
    fn call_from(&mut self, at: u64, buf: &mut [u8]) -> io::Result<usize> {
        self.seek(SeekFrom::Start(at))?;
        self.read(buf)
    }
}

/// What writes as std's writers do.
pub(crate) trait Writes {
    /// What such an answer to a call says of the writer before and after it.
    ghost answered: { Self → Result ℕ Error → Self → Type 0 } = { λ _ _ _. ⊤ };

    fn call(&mut self, bytes: &[u8]) -> io::Result<usize>
        ensures within { IfOk result (λ count. count ≤ length bytes.now) }
        ensures answered { answered self.old result self.new };
}

impl<W: Write> Writes for W {
    fn call(&mut self, bytes: &[u8]) -> io::Result<usize> {
        self.write(bytes)
    }
}

/// What writes from any place on, is made shorter and is waited for, as std's files do.
pub(crate) trait WritesTo {
    /// What such an answer to a write, a cut or a sync says of the file before and after it. What succeeds and moves no bytes
    /// answers 0.
    ghost written: { Self → Result ℕ Error → Self → Type 0 } = { λ _ _ _. ⊤ };

    ghost cut: { Self → Result ℕ Error → Self → Type 0 } = { λ _ _ _. ⊤ };

    ghost synced: { Self → Result ℕ Error → Self → Type 0 } = { λ _ _ _. ⊤ };

    fn call_to(&mut self, at: u64, bytes: &[u8]) -> io::Result<usize>
        ensures within { IfOk result (λ count. count ≤ length bytes.now) }
        ensures answered { written self.old result self.new };

    fn call_cut(&mut self, len: u64) -> io::Result<usize>
        ensures answered { cut self.old result self.new };

    fn call_sync(&mut self) -> io::Result<usize>
        ensures answered { synced self.old result self.new };
}

impl<F: Write + Seek + OpenFile> WritesTo for F {
    fn call_to(&mut self, at: u64, bytes: &[u8]) -> io::Result<usize> {
        self.seek(SeekFrom::Start(at))?;
        self.write(bytes)
    }

    fn call_cut(&mut self, len: u64) -> io::Result<usize> {
        self.set_len(len)?;
        Ok(0)
    }

    fn call_sync(&mut self) -> io::Result<usize> {
        self.sync_all()?;
        Ok(0)
    }
}

/// A file or a stream, or none where it couldn't be opened, with the count of its calls that failed. The count stays at
/// its last value. Of the calls that a signal interrupted, 2^64 - 1 are made again.
#[derive(Drop)]
pub(crate) struct Outside<D> {
    device: Option<D>,
    faults: u64,
    patience: u64,
}

impl<D> Model for Outside<D> {
    ghost use Rattle.rx_store.specs.Outside.{Calls};

    ghost Value = { Calls D };

    ghost view = { λ outside. record {
      device = outside.device;
      faults = outside.faults;
      patience = outside.patience;
    } };
}

impl<D> Outside<D> {
    pub(crate) fn new(device: Option<D>) -> Outside<D>
        ensures { result ≡ record {
          device = device;
          faults = 0;
          patience = 18446744073709551615;
        } }
    {
        Outside {
            device,
            faults: 0,
            patience: u64::MAX,
        }
    }

    fn note(&mut self, outcome: Outcome) -> Outcome
        ensures settled { result ≡ settled outcome self.old.patience }
        ensures noted { IsNoted result self.old self.new }
        ensures same { self.new.device ≡ self.old.device }
    {
        match outcome {
            Outcome::Bytes(_) => outcome,
            Outcome::Again if self.patience > 0 => {
                self.patience -= 1;
                outcome
            }
            _ => {
                self.faults = self.faults.saturating_add(1);
                Outcome::Failed
            }
        }
    }

    /// Counts a fault.
    pub(crate) fn fail(&mut self) -> Fault
        ensures same { self.new ≡ record self.old { faults = one_more self.old.faults } }
        ensures counts { self.old.faults ≤ self.new.faults }
        ensures counted { Rose self.old.faults self.new.faults }
    {
        self.note(Outcome::Failed);
        Fault
    }

    /// Counts a call on what couldn't be opened as a fault.
    pub(crate) fn open(&mut self) -> Result<(), Fault>
        ensures missing { IsTrue (is_none self.old.device) → IsErr result }
        ensures only_missing { OnErr result (IsTrue (is_none self.old.device)) }
        ensures same { self.new ≡ record self.old { faults = self.new.faults } }
        ensures counted { IsCounted result self.old.faults self.new.faults }
    {
        if self.device.is_none() {
            self.note(Outcome::Failed);
            return Err(Fault);
        }
        Ok(())
    }
}

impl<R: Reads> Outside<R> {
    /// Reads once. That no byte came is no fault: it is the end, or the buffer has no place.
    pub(crate) fn read(&mut self, buf: &mut [u8]) -> Outcome
        ensures within { IfBytes result (λ count. count ≤ length buf.new) }
        ensures came { Came R.answered false self.old self.new result }
        ensures noted { IsNoted result self.old self.new }
    {
        let outcome = match &mut self.device {
            Some(reader) => judge(reader.call(buf), false),
            None => Outcome::Failed,
        };
        self.note(outcome)
    }
}

impl<F: ReadsFrom> Outside<F> {
    /// Reads once from a place on. A file that ends there is a fault.
    pub(crate) fn read_from(&mut self, at: u64, buf: &mut [u8]) -> Outcome
        ensures within { IfBytes result (λ count. count ≤ length buf.new) }
        ensures progress { IfBytes result (λ count. 0 < count) }
        ensures came { Came F.answered true self.old self.new result }
        ensures noted { IsNoted result self.old self.new }
    {
        let outcome = match &mut self.device {
            Some(file) => judge(file.call_from(at, buf), true),
            None => Outcome::Failed,
        };
        self.note(outcome)
    }
}

impl<W: Writes> Outside<W> {
    /// Writes once. A write of nothing is a fault, unless there is nothing to write.
    pub(crate) fn write(&mut self, bytes: &[u8]) -> Outcome
        ensures within { IfBytes result (λ count. count ≤ length bytes.now) }
        ensures progress { IfBytes result (λ count. 0 < length bytes.now → 0 < count) }
        ensures came { Came W.answered (nat_lt 0 (length bytes.now)) self.old self.new result }
        ensures noted { IsNoted result self.old self.new }
    {
        let outcome = match &mut self.device {
            Some(writer) => judge(writer.call(bytes), !bytes.is_empty()),
            None => Outcome::Failed,
        };
        self.note(outcome)
    }
}

impl<F: WritesTo> Outside<F> {
    /// Writes once from a place on. A write of nothing is a fault, unless there is nothing to write.
    pub(crate) fn write_to(&mut self, at: u64, bytes: &[u8]) -> Outcome
        ensures within { IfBytes result (λ count. count ≤ length bytes.now) }
        ensures progress { IfBytes result (λ count. 0 < length bytes.now → 0 < count) }
        ensures came { Came F.written (nat_lt 0 (length bytes.now)) self.old self.new result }
        ensures noted { IsNoted result self.old self.new }
    {
        let outcome = match &mut self.device {
            Some(file) => judge(file.call_to(at, bytes), !bytes.is_empty()),
            None => Outcome::Failed,
        };
        self.note(outcome)
    }

    /// Makes a file so many bytes long, once.
    pub(crate) fn cut(&mut self, len: u64) -> Outcome
        ensures came { Came F.cut false self.old self.new result }
        ensures noted { IsNoted result self.old self.new }
    {
        let outcome = match &mut self.device {
            Some(file) => judge(file.call_cut(len), false),
            None => Outcome::Failed,
        };
        self.note(outcome)
    }

    /// Waits once until what was written is on the disk.
    pub(crate) fn sync(&mut self) -> Outcome
        ensures came { Came F.synced false self.old self.new result }
        ensures noted { IsNoted result self.old self.new }
    {
        let outcome = match &mut self.device {
            Some(file) => judge(file.call_sync(), false),
            None => Outcome::Failed,
        };
        self.note(outcome)
    }
}
