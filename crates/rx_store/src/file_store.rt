//! The store over real files.
ghost use Rattle.std.specs.Prelude.{◌≡◌, ◌<◌, ◌≤◌, ◌+◌, ◌^◌, ℕ, max, length, IfOk, OnOk, OnErr, IsOk, IsErr, IsTrue, is_none, false, true};
ghost use Rattle.disk_defs.specs.Disk.{size_of, state_after, IsAfterFailed, MayWrite, ReadsFrom};
ghost use Rattle.disk_defs.specs.Story.{Write, Cut, Sync};
ghost use Rattle.disk_defs.specs.declared.Area.{Area as AreaValue};
ghost use Rattle.disk_defs.specs.Count.{IsCounted, IsCountedIn, IsCountedInBoth, no_faults};
ghost use Rattle.rx_store.specs.Outside.{EndsIn, Moved};
ghost use Rattle.rx_store.specs.declared.outside.Outcome.TheVariants.{Bytes, Failed};
ghost use Rattle.rx_store.specs.Files.{IsMeasured, area_file, file_of};

use crate::outside::{Outcome, Outside, ReadsFrom, WritesTo};
use crate::store::Store;
use disk_defs::{Area, Fault};
use std::fs::File;
use std::io;
use std::io::{ErrorKind, Seek, SeekFrom};
use std::marker::Model;

/// A file, as far as it could be opened.
#[derive(Drop)]
pub enum Opened {
    /// There is no such area: it has no bytes.
    Absent,
    /// The file couldn't be opened: each call on it fails.
    Failed,
    Open(File),
}

/// The size of a file or a device, found by a seek to its end. A directory has none.
fn measure(file: &mut File) -> io::Result<u64> {
    if file.metadata()?.is_dir() {
        return Err(io::Error::from(ErrorKind::IsADirectory));
    }
    file.seek(SeekFrom::End(0))
}

/// Reads the whole buffer from a place of a file on. A file that ends before is a fault.
fn read_whole<F: ReadsFrom>(file: &mut Outside<F>, at: u64, buf: &mut [u8]) -> Result<(), Fault>
    requires { at + length buf.old < 2 ^ 64 }
    ensures same { is_none file.new.device ≡ is_none file.old.device }
    ensures counted { IsCounted result file.old.faults file.new.faults }
    ensures moved { OnOk result (Moved F.answered true file.old (length buf.new) file.new) }
    ensures failed { OnErr result ((count : ℕ) × EndsIn F.answered true file.old file.new count Failed) }
{
    let mut done = 0;
    while done < buf.len() {
        match file.read_from(at + done as u64, &mut buf[done..]) {
            Outcome::Bytes(count) => done += count,
            Outcome::Again => {}
            Outcome::Failed => return Err(Fault),
        }
    }
    Ok(())
}

/// Writes bytes to a file from a place on, as far as it takes them, and says how many those are.
fn write_whole<F: WritesTo>(
    file: &mut Outside<F>,
    at: u64,
    bytes: &[u8],
) -> (usize, Result<(), Fault>)
    requires { at + length bytes.now < 2 ^ 64 }
    ensures within { result.0 ≤ length bytes.now }
    ensures whole { OnOk result.1 (result.0 ≡ length bytes.now) }
    ensures same { is_none file.new.device ≡ is_none file.old.device }
    ensures counted { IsCounted result.1 file.old.faults file.new.faults }
    ensures moved { OnOk result.1 (Moved F.written true file.old result.0 file.new) }
    ensures failed { OnErr result.1 (EndsIn F.written true file.old file.new result.0 Failed) }
{
    let mut done = 0;
    while done < bytes.len() {
        match file.write_to(at + done as u64, &bytes[done..]) {
            Outcome::Bytes(count) => done += count,
            Outcome::Again => {}
            Outcome::Failed => return (done, Err(Fault)),
        }
    }
    (done, Ok(()))
}

/// Makes a file so many bytes long.
fn cut_to<F: WritesTo>(file: &mut Outside<F>, len: u64) -> Result<(), Fault>
    ensures same { is_none file.new.device ≡ is_none file.old.device }
    ensures counted { IsCounted result file.old.faults file.new.faults }
    ensures answered { OnOk result ((count : ℕ) × EndsIn F.cut false file.old file.new 0 (Bytes count)) }
    ensures failed { OnErr result (EndsIn F.cut false file.old file.new 0 Failed) }
{
    'again: loop {
        match file.cut(len) {
            Outcome::Bytes(_) => return Ok(()),
            Outcome::Again => {}
            Outcome::Failed => return Err(Fault),
        }
    }
}

/// Waits until what was written to a file is on the disk.
fn sync_whole<F: WritesTo>(file: &mut Outside<F>) -> Result<(), Fault>
    ensures same { is_none file.new.device ≡ is_none file.old.device }
    ensures counted { IsCounted result file.old.faults file.new.faults }
    ensures answered { OnOk result ((count : ℕ) × EndsIn F.synced false file.old file.new 0 (Bytes count)) }
    ensures failed { OnErr result (EndsIn F.synced false file.old file.new 0 Failed) }
{
    'again: loop {
        match file.sync() {
            Outcome::Bytes(_) => return Ok(()),
            Outcome::Again => {}
            Outcome::Failed => return Err(Fault),
        }
    }
}

/// An area over a file, with the size that it had at first and that the changes since made of it, or an area that isn't there,
/// which has no byte and takes none.
#[derive(Drop)]
struct FileArea {
    file: Outside<File>,
    is_absent: bool,
    size: u64,
}

impl FileArea {
    /// Measures a file. One that can't be measured is as one that couldn't be opened.
    fn new(opened: Opened) -> FileArea
        ensures measured { IsMeasured opened (area_file result.is_absent result.file result.size) }
        ensures faults { result.file.faults ≡ 0 }
    {
        let is_absent = matches!(opened, Opened::Absent);
        let (file, size) = match opened {
            Opened::Absent | Opened::Failed => (None, 0),
            Opened::Open(mut file) => match measure(&mut file) {
                Ok(size) => (Some(file), size),
                Err(_) => (None, 0),
            },
        };
        FileArea {
            file: Outside::new(file),
            is_absent,
            size,
        }
    }

    /// Counts a call on a file that couldn't be opened as a fault.
    fn open(&mut self) -> Result<(), Fault>
        ensures same { self.new ≡ record self.old { file = self.new.file } }
        ensures device { self.new.file.device ≡ self.old.file.device }
        ensures counted { IsCounted result self.old.file.faults self.new.file.faults }
        ensures failed { IsTrue (area_file self.old.is_absent self.old.file self.old.size).has_failed → IsErr result }
        ensures only_failed { OnErr result (IsTrue (area_file self.old.is_absent self.old.file self.old.size).has_failed) }
    {
        if self.is_absent {
            return Ok(());
        }
        self.file.open()
    }

    fn len(&mut self) -> Result<u64, Fault>
        ensures size { IfOk result (λ size. size ≡ self.old.size) }
        ensures same { area_file self.new.is_absent self.new.file self.new.size ≡ area_file self.old.is_absent self.old.file self.old.size }
        ensures counted { IsCounted result self.old.file.faults self.new.file.faults }
        ensures failed { IsTrue (area_file self.old.is_absent self.old.file self.old.size).has_failed → IsErr result }
        ensures only_failed { OnErr result (IsTrue (area_file self.old.is_absent self.old.file self.old.size).has_failed) }
    {
        self.open()?;
        Ok(self.size)
    }

    /// Of an area that isn't there only nothing can be asked.
    fn read_at(&mut self, at: u64, buf: &mut [u8]) -> Result<(), Fault>
        requires { at + length buf.old < 2 ^ 64 }
        ensures same { area_file self.new.is_absent self.new.file self.new.size ≡ area_file self.old.is_absent self.old.file self.old.size }
        ensures counted { IsCounted result self.old.file.faults self.new.file.faults }
        ensures failed { IsTrue (area_file self.old.is_absent self.old.file self.old.size).has_failed → IsErr result }
        ensures absent { IsTrue self.old.is_absent → IsOk result }
    {
        self.open()?;
        if self.is_absent {
            return Ok(());
        }
        read_whole(&mut self.file, at, buf)
    }

    /// An area that isn't there takes no byte. A write whose end passes 64 bits is a fault.
    fn write_at(&mut self, at: u64, bytes: &[u8]) -> Result<(), Fault>
        requires { at ≤ self.old.size }
        ensures done { OnOk result (self.new.size ≡ max self.old.size (at + length bytes.now)) }
        ensures fits { OnOk result (at + length bytes.now < 2 ^ 64) }
        ensures grown { (self.old.size ≤ self.new.size) × (self.new.size ≤ max self.old.size (at + length bytes.now)) }
        ensures same { area_file self.new.is_absent self.new.file self.new.size ≡ record (area_file self.old.is_absent self.old.file self.old.size) { size = self.new.size } }
        ensures counted { IsCounted result self.old.file.faults self.new.file.faults }
        ensures failed { IsTrue (area_file self.old.is_absent self.old.file self.old.size).has_failed → IsErr result }
        ensures absent { IsTrue self.old.is_absent → 0 < length bytes.now → IsErr result }
    {
        self.open()?;
        if bytes.is_empty() {
            return Ok(());
        }
        if self.is_absent || at > u64::MAX - bytes.len() as u64 {
            return Err(self.file.fail());
        }
        let (done, result) = write_whole(&mut self.file, at, bytes);
        self.size = self.size.max(at + done as u64);
        result
    }

    fn cut(&mut self, len: u64) -> Result<(), Fault>
        requires { len ≤ self.old.size }
        ensures done { OnOk result (self.new.size ≡ len) }
        ensures kept { OnErr result (self.new.size ≡ self.old.size) }
        ensures same { area_file self.new.is_absent self.new.file self.new.size ≡ record (area_file self.old.is_absent self.old.file self.old.size) { size = self.new.size } }
        ensures counted { IsCounted result self.old.file.faults self.new.file.faults }
        ensures failed { IsTrue (area_file self.old.is_absent self.old.file self.old.size).has_failed → IsErr result }
    {
        self.open()?;
        if !self.is_absent {
            cut_to(&mut self.file, len)?;
        }
        self.size = len;
        Ok(())
    }

    fn sync(&mut self) -> Result<(), Fault>
        ensures same { area_file self.new.is_absent self.new.file self.new.size ≡ area_file self.old.is_absent self.old.file self.old.size }
        ensures counted { IsCounted result self.old.file.faults self.new.file.faults }
        ensures failed { IsTrue (area_file self.old.is_absent self.old.file self.old.size).has_failed → IsErr result }
        ensures absent { IsTrue self.old.is_absent → IsOk result }
    {
        self.open()?;
        if self.is_absent {
            return Ok(());
        }
        sync_whole(&mut self.file)
    }
}

/// A store over real files. It tells the sizes that its files had when it was made and that its changes made of them, and no content. A read that a
/// signal interrupted is made again, as std does; one that finds the end of its file too soon is a fault.
#[derive(Drop)]
pub struct FileStore {
    image: FileArea,
    journal: FileArea,
}

impl Model for FileStore {
    ghost use Rattle.rx_store.specs.Files.{StoreOfFiles, area_file};

    ghost Value = { StoreOfFiles };

    ghost view = { λ store. record {
      image = area_file store.image.is_absent store.image.file store.image.size;
      journal = area_file store.journal.is_absent store.journal.file store.journal.size;
      faults = record { image = store.image.file.faults; journal = store.journal.file.faults };
    } };
}

impl FileStore {
    /// A store over these files, which are measured here. Each call on a file that couldn't be opened or measured fails.
    pub fn new(image: Opened, journal: Opened) -> FileStore
        ensures image { IsMeasured image result.image }
        ensures journal { IsMeasured journal result.journal }
        ensures faults { result.faults ≡ no_faults }
    {
        FileStore {
            image: FileArea::new(image),
            journal: FileArea::new(journal),
        }
    }
}

impl Store for FileStore {
    ghost use Rattle.rx_store.specs.Files.{sizes_fit_of_files, state_of_files, tells_its_sizes_of_files};

    ghost state = { state_of_files };

    ghost faults = { λ store. store.faults };

    fn len(&mut self, area: Area) -> Result<u64, Fault>
        ensures size { IfOk result (λ size. size ≡ size_of area (state_of_files self.old)) }
        ensures same { state_of_files self.new ≡ state_of_files self.old }
        ensures counted { IsCountedIn area result self.old.faults self.new.faults }

        // It fails exactly where the file couldn't be opened or measured.
        ensures failed { IsTrue (file_of area self.old).has_failed → IsErr result }
        ensures only_failed { OnErr result (IsTrue (file_of area self.old).has_failed) }
        ensures files { self.new ≡ record self.old { faults = self.new.faults } }
    {
        match area {
            Area::Image => self.image.len(),
            Area::Journal => self.journal.len(),
        }
    }

    fn read_at(&mut self, area: Area, at: u64, buf: &mut [u8]) -> Result<(), Fault>
        requires { at + length buf.old ≤ size_of area (state_of_files self.old) }
        ensures bytes { OnOk result (ReadsFrom area at (state_of_files self.old) buf.new) }
        ensures same { state_of_files self.new ≡ state_of_files self.old }
        ensures counted { IsCountedIn area result self.old.faults self.new.faults }

        // It fails where the file couldn't be opened or measured, and of no file nothing can be read.
        ensures failed { IsTrue (file_of area self.old).has_failed → IsErr result }
        ensures absent { IsTrue (file_of area self.old).is_absent → IsOk result }
        ensures files { self.new ≡ record self.old { faults = self.new.faults } }
    {
        match area {
            Area::Image => self.image.read_at(at, buf),
            Area::Journal => self.journal.read_at(at, buf),
        }
    }

    fn write_at(&mut self, area: Area, at: u64, bytes: &[u8]) -> Result<(), Fault>
        requires { MayWrite area at (length bytes.now) (state_of_files self.old) }
        ensures done { OnOk result (state_of_files self.new ≡ state_after (Write area at bytes.now) (state_of_files self.old)) }
        ensures failed { OnErr result (IsAfterFailed (Write area at bytes.now) (state_of_files self.old) (state_of_files self.new)) }
        ensures counted { IsCountedIn area result self.old.faults self.new.faults }

        // It fails where the file couldn't be opened or measured, and no file takes no byte.
        ensures closed { IsTrue (file_of area self.old).has_failed → IsErr result }
        ensures absent { IsTrue (file_of area self.old).is_absent → 0 < length bytes.now → IsErr result }
    {
        match area {
            Area::Image => self.image.write_at(at, bytes),
            Area::Journal => self.journal.write_at(at, bytes),
        }
    }

    fn cut_journal(&mut self, len: u64) -> Result<(), Fault>
        requires { len ≤ size_of Area.Journal (state_of_files self.old) }
        ensures done { OnOk result (state_of_files self.new ≡ state_after (Cut len) (state_of_files self.old)) }
        ensures failed { OnErr result (IsAfterFailed (Cut len) (state_of_files self.old) (state_of_files self.new)) }
        ensures counted { IsCountedIn Area.Journal result self.old.faults self.new.faults }
        ensures closed { IsTrue self.old.journal.has_failed → IsErr result }
    {
        self.journal.cut(len)
    }

    fn sync(&mut self) -> Result<(), Fault>
        ensures done { OnOk result (state_of_files self.new ≡ state_after Sync (state_of_files self.old)) }
        ensures failed { OnErr result (state_of_files self.new ≡ state_of_files self.old) }
        ensures counted { IsCountedInBoth result self.old.faults self.new.faults }
        ensures closed { (area : AreaValue) → IsTrue (file_of area self.old).has_failed → IsErr result }
        ensures files { self.new ≡ record self.old { faults = self.new.faults } }
    {
        match (self.image.sync(), self.journal.sync()) {
            (Ok(()), Ok(())) => Ok(()),
            (Err(_), Err(_)) => Err(Fault),
            (Err(_), Ok(())) => Err(self.journal.file.fail()),
            (Ok(()), Err(_)) => Err(self.image.file.fail()),
        }
    }

    ghost tells_its_sizes = { tells_its_sizes_of_files };

    ghost sizes_fit = { sizes_fit_of_files };
}
