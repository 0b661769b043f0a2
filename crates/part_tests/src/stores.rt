//! Tests of what no clause says: that memory is enough, and what real files give.
ghost use Rattle.std.specs.Prelude.{◌≤◌, IfOk};

use rx_store::{
    Area, Fault, FileStore, MemSink, MemSource, MemStore, Opened, ReadError, Sink, Source, StdSink,
    StdSource, Store, read_to_end, write_all,
};
use std::alloc::{AllocError, Global};
use std::fs::{File, OpenOptions};
use std::io::{ErrorKind, Read, Write};
use std::path::PathBuf;
use std::process::Abort;
use std::test::Fail;
use std::{env, fs, io, process};

/// A call on a store, behind one for the size where it has to fit. Two bytes are read and written at a time.
#[derive(Clone, Copy)]
enum Call {
    Len(Area),
    Read(Area, u64),
    Write(Area, u64, [u8; 2]),
    Cut(u64),
    Sync,
}

/// Reads two bytes as a number.
fn read<S: Store>(store: &mut S, area: Area, at: u64) -> Result<u64, Fault> {
    let size = store.len(area)?;
    if at > size || 2 > size - at {
        return Err(Fault);
    }
    let mut buf = [0; 2];
    store.read_at(area, at, &mut buf)?;
    Ok(u64::from(u16::from_be_bytes(buf)))
}

/// Writes two bytes.
fn write<S: Store>(store: &mut S, area: Area, at: u64, bytes: [u8; 2]) -> Result<u64, Fault> {
    let size = store.len(area)?;
    let len = match area {
        Area::Image => 2,
        Area::Journal => 0,
    };
    if at > size || len > size - at {
        return Err(Fault);
    }
    store.write_at(area, at, &bytes)?;
    Ok(0)
}

/// Cuts the journal.
fn cut<S: Store>(store: &mut S, len: u64) -> Result<u64, Fault> {
    if len > store.len(Area::Journal)? {
        return Err(Fault);
    }
    store.cut_journal(len)?;
    Ok(0)
}

/// Makes a call, and gives its number: a size, two bytes, or 0.
fn called<S: Store>(store: &mut S, call: Call) -> Result<u64, Fault> {
    match call {
        Call::Len(area) => store.len(area),
        Call::Read(area, at) => read(store, area, at),
        Call::Write(area, at, bytes) => write(store, area, at, bytes),
        Call::Cut(len) => cut(store, len),
        Call::Sync => {
            store.sync()?;
            Ok(0)
        }
    }
}

fn makes<S: Store>(rt: &impl Abort, store: &mut S, rows: &[(Call, Result<u64, Fault>)]) {
    for (call, answer) in rows {
        assert_eq!(*rt; called(store, *call), *answer);
    }
}

/// The calls with the numbers 3 and 5 are to fail, the journal has room for four bytes, and four changes are recorded.
const IN_MEMORY: &[(Call, Result<u64, Fault>)] = &[
    (Call::Read(Area::Image, 2), Ok(0x6364)),
    (Call::Len(Area::Journal), Err(Fault)),
    (Call::Read(Area::Image, 3), Err(Fault)),
    (Call::Read(Area::Journal, 1), Ok(0x797A)),
    (Call::Write(Area::Image, 2, *b"XY"), Ok(0)),
    (Call::Write(Area::Journal, 3, *b"12"), Err(Fault)),
    (Call::Cut(1), Ok(0)),
    (Call::Write(Area::Journal, 1, *b"12"), Ok(0)),
    (Call::Sync, Ok(0)),
    (Call::Len(Area::Journal), Ok(3)),
    (Call::Sync, Err(Fault)),
];

#[test]
fn a_store_in_memory_is_read_and_written(rt: HostRuntime) -> Result<(), Fail> {
    let alloc = rt.alloc();
    let image = Vec::from_slice(alloc, b"abcdef")?;
    let journal = Vec::from_slice(alloc, b"xyz")?;
    let mut store = MemStore::new(alloc, image, journal, 4, 4, 6)?;
    store.fail_at(vec![in alloc; 3, 5]?);
    makes(&rt, &mut store, IN_MEMORY);
    assert_eq!(rt; store.faults(), 4);
    assert!(rt; store.image() == b"abXYef".as_slice());
    assert!(rt; store.journal() == b"x12".as_slice());
    Ok(())
}

#[test]
fn a_text_is_written_whole_where_it_fits(rt: HostRuntime) -> Result<(), Fail> {
    let mut sink = MemSink::new(rt.alloc(), 8)?;
    assert_eq!(rt; write_all(&mut sink, b"hello"), Ok(()));
    assert_eq!(rt; write_all(&mut sink, b"hello"), Err(Fault));
    assert!(rt; sink.bytes() == b"hellohel".as_slice());
    Ok(())
}

/// Reads a text of 9000 bytes up to a limit, and says whether it came whole; none where it is too long.
fn read_long(alloc: Global, limit: usize, fail: Option<u64>) -> Result<Option<bool>, ReadError> {
    let long = vec![in alloc; b'a'; 9000]?;
    let mut source = MemSource::new(Vec::from_slice(alloc, &long)?, fail);
    match read_to_end(alloc, &mut source, limit)? {
        Some(text) => Ok(Some(text == long)),
        None => Ok(None),
    }
}

const READS_OF_LONG: &[(usize, Option<u64>, Result<Option<bool>, ReadError>)] = &[
    (9000, None, Ok(Some(true))),
    (8999, None, Ok(None)),
    (20000, None, Ok(Some(true))),
    (0, None, Ok(None)),
    (9000, Some(2), Err(ReadError::Fault)),
];

#[test]
fn a_text_is_read_whole_up_to_the_limit(rt: HostRuntime) -> Result<(), Fail> {
    for (limit, fail, answer) in READS_OF_LONG {
        assert_eq!(rt; read_long(rt.alloc(), *limit, *fail), *answer);
    }
    Ok(())
}

/// The path of a file of a test's own.
fn place(rt: &HostRuntime, name: &str) -> io::Result<PathBuf> {
    let id = process::id(rt.process());
    let name = format!(in rt.alloc(); "dfredact-{id}-{name}")?;
    Ok(env::temp_dir(rt)?.join(rt.alloc(), name.as_str())?)
}

/// A file of a test's own with this text.
fn file_of(rt: &HostRuntime, name: &str, text: &str) -> io::Result<PathBuf> {
    let path = place(rt, name)?;
    fs::write(rt, &path, text)?;
    Ok(path)
}

/// Takes the text of a file, which is removed.
fn taken(rt: &HostRuntime, path: &PathBuf) -> io::Result<String> {
    let text = fs::read_to_string(rt, path)?;
    fs::remove_file(rt, path)?;
    Ok(text)
}

fn opened(rt: &HostRuntime, path: &PathBuf, may_write: bool) -> Opened {
    match OpenOptions::new()
        .read(true)
        .write(may_write)
        .open(rt, path)
    {
        Ok(file) => Opened::Open(file),
        Err(_) => Opened::Failed,
    }
}

const WRITTEN: &[(Call, Result<u64, Fault>)] = &[
    (Call::Write(Area::Image, 2, *b"XY"), Ok(0)),
    (Call::Cut(1), Ok(0)),
    (Call::Write(Area::Journal, 1, *b"12"), Ok(0)),
    (Call::Sync, Ok(0)),
    (Call::Len(Area::Journal), Ok(3)),
];

#[test]
fn a_store_writes_its_files(rt: HostRuntime) -> Result<(), Fail> {
    let image = file_of(&rt, "written", "abcdef")?;
    let journal = file_of(&rt, "journal", "xyz")?;
    let mut store = FileStore::new(opened(&rt, &image, true), opened(&rt, &journal, true));
    makes(&rt, &mut store, WRITTEN);
    assert!(rt; taken(&rt, &image)?.as_str() == "abXYef");
    assert!(rt; taken(&rt, &journal)?.as_str() == "x12");
    Ok(())
}

/// A file that may only be read, and no journal.
const READ: &[(Call, Result<u64, Fault>)] = &[
    (Call::Read(Area::Image, 2), Ok(0x6364)),
    (Call::Write(Area::Image, 2, *b"--"), Err(Fault)),
    (Call::Write(Area::Journal, 0, *b"--"), Err(Fault)),
];

/// The file has fewer bytes than it had.
const CUT: &[(Call, Result<u64, Fault>)] = &[
    (Call::Read(Area::Image, 2), Err(Fault)),
    (Call::Len(Area::Image), Ok(6)),
    (Call::Len(Area::Journal), Ok(0)),
];

#[test]
fn a_store_reads_a_file_until_it_is_cut(rt: HostRuntime) -> Result<(), Fail> {
    let path = file_of(&rt, "image", "abcdef")?;
    let mut store = FileStore::new(opened(&rt, &path, false), Opened::Absent);
    makes(&rt, &mut store, READ);
    fs::write(&rt, &path, "abc")?;
    makes(&rt, &mut store, CUT);
    assert!(rt; taken(&rt, &path)?.as_str() == "abc");
    Ok(())
}

const NO_FILE: &[(Call, Result<u64, Fault>)] = &[
    (Call::Len(Area::Image), Err(Fault)),
    (Call::Len(Area::Journal), Err(Fault)),
];

#[test]
fn a_store_fails_where_no_file_is(rt: HostRuntime) -> Result<(), Fail> {
    let missing = opened(&rt, &place(&rt, "missing")?, false);
    let directory = opened(&rt, &env::temp_dir(&rt)?, false);
    makes(&rt, &mut FileStore::new(missing, directory), NO_FILE);
    Ok(())
}

/// Reads up to three bytes, and says how many; the rest of the buffer is dashes.
fn next<R: Source>(source: &mut R) -> Result<(usize, [u8; 3]), Fault> {
    let mut buf = *b"---";
    let count = source.read(&mut buf)?;
    Ok((count, buf))
}

fn gives<R: Source>(rt: &impl Abort, source: &mut R, answers: &[Result<(usize, [u8; 3]), Fault>]) {
    for answer in answers {
        assert_eq!(*rt; next(source), *answer);
    }
}

const HELLO: &[Result<(usize, [u8; 3]), Fault>] = &[
    Ok((3, *b"hel")),
    Ok((2, *b"lo-")),
    Ok((0, *b"---")),
];

#[test]
fn a_text_goes_through_a_file(rt: HostRuntime) -> Result<(), Fail> {
    let path = place(&rt, "text")?;
    let written = write_all(&mut StdSink::new(File::create(&rt, &path)?), b"hello");
    assert_eq!(rt; written, Ok(()));
    let refused = write_all(&mut StdSink::new(File::open(&rt, &path)?), b"hello");
    assert_eq!(rt; refused, Err(Fault));
    gives(
        &rt,
        &mut StdSource::new(Some(File::open(&rt, &path)?)),
        HELLO,
    );
    Ok(fs::remove_file(&rt, &path)?)
}

/// What a reader or a writer of the tests answers, call after call.
#[derive(Drop)]
struct Answers {
    left: Vec<Result<usize, ErrorKind>>,
}

impl Answers {
    fn next(&mut self, most: usize) -> io::Result<usize>
        ensures { IfOk result (λ count. count ≤ most) }
    {
        match self.left.pop() {
            Some(Ok(count)) => Ok(count.min(most)),
            Some(Err(kind)) => Err(io::Error::from(kind)),
            None => Ok(0),
        }
    }
}

impl Read for Answers {
    fn read(&mut self, buf: &mut [u8]) -> io::Result<usize> {
        self.next(buf.len())
    }
}

impl Write for Answers {
    fn write(&mut self, buf: &[u8]) -> io::Result<usize> {
        self.next(buf.len())
    }

    fn flush(&mut self) -> io::Result<()> {
        Ok(())
    }
}

/// A device that is interrupted once, and then moves two bytes, moves none and fails.
fn device(alloc: Global) -> Result<Answers, AllocError> {
    Ok(Answers {
        left: vec![in alloc;
            Err(ErrorKind::Other),
            Ok(0),
            Ok(2),
            Err(ErrorKind::Interrupted),
        ]?,
    })
}

const READS_OF_DEVICE: &[Result<(usize, [u8; 3]), Fault>] = &[
    Ok((2, *b"---")),
    Ok((0, *b"---")),
    Err(Fault),
];

const WRITES_TO_DEVICE: &[(&[u8], Result<usize, Fault>)] = &[
    (b"abc", Ok(2)),
    (b"c", Err(Fault)),
    (b"c", Err(Fault)),
    (b"", Ok(0)),
];

#[test]
fn a_device_that_was_interrupted_is_called_again(rt: HostRuntime) -> Result<(), Fail> {
    let mut source = StdSource::new(Some(device(rt.alloc())?));
    gives(&rt, &mut source, READS_OF_DEVICE);
    let mut sink = StdSink::new(device(rt.alloc())?);
    for (bytes, answer) in WRITES_TO_DEVICE {
        assert_eq!(rt; sink.write(bytes), *answer);
    }
    Ok(())
}
