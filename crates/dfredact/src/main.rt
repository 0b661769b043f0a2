//! dfredact: reports which bytes of a raw disk image rules select, and erases them.
//!
//! main opens the files that the words name and calls `run` of `redact_cmd` over them and standard output. The image is opened
//! for writing by `redact` and `resume` alone, and `redact` makes the journal's file where there is none, and syncs the directory
//! that it stands in. main writes the line of the status to standard error and ends with the status' number. A file that can't be
//! opened is handed in as a store or a source whose calls fail, so `run` answers for it.
//!
//!     dfredact plan IMAGE RULES
//!     dfredact redact IMAGE JOURNAL RULES
//!     dfredact resume IMAGE JOURNAL
//!     dfredact report JOURNAL
#![tactic(auto)]

use redact_cmd::{Command, Status, parse_words, run, write_status};
use rx_store::{FileStore, NoMemory, Opened, Sink, StdSink, StdSource};
use std::alloc::AllocError;
use std::env;
use std::fs::{File, OpenOptions};
use std::io::{self, ErrorKind};
use std::os::unix::fs::MetadataExt;
use std::path::Path;
use std::process::ExitCode;
use std::rt::{Env, Files};

/// The words behind the program's name. Words that aren't all UTF-8 are none.
fn words_of(rt: &(impl Env + AllocGlobal)) -> Result<Vec<String>, NoMemory> {
    match env::args(rt) {
        Ok(args) => args.skip(1).collect(rt.alloc()),
        Err(error) if error.kind() == ErrorKind::OutOfMemory => Err(AllocError),
        Err(_) => Ok(Vec::new(rt.alloc())),
    }
}

/// How a command opens a file.
#[derive(Clone, Copy, PartialEq, Eq)]
enum Use {
    Read,
    /// Also for writing; there must be one.
    Write,
    /// Also for writing; it is made where there is none.
    Make,
}

/// The files that a command's words name. A command that isn't built has none.
#[derive(Clone, Copy, Drop)]
struct Named<'a> {
    image: Option<(&'a str, Use)>,
    journal: Option<(&'a str, Use)>,
    rules: Option<&'a str>,
}

const NO_FILES: Named<'static> = Named {
    image: None,
    journal: None,
    rules: None,
};

/// The files of the words. Only `redact` and `resume` open the image for writing.
fn files_of(words: &[String]) -> Named<'_> {
    match (parse_words(words), words) {
        (Some(Command::Plan), [_, image, rules]) => Named {
            image: Some((image.as_str(), Use::Read)),
            rules: Some(rules.as_str()),
            ..NO_FILES
        },
        (Some(Command::Redact), [_, image, journal, rules]) => Named {
            image: Some((image.as_str(), Use::Write)),
            journal: Some((journal.as_str(), Use::Make)),
            rules: Some(rules.as_str()),
        },
        (Some(Command::Resume), [_, image, journal]) => Named {
            image: Some((image.as_str(), Use::Write)),
            journal: Some((journal.as_str(), Use::Write)),
            ..NO_FILES
        },
        (Some(Command::Report), [_, journal]) => Named {
            journal: Some((journal.as_str(), Use::Read)),
            ..NO_FILES
        },
        _ => NO_FILES,
    }
}

/// Makes a file, and waits until its name is on the disk too.
fn made(rt: &impl Files<File = File>, path: &str) -> io::Result<File> {
    let file = File::create_new(rt, path)?;
    let directory = match Path::new(path).parent() {
        Some(directory) if directory != Path::new("") => File::open(rt, directory)?,
        _ => File::open(rt, ".")?,
    };
    directory.sync_all()?;
    Ok(file)
}

/// A file that a command names, as far as it could be opened.
fn opened(rt: &impl Files<File = File>, named: Option<(&str, Use)>) -> Opened {
    let Some((path, how)) = named else {
        return Opened::Absent;
    };
    let found = match OpenOptions::new()
        .read(true)
        .write(how != Use::Read)
        .open(rt, path)
    {
        Err(error) if how == Use::Make && error.kind() == ErrorKind::NotFound => made(rt, path),
        found => found,
    };
    match found {
        Ok(file) => Opened::Open(file),
        Err(_) => Opened::Failed,
    }
}

/// Whether two files are one under two names.
fn are_one(image: &Opened, journal: &Opened) -> bool {
    let (Opened::Open(image), Opened::Open(journal)) = (image, journal) else {
        return false;
    };
    match (image.metadata(), journal.metadata()) {
        (Ok(image), Ok(journal)) => image.dev() == journal.dev() && image.ino() == journal.ino(),
        _ => false,
    }
}

/// The store of the files of a command. Where image and journal are one file, each call of it fails: the first one, that cuts the
/// journal, would be the image's end.
fn store_of(rt: &impl Files<File = File>, files: Named<'_>) -> FileStore {
    let image = opened(rt, files.image);
    let journal = opened(rt, files.journal);
    if are_one(&image, &journal) {
        return FileStore::new(Opened::Failed, Opened::Failed);
    }
    FileStore::new(image, journal)
}

/// The rule text of a command, as far as it could be opened.
fn rules_of(rt: &impl Files<File = File>, files: Named<'_>) -> Option<File> {
    File::open(rt, files.rules?).ok()
}

/// Carries out the command of the words over the real files, with its answer into `out`.
fn answer_to(rt: &HostRuntime, words: &[String], out: &mut impl Sink) -> Status {
    let files = files_of(words);
    let mut store = store_of(rt, files);
    let mut source = StdSource::new(rules_of(rt, files));
    run(rt.alloc(), words, &mut store, &mut source, out)
}

/// Carries out the command of the program's words, with its answer to the standard output.
fn answer(rt: &HostRuntime) -> Status {
    match words_of(rt) {
        Ok(words) => answer_to(rt, &words, &mut StdSink::new(io::writer(rt))),
        Err(AllocError) => Status::NoMemory,
    }
}

fn main(rt: HostRuntime) -> ExitCode {
    let status = answer(&rt);
    let _ = write_status(&status, &mut StdSink::new(rt.stderr()));
    ExitCode::from(status.code())
}

#[cfg(test)]
mod tests;
