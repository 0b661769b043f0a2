//! Where the overflow records of a file stand among those of the volume.
ghost use Rattle.std.specs.Prelude.{◌≡◌, ◌==◌, IfOk};
ghost use Rattle.std.specs.List.{filter};
ghost use Rattle.std.specs.List.Sorted.{IsNonDecreasingBy};
ghost use Rattle.hfs_defs.specs.Forks as spec;
ghost use Rattle.hfs_extents.specs.Index.{entries_by_file};

use hfs_defs::OverflowRecord;
use std::alloc::{AllocError, Global};

/// The file of an overflow record, and the record's number in the order of the leaf records.
#[derive(Clone, Copy, Debug)]
pub(crate) struct Entry {
    pub(crate) file: u32,
    pub(crate) number: usize,
}

/// The entries of overflow records, by their files, those of one file in the order of the records.
pub(crate) fn index_of(alloc: Global, records: &[OverflowRecord]) -> Result<Vec<Entry>, AllocError>
    ensures { IfOk result (λ entries. entries.items ≡ entries_by_file records.now) }
{
    let mut entries = Vec::new(alloc);
    for (number, record) in records.iter().enumerate() {
        entries.push(Entry {
            file: record.file,
            number,
        })?;
    }
    entries.sort_by_key(|entry| entry.file)?;
    Ok(entries)
}

/// The entries of a file.
fn entries_of(entries: &[Entry], file: u32) -> &[Entry]
    requires { IsNonDecreasingBy (λ entry. entry.file) entries.now }
    ensures { result.now ≡ filter (λ entry. entry.file == file) entries.now }
{
    let begin = entries.partition_point(|entry| entry.file < file);
    let rest = &entries[begin..];
    let end = rest.partition_point(|entry| entry.file <= file);
    &rest[..end]
}

/// The overflow records of a fork, by their first block, equal ones in the order of the leaf records.
pub(crate) fn records_of(
    alloc: Global,
    records: &[OverflowRecord],
    entries: &[Entry],
    file: u32,
    fork_type: u8,
) -> Result<Vec<OverflowRecord>, AllocError>
    requires { entries.now ≡ entries_by_file records.now }
    ensures { IfOk result (λ found. found.items ≡ spec.records_of records.now file fork_type) }
{
    let mut found = Vec::new(alloc);
    if file == 3 {
        return Ok(found);
    }
    for entry in entries_of(entries, file) {
        let record = records[entry.number];
        if record.fork_type != fork_type {
            continue;
        }
        found.push(record)?;
    }
    found.sort_by_key(|overflow| overflow.start)?;
    Ok(found)
}
