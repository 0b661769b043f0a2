//! One entry of a directory.
ghost use Rattle.std.specs.Prelude.{◌≡◌, ◌+◌, ◌%◌, ◌<◌, ◌≤◌, true, length};
ghost use Rattle.ufs_volume_defs.specs.Directory as spec;
ghost use Rattle.ufs_volume_defs.specs.Directory.{entry_of};
ghost use Rattle.bytes_defs.specs.Bytes.{part};

use bytes_defs::{Order, u16_at, u32_at};
use std::marker::Model;

/// An entry: its place in the bytes of the block, the inode that it names, its length in bytes, and its name.
#[derive(Drop)]
pub struct Entry<'a> {
    pub at: usize,
    pub inode: u32,
    pub len: u16,
    pub name: &'a [u8],
}

impl<'a> Model for Entry<'a> {
    ghost use Rattle.ufs_volume_defs.specs.Directory.{Entry};

    ghost Value = { Entry };

    ghost view = { λ e. record { at = e.at; inode = e.inode; len = e.len; name = e.name.now } };
}

/// The bytes from a place on, as many as that or as there are.
#[tactic(auto, unfolding(bytes_defs::specs::Bytes::part))]
fn part_of(bytes: &[u8], at: usize, len: usize) -> &[u8]
    requires { at ≤ length bytes.now }
    ensures { result.now ≡ part bytes.now at len }
{
    let rest = &bytes[at..];
    &rest[..len.min(rest.len())]
}

/// Whether the record at a place is an entry.
#[tactic(auto, unfolding(ufs_volume_defs::specs::Directory::is_entry))]
pub(crate) fn is_entry(order: Order, bytes: &[u8], at: usize) -> bool
    requires whole { length bytes.now % 512 ≡ 0 }
    requires inside { at < length bytes.now }
    ensures { result ≡ spec.is_entry order bytes.now at }
{
    let left = 512 - at % 512;
    if left < 8 {
        return false;
    }
    let len = usize::from(u16_at(order, bytes, at + 4));
    let name_len = usize::from(bytes[at + 7]);
    let used = u32_at(order, bytes, at) > 1;
    len >= 8 && len % 4 == 0 && len <= left && (!used || (name_len > 0 && 8 + name_len <= len))
}

/// The entry at a place.
#[tactic(auto, using(crate::proofs::Entries::entry_head, crate::proofs::Entries::entry_laws))]
pub(crate) fn entry_at(order: Order, bytes: &[u8], at: usize) -> Entry<'_>
    requires whole { length bytes.now % 512 ≡ 0 }
    requires inside { at < length bytes.now }
    requires entry { spec.is_entry order bytes.now at ≡ true }
    ensures value { result ≡ entry_of order bytes.now at }
    ensures some { 8 ≤ result.len }
    ensures ends { at + result.len ≤ length bytes.now }
{
    let name_len = usize::from(bytes[at + 7]);
    Entry {
        at,
        inode: u32_at(order, bytes, at),
        len: u16_at(order, bytes, at + 4),
        name: part_of(bytes, at + 8, name_len),
    }
}

/// Whether an entry leads to a file: it is used, and names neither the directory itself nor its parent.
pub(crate) fn leads_on(entry: &Entry<'_>) -> bool
    ensures { result ≡ spec.leads_on entry.now }
{
    1 < entry.inode && entry.name != b".".as_slice() && entry.name != b"..".as_slice()
}
