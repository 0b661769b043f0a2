//! The small image: a UFS2 of 262,144 bytes with one file `/a`, which holds `abc`. And images that differ from it.
use std::alloc::{AllocError, Global};

/// The place of the superblock.
pub(crate) const SUPERBLOCK: usize = 65536;

/// The places of inode 2, the root, and of inodes 3 and 4: the file, and one that is free.
pub(crate) const ROOT: usize = 74240;

pub(crate) const FILE: usize = 74496;

pub(crate) const FREE: usize = 74752;

/// The place of the root's entries.
pub(crate) const ENTRIES: usize = 81920;

/// A change of an image.
#[derive(Clone, Copy)]
pub(crate) enum Edit<'a> {
    /// Bytes at a place.
    Bytes(usize, &'a [u8]),
    /// A number of four bytes at a place.
    Number(usize, u32),
    /// An inode's mode, size and first pointer.
    Inode(usize, u16, u64, i64),
    /// An inode's twelve pointers.
    Pointers(usize, [i64; 12]),
    /// An entry of a directory: its inode, its length and its name.
    Entry(usize, u32, u16, &'a [u8]),
    /// The image ends here.
    End(usize),
}

const SMALL: &[Edit<'static>] = &[
    Edit::Number(SUPERBLOCK + 12, 17),
    Edit::Number(SUPERBLOCK + 16, 18),
    Edit::Number(SUPERBLOCK + 44, 1),
    Edit::Number(SUPERBLOCK + 48, 4096),
    Edit::Number(SUPERBLOCK + 52, 4096),
    Edit::Number(SUPERBLOCK + 56, 1),
    Edit::Number(SUPERBLOCK + 116, 512),
    Edit::Number(SUPERBLOCK + 120, 16),
    Edit::Number(SUPERBLOCK + 184, 16),
    Edit::Number(SUPERBLOCK + 188, 64),
    Edit::Number(SUPERBLOCK + 1372, 0x1954_0119),
    Edit::Inode(ROOT, 0x41ED, 512, 20),
    Edit::Inode(FILE, 0x81A4, 3, 21),
    Edit::Entry(ENTRIES, 2, 12, b"."),
    Edit::Entry(ENTRIES + 12, 2, 12, b".."),
    Edit::Entry(ENTRIES + 24, 3, 488, b"a"),
    Edit::Bytes(86_016, b"abc"),
];

/// Puts bytes at a place of an image, as far as it goes.
fn put(image: &mut [u8], at: usize, bytes: &[u8]) {
    for (held, byte) in image.iter_mut().skip(at).zip(bytes) {
        *held = *byte;
    }
}

fn change(image: &mut Vec<u8>, edit: &Edit<'_>) {
    match edit {
        Edit::Bytes(at, bytes) => put(image, *at, bytes),
        Edit::Number(at, number) => put(image, *at, &number.to_le_bytes()),
        Edit::Inode(at, mode, size, pointer) => {
            put(image, *at, &mode.to_le_bytes());
            put(image, at.saturating_add(16), &size.to_le_bytes());
            put(image, at.saturating_add(112), &pointer.to_le_bytes());
        }
        Edit::Pointers(at, pointers) => {
            let mut next = at.saturating_add(112);
            for pointer in pointers {
                put(image, next, &pointer.to_le_bytes());
                next = next.saturating_add(8);
            }
        }
        Edit::Entry(at, inode, len, name) => {
            put(image, *at, &inode.to_le_bytes());
            put(image, at.saturating_add(4), &len.to_le_bytes());
            put(image, at.saturating_add(7), &name.len().to_le_bytes()[..1]);
            put(image, at.saturating_add(8), name);
        }
        Edit::End(len) => image.truncate(*len),
    }
}

/// The small image with these changes, made one after the other.
pub(crate) fn edited(alloc: Global, edits: &[Edit<'_>]) -> Result<Vec<u8>, AllocError> {
    let mut image = vec![in alloc; 0u8; 262144]?;
    for one in SMALL {
        change(&mut image, one);
    }
    for one in edits {
        change(&mut image, one);
    }
    Ok(image)
}
