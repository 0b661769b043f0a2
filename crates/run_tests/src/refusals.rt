//! The images that the command `plan` refuses: the small image, but for some changes.
use crate::plan::{PLAN, RULE, answers, found};
use crate::small_image::{ENTRIES, Edit, FILE, ROOT, SUPERBLOCK};
use redact_cmd::{PlanRefusal, Status};
use rx_store::{Sort, What};
use std::test::Fail;

/// The last three: fragments of 512 bytes aren't those of a block; UFS1's magic comes first; the inodes lie behind the end.
const WRONG_SUPERBLOCKS: &[(&[Edit<'static>], Status)] = &[
    (
        &[Edit::Bytes(SUPERBLOCK + 188, b"\xFF\xFF\xFF\xFF")],
        Status::Damaged(Sort::SuperField, 65_724),
    ),
    (
        &[Edit::Bytes(SUPERBLOCK + 16, b"\xFF\xFF\xFF\xFF")],
        Status::Damaged(Sort::SuperField, 65_552),
    ),
    (
        &[Edit::Bytes(SUPERBLOCK + 44, b"\x00\x00\x00\x00")],
        Status::Damaged(Sort::SuperField, 65_580),
    ),
    (
        &[Edit::Bytes(SUPERBLOCK + 44, b"\xFF\xFF\xFF\xFF")],
        Status::Damaged(Sort::SuperField, 65_580),
    ),
    (
        &[Edit::Bytes(SUPERBLOCK + 48, b"\x00\x00\x00\x80")],
        Status::Damaged(Sort::SuperField, 65_584),
    ),
    (
        &[Edit::Bytes(SUPERBLOCK + 56, b"\x08\x00\x00\x00")],
        Status::Damaged(Sort::SuperField, 65_592),
    ),
    (
        &[Edit::Bytes(SUPERBLOCK + 116, b"\x00\x00\x00\x00")],
        Status::Damaged(Sort::SuperField, 65_652),
    ),
    (
        &[Edit::Bytes(SUPERBLOCK + 120, b"\x00\x00\x00\x00")],
        Status::Damaged(Sort::SuperField, 65_656),
    ),
    (
        &[Edit::Bytes(SUPERBLOCK + 184, b"\x00\x00\x00\x00")],
        Status::Damaged(Sort::SuperField, 65_720),
    ),
    (
        &[Edit::Bytes(SUPERBLOCK + 188, b"\x00\x00\x00\x00")],
        Status::Damaged(Sort::SuperField, 65_724),
    ),
    (
        &[Edit::Bytes(SUPERBLOCK + 52, b"\x00\x02\x00\x00")],
        Status::Damaged(Sort::SuperField, 65_592),
    ),
    (
        &[Edit::Bytes(9564, b"\x54\x19\x01\x00")],
        Status::Damaged(Sort::SuperField, 8_240),
    ),
    (
        &[Edit::Bytes(SUPERBLOCK + 16, b"\xFF\xFF\xFF\x7F")],
        Status::Damaged(Sort::InodeNumber, 65_536),
    ),
];

/// The last one has the magic of NTFS and that of UFS2.
const OTHER_KINDS: &[(&[Edit<'static>], Status)] = &[
    (&[Edit::Bytes(1024, b"H+\x00\x04")], Status::NotBuilt),
    (
        &[Edit::Bytes(SUPERBLOCK + 1372, b"\x00")],
        Status::NotRecognised,
    ),
    (
        &[Edit::Bytes(3, b"NTFS    "), Edit::Bytes(510, b"\x55\xAA")],
        Status::NotBuilt,
    ),
];

const WRONG_ROOTS: &[(&[Edit<'static>], Status)] = &[
    (
        &[Edit::Bytes(ROOT, b"\xED\x81")],
        Status::Damaged(Sort::RootKind, 74_240),
    ),
    // no whole blocks of 512 bytes, a second block that is a hole, and a first one
    (
        &[Edit::Bytes(ROOT + 16, b"\x01\x02")],
        Status::Damaged(Sort::DirSize, 74_256),
    ),
    (
        &[Edit::Bytes(ROOT + 16, b"\x00\x12")],
        Status::Damaged(Sort::DirSize, 74_256),
    ),
    (
        &[Edit::Bytes(ROOT + 112, b"\x00")],
        Status::Damaged(Sort::DirSize, 74_256),
    ),
    (
        &[Edit::Bytes(ROOT + 112, b"\x40")],
        Status::Damaged(Sort::BlockPointer, 74_352),
    ),
    // a length of 4, one past the block, and an empty name
    (
        &[Edit::Bytes(ENTRIES + 4, b"\x04")],
        Status::Damaged(Sort::DirEntry, 81_920),
    ),
    (
        &[Edit::Bytes(ENTRIES + 28, b"\xEC\x01")],
        Status::Damaged(Sort::DirEntry, 81_944),
    ),
    (
        &[Edit::Bytes(ENTRIES + 31, b"\x00")],
        Status::Damaged(Sort::DirEntry, 81_944),
    ),
    // an inode past the groups, and the root once more
    (
        &[Edit::Bytes(ENTRIES + 24, b"\x10")],
        Status::Damaged(Sort::InodeNumber, 81_944),
    ),
    (
        &[Edit::Bytes(ENTRIES + 24, b"\x02")],
        Status::Damaged(Sort::DirTwice, 81_944),
    ),
    // the root once more, behind another entry
    (
        &[
            Edit::Entry(ENTRIES + 24, 3, 12, b"a"),
            Edit::Entry(ENTRIES + 36, 2, 476, b"b"),
        ],
        Status::Damaged(Sort::DirTwice, 81_956),
    ),
];

const GREATEST: &[u8] = b"\xFF\xFF\xFF\xFF\xFF\xFF\xFF\xFF";

const WRONG_FILES: &[(&[Edit<'static>], Status)] = &[
    // a directory of three bytes, and a size that no pointers reach
    (
        &[Edit::Bytes(FILE, b"\xA4\x41")],
        Status::Damaged(Sort::DirSize, 74_512),
    ),
    (
        &[Edit::Bytes(FILE + 16, GREATEST)],
        Status::Damaged(Sort::FileSize, 74_512),
    ),
    // pointers that are negative, that leave every image, and that leave this one
    (
        &[Edit::Bytes(FILE + 112, GREATEST)],
        Status::Damaged(Sort::BlockPointer, 74_608),
    ),
    (
        &[Edit::Bytes(FILE + 112, b"\xFF\xFF\xFF\xFF\xFF\xFF\xFF\x7F")],
        Status::Damaged(Sort::BlockPointer, 74_608),
    ),
    (
        &[Edit::Bytes(FILE + 112, b"\x40")],
        Status::Damaged(Sort::BlockPointer, 74_608),
    ),
    (
        &[Edit::Bytes(FILE, b"\x00\x00")],
        Status::Damaged(Sort::DeadInode, 74_496),
    ),
];

const SNAPSHOTS: &[(&[Edit<'static>], Status)] = &[
    (
        &[Edit::Bytes(ROOT + 88, b"\x00\x00\x20\x00")],
        Status::Unsupported(What::Snapshot, 74_328),
    ),
    (
        &[Edit::Bytes(FILE + 88, b"\x00\x00\x20\x00")],
        Status::Unsupported(What::Snapshot, 74_584),
    ),
];

const SHORT_IMAGES: &[(&[Edit<'static>], Status)] = &[
    (&[Edit::End(0)], Status::NotRecognised),
    (&[Edit::End(1000)], Status::NotRecognised),
    (&[Edit::End(66_911)], Status::NotRecognised),
    (
        &[Edit::End(66_912)],
        Status::Damaged(Sort::InodeNumber, 65_536),
    ),
    (
        &[Edit::End(74_495)],
        Status::Damaged(Sort::InodeNumber, 65_536),
    ),
    (
        &[Edit::End(74_751)],
        Status::Damaged(Sort::BlockPointer, 74_352),
    ),
    (
        &[Edit::End(81_920)],
        Status::Damaged(Sort::BlockPointer, 74_352),
    ),
    (
        &[Edit::End(86_016)],
        Status::Damaged(Sort::BlockPointer, 74_608),
    ),
    (
        &[Edit::End(90_111)],
        Status::Damaged(Sort::BlockPointer, 74_608),
    ),
];

/// The file's block is that of the root's entries, or that of the superblock.
const GUARDED: &[(&[Edit<'static>], Status)] = &[
    (
        &[Edit::Bytes(FILE + 112, &[20])],
        Status::PlanRefused(PlanRefusal::MeetsGuard(81_920, 1)),
    ),
    (
        &[Edit::Bytes(FILE + 112, &[16])],
        Status::PlanRefused(PlanRefusal::MeetsGuard(65_536, 1)),
    ),
];

#[test]
fn images_are_refused(rt: HostRuntime) -> Result<(), Fail> {
    let tables = [
        WRONG_SUPERBLOCKS,
        OTHER_KINDS,
        WRONG_ROOTS,
        WRONG_FILES,
        SNAPSHOTS,
        SHORT_IMAGES,
        GUARDED,
    ];
    for rows in tables {
        for (edits, status) in rows {
            let found = found(rt.alloc(), PLAN, edits, RULE)?;
            answers(&rt, found, *status, b"");
        }
    }
    Ok(())
}
