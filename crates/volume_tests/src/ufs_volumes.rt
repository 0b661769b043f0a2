//! A UFS1 of 49,664 bytes and a UFS2 of 196,608.
use crate::bytes::{Written, with};

/// Two groups of 32 inodes and 64 fragments of 512 bytes, eight to a block. Fragment f stands at byte 512 * f, and inode n of the first
/// group at 24 * 512 + 128 * n. The second group's inodes begin 8 fragments later than those of the first in their groups: inode 34
/// stands at (64 + 8 + 24) * 512 + 2 * 128.
const UFS1: &[Written] = &[
    // struct fs at 8,192: the first fragment of the inodes, the step and the mask of the groups' places
    (8208, &[24]),
    (8216, &[8, 0, 0, 0, 0xFE, 0xFF, 0xFF, 0xFF]),
    // the groups, the bytes of a block and of a fragment, the fragments of a block
    (8236, &[2, 0, 0, 0, 0, 16, 0, 0, 0, 2, 0, 0, 8]),
    // the pointers and the inodes of a block, the inodes and the fragments of a group, and the magic
    (8308, &[0, 4, 0, 0, 32]),
    (8376, &[32, 0, 0, 0, 64]),
    (9564, &[0x54, 0x19, 0x01]),
    // struct ufs1_dinode of inode 2: mode 040755, 512 bytes in fragment 40, and a second pointer of -1
    (12_544, &[0xED, 0x41]),
    (12_552, &[0, 2]),
    (12_584, &[40, 0, 0, 0, 0xFF, 0xFF, 0xFF, 0xFF]),
    // inode 3: mode 0100644, 5 bytes in fragment 42, modified in second 1
    (12_672, &[0xA4, 0x81]),
    (12_680, &[5]),
    (12_696, &[1]),
    (12_712, &[42]),
    // inode 4: mode 040755, 512 bytes in fragment 41
    (12_800, &[0xED, 0x41]),
    (12_808, &[0, 2]),
    (12_840, &[41]),
    // inode 34: a file, and its flags have SF_SNAPSHOT
    (49_409, &[0x80]),
    (49_510, &[0x20]),
    // the entries of the root: `.`, `..`, "z" of inode 3 and "dir" of inode 4
    (20_480, &[2, 0, 0, 0, 12, 0, 0, 1, b'.']),
    (20_492, &[2, 0, 0, 0, 12, 0, 0, 2, b'.', b'.']),
    (20_504, &[3, 0, 0, 0, 12, 0, 0, 1, b'z']),
    (20_516, &[4, 0, 0, 0, 0xDC, 1, 0, 3, b'd', b'i', b'r']),
    // the entry of "/dir": "b" of inode 3
    (20_992, &[3, 0, 0, 0, 0, 2, 0, 1, b'b']),
];

pub(crate) fn ufs1() -> [u8; 49_664] {
    with(UFS1)
}

/// 48 fragments of 4,096 bytes, eight to a block, whose inodes begin at fragment 20. Inode 3 has 393,217 bytes: all of its first
/// twelve blocks are that at fragment 24, and the first pointer of its block of pointers, at fragment 32, leads to fragment 40.
const UFS2: &[Written] = &[
    // struct fs at 65,536
    (65_552, &[20]),
    (65_580, &[1, 0, 0, 0, 0, 128, 0, 0, 0, 16, 0, 0, 8]),
    (65_652, &[0, 16, 0, 0, 128]),
    (65_720, &[128, 0, 0, 0, 48]),
    (66_908, &[0x19, 0x01, 0x54, 0x19]),
    // struct ufs2_dinode of inode 3, at 81,920 + 3 * 256: mode 0100644, owner 3, size 0x060001, born in second 6
    (82_688, &[0xA4, 0x81, 0, 0, 3]),
    (82_704, &[1, 0, 6]),
    (82_744, &[6]),
    (82_800, &[24, 0, 0, 0, 0, 0, 0, 0, 24, 0, 0, 0, 0, 0, 0, 0]),
    (82_816, &[24, 0, 0, 0, 0, 0, 0, 0, 24, 0, 0, 0, 0, 0, 0, 0]),
    (82_832, &[24, 0, 0, 0, 0, 0, 0, 0, 24, 0, 0, 0, 0, 0, 0, 0]),
    (82_848, &[24, 0, 0, 0, 0, 0, 0, 0, 24, 0, 0, 0, 0, 0, 0, 0]),
    (82_864, &[24, 0, 0, 0, 0, 0, 0, 0, 24, 0, 0, 0, 0, 0, 0, 0]),
    (82_880, &[24, 0, 0, 0, 0, 0, 0, 0, 24, 0, 0, 0, 0, 0, 0, 0]),
    (82_896, &[32]),
    (131_072, &[40]),
];

pub(crate) fn ufs2() -> [u8; 196_608] {
    with(UFS2)
}
