//! The bytes of a range, and the numbers in them.
//!
//! A number stands in two, four or eight bytes of a structure on the disk, with the lowest byte first (`Order::Little`, in NTFS
//! and in UFS as FreeBSD makes it) or the highest first (`Order::Big`, in HFS+). Contracts say `number_at order n bytes at`
//! and, for two's complement, `signed_at`; `u16_at` and the others read such a number with `byteorder`.
//!
//!     use bytes_defs::{Order, u32_at};
//!
//!     // the four bytes at place 44 of a UFS superblock: how many cylinder groups there are
//!     let groups = u32_at(Order::Little, superblock, 44);
#![tactic(auto)]

mod field;
mod order;

pub use field::{i32_at, i64_at, u16_at, u32_at, u64_at};
pub use order::Order;
