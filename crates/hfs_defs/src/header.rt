//! The volume header: TN1150, "Volume Header".
ghost use Rattle.std.specs.Prelude.{◌≡◌, ◌⊎◌, ◌+◌, ◌≤◌, IfSome, length};

use crate::forks::{Extent, Fork};
use bytes_defs::Order::Big;
use bytes_defs::{u16_at, u32_at, u64_at};

/// A volume of `len` bytes from byte `at` of the image on, and the fields of its header that are read.
#[derive(Clone, Copy, Debug, PartialEq, Eq)]
pub struct Header {
    pub at: u64,
    pub len: u64,
    pub signature: u16,
    pub version: u16,
    /// The bytes of a block.
    pub block_size: u32,
    /// The blocks of the volume.
    pub total_blocks: u32,
    pub allocation: Fork,
    pub extents: Fork,
    pub catalog: Fork,
    pub attributes: Fork,
    pub startup: Fork,
}

impl Extent {
    ghost use Rattle.hfs_defs.specs.Header.{extent_of};

    /// The extent at a place.
    pub fn from_bytes(bytes: &[u8], at: usize) -> Self
        requires { at + 8 ≤ length bytes.now }
        ensures { result ≡ extent_of bytes.now at }
    {
        Extent {
            start: u32_at(Big, bytes, at),
            count: u32_at(Big, bytes, at + 4),
        }
    }
}

impl Fork {
    ghost use Rattle.hfs_defs.specs.Header.{fork_of};

    /// The fork data at a place.
    #[tactic(auto, unfolding(crate::specs::Header::fork_of))]
    pub fn from_bytes(bytes: &[u8], at: usize) -> Self
        requires { at + 80 ≤ length bytes.now }
        ensures { result ≡ fork_of bytes.now at }
    {
        Fork {
            logical_size: u64_at(Big, bytes, at),
            total_blocks: u32_at(Big, bytes, at + 12),
            extents: [
                Extent::from_bytes(bytes, at + 16),
                Extent::from_bytes(bytes, at + 24),
                Extent::from_bytes(bytes, at + 32),
                Extent::from_bytes(bytes, at + 40),
                Extent::from_bytes(bytes, at + 48),
                Extent::from_bytes(bytes, at + 56),
                Extent::from_bytes(bytes, at + 64),
                Extent::from_bytes(bytes, at + 72),
            ],
        }
    }
}

impl Header {
    ghost use Rattle.hfs_defs.specs.Header as spec;
    ghost use Rattle.hfs_defs.specs.Header.{header_of};

    /// The header of a volume that these bytes hold.
    #[tactic(auto, unfolding(crate::specs::Header::header_of))]
    pub fn from_bytes(at: u64, len: u64, bytes: &[u8]) -> Self
        requires { length bytes.now ≡ 512 }
        ensures { result ≡ header_of at len bytes.now }
    {
        Header {
            at,
            len,
            signature: u16_at(Big, bytes, 0),
            version: u16_at(Big, bytes, 2),
            block_size: u32_at(Big, bytes, 40),
            total_blocks: u32_at(Big, bytes, 44),
            allocation: Fork::from_bytes(bytes, 112),
            extents: Fork::from_bytes(bytes, 192),
            catalog: Fork::from_bytes(bytes, 272),
            attributes: Fork::from_bytes(bytes, 352),
            startup: Fork::from_bytes(bytes, 432),
        }
    }

    /// The place in the header of the field that is wrong, if one is.
    #[tactic(auto, unfolding(crate::specs::Header::wrong_field, crate::specs::Header::is_block_size))]
    pub fn wrong_field(&self) -> Option<u64>
        ensures place { result ≡ spec.wrong_field self.now }
        ensures named { IfSome result (λ place. (place ≡ 40) ⊎ (place ≡ 44)) }
    {
        if !self.block_size.is_power_of_two() || self.block_size < 512 {
            return Some(40);
        }
        (u64::from(self.total_blocks) * u64::from(self.block_size) > self.len).then_some(44)
    }
}
