//! Fields of slices: a slice that is read at places, with None for a field that passes its end.
//!
//! A `View` lends a slice. Each number call answers the slice's number at that place, lowest or highest byte first as its name
//! says, and None exactly where the field passes the slice's end.
//!
//!     let view = View::new(&[0x34, 0x12, 0xFF]);
//!     view.u16_le(0)      // Some(0x1234)
//!     view.u16_be(0)      // Some(0x3412)
//!     view.u16_le(2)      // None
#![tactic(auto)]

ghost use Rattle.std.specs.Prelude.{◌≡◌, ◌+◌, ◌<◌, ◌≤◌, ◌↔◌, length, slice_index, IsSome, IfSome};
ghost use Rattle.std.specs.Int.{w32, w64};
ghost use Rattle.std.specs.Option.{SomeIff};
ghost use Rattle.bytes_defs.specs.Bytes.{part};
ghost use Rattle.bytes_defs.specs.Numbers.{little_at, little_signed_at, big_at};

use bytes_defs::Order::{Big, Little};
use bytes_defs::{i32_at, i64_at, u16_at, u32_at, u64_at};
use std::marker::Model;

/// A borrowed slice of bytes whose fields are read at places.
#[derive(Debug, Drop)]
pub struct View<'a> {
    bytes: &'a [u8],
}

impl<'a> Model for View<'a> {
    ghost use Rattle.std.specs.Prelude.{List, ℕ};

    ghost Value = { List ℕ };

    ghost view = { λ v. v.bytes.now };
}

impl<'a> View<'a> {
    /// A view of these bytes.
    pub fn new(bytes: &'a [u8]) -> View<'a>
        ensures { result ≡ bytes.now }
    {
        View { bytes }
    }

    /// The `len` bytes at a place; None where they pass the end.
    #[tactic(auto, unfolding(bytes_defs::specs::Bytes::part))]
    pub fn part(&self, at: usize, len: usize) -> Option<&'a [u8]>
        ensures within { IsSome result ↔ (at + len ≤ length self.now) }
        ensures bytes { IfSome result (λ lent. lent.now ≡ part self.now at len) }
        ensures sized { IfSome result (λ lent. length lent.now ≡ len) }
    {
        self.bytes.get(at..)?.get(..len)
    }

    /// The byte at a place; None past the end.
    pub fn u8_at(&self, at: usize) -> Option<u8>
        ensures { SomeIff result (at < length self.now) (slice_index self.now at) }
    {
        self.bytes.get(at).copied()
    }

    /// The `u16` at a place, the lowest byte first; None where it passes the end.
    #[tactic(auto, using(bytes_defs::proofs::NumberLaws::own_fields))]
    pub fn u16_le(&self, at: usize) -> Option<u16>
        ensures { SomeIff result (at + 2 ≤ length self.now) (little_at 2 self.now at) }
    {
        Some(u16_at(Little, self.part(at, 2)?, 0))
    }

    /// The `u32` at a place, the lowest byte first; None where it passes the end.
    #[tactic(auto, using(bytes_defs::proofs::NumberLaws::own_fields))]
    pub fn u32_le(&self, at: usize) -> Option<u32>
        ensures { SomeIff result (at + 4 ≤ length self.now) (little_at 4 self.now at) }
    {
        Some(u32_at(Little, self.part(at, 4)?, 0))
    }

    /// The `u64` at a place, the lowest byte first; None where it passes the end.
    #[tactic(auto, using(bytes_defs::proofs::NumberLaws::own_fields))]
    pub fn u64_le(&self, at: usize) -> Option<u64>
        ensures { SomeIff result (at + 8 ≤ length self.now) (little_at 8 self.now at) }
    {
        Some(u64_at(Little, self.part(at, 8)?, 0))
    }

    /// The `i32` at a place, the lowest byte first; None where it passes the end.
    #[tactic(auto, using(bytes_defs::proofs::NumberLaws::own_fields))]
    pub fn i32_le(&self, at: usize) -> Option<i32>
        ensures { SomeIff result (at + 4 ≤ length self.now) (little_signed_at w32 self.now at) }
    {
        Some(i32_at(Little, self.part(at, 4)?, 0))
    }

    /// The `i64` at a place, the lowest byte first; None where it passes the end.
    #[tactic(auto, using(bytes_defs::proofs::NumberLaws::own_fields))]
    pub fn i64_le(&self, at: usize) -> Option<i64>
        ensures { SomeIff result (at + 8 ≤ length self.now) (little_signed_at w64 self.now at) }
    {
        Some(i64_at(Little, self.part(at, 8)?, 0))
    }

    /// The `u16` at a place, the highest byte first; None where it passes the end.
    #[tactic(auto, using(bytes_defs::proofs::NumberLaws::own_fields))]
    pub fn u16_be(&self, at: usize) -> Option<u16>
        ensures { SomeIff result (at + 2 ≤ length self.now) (big_at 2 self.now at) }
    {
        Some(u16_at(Big, self.part(at, 2)?, 0))
    }

    /// The `u32` at a place, the highest byte first; None where it passes the end.
    #[tactic(auto, using(bytes_defs::proofs::NumberLaws::own_fields))]
    pub fn u32_be(&self, at: usize) -> Option<u32>
        ensures { SomeIff result (at + 4 ≤ length self.now) (big_at 4 self.now at) }
    {
        Some(u32_at(Big, self.part(at, 4)?, 0))
    }

    /// The `u64` at a place, the highest byte first; None where it passes the end.
    #[tactic(auto, using(bytes_defs::proofs::NumberLaws::own_fields))]
    pub fn u64_be(&self, at: usize) -> Option<u64>
        ensures { SomeIff result (at + 8 ≤ length self.now) (big_at 8 self.now at) }
    {
        Some(u64_at(Big, self.part(at, 8)?, 0))
    }
}
