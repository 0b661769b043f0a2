//! Numbers at places of a slice of bytes.
#![tactic(auto, using(crate::proofs::NumberLaws::field_reads))]

ghost use Rattle.std.specs.Prelude.{◌≡◌, ◌+◌, ◌≤◌, length};
ghost use Rattle.std.specs.Int.{w32, w64};
ghost use Rattle.bytes_defs.specs.Numbers.{number_at, signed_at};

use crate::order::Order;
use byteorder::{BigEndian, ByteOrder, LittleEndian};

/// The `u16` at a place.
pub fn u16_at(order: Order, bytes: &[u8], at: usize) -> u16
    requires { at + 2 ≤ length bytes.now }
    ensures { result ≡ number_at order 2 bytes.now at }
{
    match order {
        Order::Little => LittleEndian::read_u16(&bytes[at..]),
        Order::Big => BigEndian::read_u16(&bytes[at..]),
    }
}

/// The `u32` at a place.
pub fn u32_at(order: Order, bytes: &[u8], at: usize) -> u32
    requires { at + 4 ≤ length bytes.now }
    ensures { result ≡ number_at order 4 bytes.now at }
{
    match order {
        Order::Little => LittleEndian::read_u32(&bytes[at..]),
        Order::Big => BigEndian::read_u32(&bytes[at..]),
    }
}

/// The `u64` at a place.
pub fn u64_at(order: Order, bytes: &[u8], at: usize) -> u64
    requires { at + 8 ≤ length bytes.now }
    ensures { result ≡ number_at order 8 bytes.now at }
{
    match order {
        Order::Little => LittleEndian::read_u64(&bytes[at..]),
        Order::Big => BigEndian::read_u64(&bytes[at..]),
    }
}

/// The `i32` at a place.
pub fn i32_at(order: Order, bytes: &[u8], at: usize) -> i32
    requires { at + 4 ≤ length bytes.now }
    ensures { result ≡ signed_at order w32 bytes.now at }
{
    u32_at(order, bytes, at).cast_signed()
}

/// The `i64` at a place.
pub fn i64_at(order: Order, bytes: &[u8], at: usize) -> i64
    requires { at + 8 ≤ length bytes.now }
    ensures { result ≡ signed_at order w64 bytes.now at }
{
    u64_at(order, bytes, at).cast_signed()
}
