//! Reads the header of an HFS+ volume.
//!
//! It stands at byte 1,024 of the volume (TN1150, "Volume Header"). `read_header` answers its fields, or NotThis where signature
//! and version don't fit, or Damaged(HeaderField) at the size of a block, at the number of blocks, or at the signature of a
//! volume below 2,560 bytes. It takes no memory.
//!
//!     let header = read_header(&mut store, 0, len)?;
//!     header.block_size       // a power of two of at least 512
#![tactic(auto)]

ghost use Rattle.std.specs.Prelude.{◌≡◌, ◌≢◌, Err, ◌+◌, ◌≤◌, length, IfOk, IfErr, IfSome};
ghost use Rattle.bytes_defs.specs.Bytes.{part};
ghost use Rattle.disk_defs.specs.Count.{IsCountedIn};
ghost use Rattle.disk_defs.specs.Disk.{size_of, told_image};
ghost use Rattle.disk_defs.specs.declared.Area.TheVariants.{Image};
ghost use Rattle.hfs_defs.specs.Header as spec;
ghost use Rattle.hfs_defs.specs.Header.{header_of, wrong_field, volume_header, IsSoundHeader};
ghost use Rattle.hfs_header.specs.Refusals.{IsHeaderRefusal, TellsHeader};
ghost use Rattle.image_defs.specs.Ask.{result_of};
ghost use Rattle.rx_store.specs.Answers.{Answers};
ghost use Rattle.rx_store.specs.ReadFaults.{IsReadCounted};

use hfs_defs::Header;
use rx_store::{Area, Fault, ReadFault, Sort, Store};

/// The bytes of the image from a place on, a fixed number of them.
fn read_bytes<const N: usize, S: Store>(store: &mut S, at: u64) -> Result<[u8; N], Fault>
    requires { at + N ≤ size_of Image (S.state store.old) }
    ensures bytes { IfOk result (λ bytes. IfSome (told_image (S.state store.old)) (λ image. bytes ≡ part image at N)) }
    ensures len { IfOk result (λ bytes. length bytes ≡ N) }
    ensures same { S.state store.new ≡ S.state store.old }
    ensures counted { IsCountedIn Image result (S.faults store.old) (S.faults store.new) }
{
    let mut bytes = [0; N];
    store.read_at(Area::Image, at, &mut bytes)?;
    Ok(bytes)
}

/// Whether these bytes are the magic of HFS+.
fn is_magic(bytes: &[u8]) -> bool
    ensures { result ≡ spec.is_magic bytes.now }
{
    bytes == b"H+\x00\x04".as_slice() || bytes == b"HX\x00\x05".as_slice()
}

/// A header, where no field of it is wrong.
fn checked(header: Header) -> Result<Header, ReadFault>
    requires ends { header.at + header.len ≤ 18446744073709551615 }
    requires long { 2560 ≤ header.len }
    ensures answer { Answers result (spec.checked header (wrong_field header)) }
    ensures is { IfOk result (λ found. found ≡ header) }
    ensures calm { result ≢ Err ReadFault.Device }
    ensures sound { IfOk result IsSoundHeader }
    ensures refusals { IfErr result (IsHeaderRefusal header.at) }
{
    match header.wrong_field() {
        None => Ok(header),
        Some(place) => Err(ReadFault::Damaged(Sort::HeaderField, header.at + 1024 + place)),
    }
}

/// The header of the volume of `len` bytes at `at`, as the definitions give it.
#[tactic(auto, unfolding(hfs_defs::specs::Header::header_of))]
fn read_fields<S: Store>(store: &mut S, at: u64, len: u64) -> Result<Header, ReadFault>
    requires inside { at + len ≤ size_of Image (S.state store.old) }
    ensures told { IfSome (told_image (S.state store.old)) (λ image. Answers result (result_of image (volume_header at len))) }
    ensures sound { IfOk result IsSoundHeader }
    ensures begins { IfOk result (λ header. header.at ≡ at) }
    ensures long { IfOk result (λ header. header.len ≡ len) }
    ensures refusals { IfErr result (IsHeaderRefusal at) }
    ensures same { S.state store.new ≡ S.state store.old }
    ensures counted { IsReadCounted Image result (S.faults store.old) (S.faults store.new) }
{
    if len < 1028 {
        return Err(ReadFault::NotThis);
    }
    let magic = read_bytes::<4, S>(store, at + 1024)?;
    if !is_magic(&magic) {
        return Err(ReadFault::NotThis);
    }
    if len < 2560 {
        return Err(ReadFault::Damaged(Sort::HeaderField, at + 1024));
    }
    let bytes = read_bytes::<512, S>(store, at + 1024)?;
    checked(Header::from_bytes(at, len, &bytes))
}

/// The header of the volume of `len` bytes at `at`.
pub fn read_header<S: Store>(store: &mut S, at: u64, len: u64) -> Result<Header, ReadFault>
    requires inside { at + len ≤ size_of Image (S.state store.old) }
    ensures told { IfSome (told_image (S.state store.old)) (λ image. Answers result (result_of image (volume_header at len))) }
    ensures tells { IfSome (told_image (S.state store.old)) (λ image. TellsHeader image at len result) }
    ensures sound { IfOk result IsSoundHeader }
    ensures begins { IfOk result (λ header. header.at ≡ at) }
    ensures long { IfOk result (λ header. header.len ≡ len) }
    ensures refusals { IfErr result (IsHeaderRefusal at) }
    ensures same { S.state store.new ≡ S.state store.old }
    ensures counted { IsReadCounted Image result (S.faults store.old) (S.faults store.new) }
{
    read_fields(store, at, len)
}
