//! Reads of an image that are kept, and what a step of a reader answers.
//!
//! A reader of a file system keeps the bytes at which it looks, as ranges: the guard of the tree is made of them. `look_at` reads
//! a range and keeps it; `keep` keeps one that was read before. What a step answers stands in `specs/Steps`: where the store
//! tells its image, a step answers what the program of the definitions gives, and has kept the bytes at which the program looks.
//!
//!     let mut bytes = [0; 512];
//!     look_at(&mut store, 1024, &mut bytes, &mut looked)?;
//!     look_at(&mut store, 1536, &mut bytes, &mut looked)?;
//!     // looked now ends with the range (1024, 1024)
#![tactic(auto)]

ghost use Rattle.std.specs.Prelude.{◌≡◌, ◌+◌, ◌≤◌, ◌∷◌, [], ◌++◌, length, OnOk, IfErr, IfOk, IfSome};
ghost use Rattle.bytes_defs.specs.Bytes.{part};
ghost use Rattle.disk_defs.specs.Disk.{size_of, told_image};
ghost use Rattle.disk_defs.specs.declared.Area.TheVariants.{Image};
ghost use Rattle.image_defs.specs.Ask.{look};
ghost use Rattle.image_defs.specs.Results.{with_value};
ghost use Rattle.image_reads.specs.Steps.{IsNoRefusal, KeptWithin, ReadsAs, SameBytes};
ghost use Rattle.rx_store.specs.ReadFaults.{IsReadCounted};

mod kept;

pub use kept::keep;
use range_defs::Range;
use rx_store::{Area, ReadFault, Store};
use std::alloc::Global;

/// Reads the bytes of the image from a place on into the whole buffer, and keeps their range.
pub fn look_at<S: Store>(
    store: &mut S,
    at: u64,
    buf: &mut [u8],
    looked: &mut Vec<Range>,
) -> Result<(), ReadFault>
    requires { at + length buf.old ≤ size_of Image (S.state store.old) }
    ensures bytes { OnOk result (IfSome (told_image (S.state store.old)) (λ image. buf.new ≡ part image at (length buf.old))) }
    ensures kept { OnOk result (SameBytes looked.new.items (looked.old.items ++ record { at = at; len = length buf.old } ∷ [])) }
    ensures kept_within { OnOk result (KeptWithin (at + length buf.old) looked.old.items looked.new.items) }
    ensures calm { IfErr result IsNoRefusal }
    ensures same { S.state store.new ≡ S.state store.old }
    ensures counted { IsReadCounted Image result (S.faults store.old) (S.faults store.new) }
{
    store.read_at(Area::Image, at, buf)?;
    let len = buf.len() as u64;
    keep(looked, Range { at, len })?;
    Ok(())
}

/// The `len` bytes of the image from a place on, whose range is kept.
pub fn bytes_at<S: Store>(
    alloc: Global,
    store: &mut S,
    at: u64,
    len: u64,
    looked: &mut Vec<Range>,
) -> Result<Vec<u8>, ReadFault>
    requires { at + len ≤ size_of Image (S.state store.old) }
    ensures reads { ReadsAs (told_image (S.state store.old)) (look at len) looked.old.items looked.new.items (with_value (λ bytes. bytes.items) result) }
    ensures long { IfOk result (λ bytes. length bytes.items ≡ len) }
    ensures kept_within { OnOk result (KeptWithin (at + len) looked.old.items looked.new.items) }
    ensures calm { IfErr result IsNoRefusal }
    ensures same { S.state store.new ≡ S.state store.old }
    ensures counted { IsReadCounted Image result (S.faults store.old) (S.faults store.new) }
{
    let mut bytes = vec![in alloc; 0; len as usize]?;
    look_at(store, at, &mut bytes, looked)?;
    Ok(bytes)
}
