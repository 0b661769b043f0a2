//! The kinds that aren't read yet, by their magic.
ghost use Rattle.std.specs.Prelude.{◌≡◌, ◌+◌, ◌≤◌, length, IfOk, IfSome, is_some};
ghost use Rattle.bytes_defs.specs.Bytes.{part};
ghost use Rattle.disk_defs.specs.Count.{IsCountedIn};
ghost use Rattle.disk_defs.specs.Disk.{size_of, told_image};
ghost use Rattle.disk_defs.specs.declared.Area.TheVariants.{Image};
ghost use Rattle.tree_defs.specs.Kind as spec;
ghost use Rattle.tree_defs.specs.Kind.{other_kind};

use disk_defs::Fault;
use rx_store::{Area, Store};

/// The bytes of the image from a place on, a fixed number of them.
fn read_bytes<const N: usize, S: Store>(store: &mut S, at: u64) -> Result<[u8; N], Fault>
    requires { at + N ≤ size_of Image (S.state store.old) }
    ensures bytes { IfOk result (λ bytes. IfSome (told_image (S.state store.old)) (λ image. bytes ≡ part image at N)) }
    ensures len { IfOk result (λ bytes. length bytes ≡ N) }
    ensures same { S.state store.new ≡ S.state store.old }
    ensures counted { IsCountedIn Image result (S.faults store.old) (S.faults store.new) }
{
    let mut bytes = [0; N];
    store.read_at(Area::Image, at, &mut bytes)?;
    Ok(bytes)
}

/// Whether these bytes are the magic of NTFS.
fn is_ntfs(name: &[u8], mark: &[u8]) -> bool
    ensures { result ≡ spec.is_ntfs name.now mark.now }
{
    name == b"NTFS    ".as_slice() && mark == b"\x55\xAA".as_slice()
}

/// Whether these bytes are the magic of HFS+.
fn is_hfs(signature: &[u8]) -> bool
    ensures { result ≡ spec.is_hfs signature.now }
{
    signature == b"H+\x00\x04".as_slice() || signature == b"HX\x00\x05".as_slice()
}

/// Whether the image of `len` bytes has the magic of NTFS, which ends at byte 512.
fn has_ntfs<S: Store>(store: &mut S, len: u64) -> Result<bool, Fault>
    requires { len ≡ size_of Image (S.state store.old) }
    ensures told { IfOk result (λ fits. IfSome (told_image (S.state store.old)) (λ image. fits ≡ spec.is_ntfs (part image 3 8) (part image 510 2))) }
    ensures same { S.state store.new ≡ S.state store.old }
    ensures counted { IsCountedIn Image result (S.faults store.old) (S.faults store.new) }
{
    if len < 512 {
        return Ok(false);
    }
    let name: [u8; 8] = read_bytes(store, 3)?;
    let mark: [u8; 2] = read_bytes(store, 510)?;
    Ok(is_ntfs(&name, &mark))
}

/// Whether the image of `len` bytes has the magic of HFS+, which ends at byte 1,028.
fn has_hfs<S: Store>(store: &mut S, len: u64) -> Result<bool, Fault>
    requires { len ≡ size_of Image (S.state store.old) }
    ensures told { IfOk result (λ fits. IfSome (told_image (S.state store.old)) (λ image. fits ≡ spec.is_hfs (part image 1024 4))) }
    ensures same { S.state store.new ≡ S.state store.old }
    ensures counted { IsCountedIn Image result (S.faults store.old) (S.faults store.new) }
{
    if len < 1028 {
        return Ok(false);
    }
    let signature: [u8; 4] = read_bytes(store, 1024)?;
    Ok(is_hfs(&signature))
}

/// Whether the image of `len` bytes is of a kind that isn't read yet.
pub(crate) fn is_other_kind<S: Store>(store: &mut S, len: u64) -> Result<bool, Fault>
    requires { len ≡ size_of Image (S.state store.old) }
    ensures told { IfOk result (λ other. IfSome (told_image (S.state store.old)) (λ image. other ≡ is_some (other_kind image))) }
    ensures same { S.state store.new ≡ S.state store.old }
    ensures counted { IsCountedIn Image result (S.faults store.old) (S.faults store.new) }
{
    let ntfs = has_ntfs(store, len)?;
    let hfs = has_hfs(store, len)?;
    Ok(ntfs || hfs)
}
