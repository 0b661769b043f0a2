//! A volume by the bytes of its boot sector.
ghost use Rattle.std.specs.Prelude.{◌≡◌, ◌+◌, ◌*◌, ◌<◌, ◌^◌, ◌&&◌, true, false, nat_lt, nat_le, length, MatchOption};
ghost use Rattle.ntfs_volume_defs.specs.Boot as spec;
ghost use Rattle.ntfs_volume_defs.specs.Boot.{is_one_of, size_of_record, sectors_in_cluster, record_size_of};
ghost use Rattle.ntfs_boot.specs.Sector.{sector_sizes, cluster_counts, record_sizes, placed_boot, sector_boot};

use bytes_defs::{Order, u16_at, u64_at};
use fault_defs::{Refusal, Sort, What};
use ntfs_volume_defs::Boot;

/// `NTFS` with its four blanks, and the two bytes that end a boot sector.
#[tactic(auto, unfolding(bytes_defs::specs::Bytes::part))]
fn is_boot_sector(bytes: &[u8]) -> bool
    requires { length bytes.now ≡ 512 }
    ensures { result ≡ spec.is_boot_sector bytes.now }
{
    &bytes[3..11] == b"NTFS    ".as_slice() && &bytes[510..512] == b"\x55\xAA".as_slice()
}

fn is_sector_size(bytes: u64) -> bool
    ensures { result ≡ is_one_of sector_sizes bytes }
{
    bytes == 512 || bytes == 1024 || bytes == 2048 || bytes == 4096
}

fn is_cluster_count(sectors: u64) -> bool
    ensures { result ≡ is_one_of cluster_counts sectors }
{
    sectors == 1
        || sectors == 2
        || sectors == 4
        || sectors == 8
        || sectors == 16
        || sectors == 32
        || sectors == 64
        || sectors == 128
}

fn is_record_size(bytes: u64) -> bool
    ensures { result ≡ is_one_of record_sizes bytes }
{
    bytes == 1024 || bytes == 4096
}

/// Whether there are sectors, and so many have place in a number of bytes.
fn is_total(len: u64, sector: u64, total: u64) -> bool
    requires { sector < 65536 }
    ensures { result ≡ (nat_lt 0 total && nat_le (total * sector) len) }
{
    total > 0 && u128::from(total) * u128::from(sector) <= u128::from(len)
}

/// The size of a file record, where it is one that is read: a positive number counts clusters, and a negative one is the
/// power of two.
fn record_size(cluster: u64, size: i8) -> Option<u64>
    requires { cluster < 2 ^ 32 }
    ensures { MatchOption result (is_one_of record_sizes (size_of_record cluster size) ≡ false) (λ found. found ≡ size_of_record cluster size × is_one_of record_sizes found ≡ true) }
{
    let bytes = if size >= 0 {
        u64::from(size.unsigned_abs()) * cluster
    } else {
        1 << u32::from(size.unsigned_abs()).min(63)
    };
    if is_record_size(bytes) {
        Some(bytes)
    } else {
        None
    }
}

/// The volume with a sound geometry, where it has sectors for it.
#[tactic(auto, unfolding(ntfs_volume_defs::specs::Boot::boot_of))]
fn placed(at: u64, len: u64, bytes: &[u8], record_size: u64) -> Result<Boot, Refusal>
    requires sector { length bytes.now ≡ 512 }
    requires place { at + 512 < 2 ^ 64 }
    requires sectors { is_one_of cluster_counts (sectors_in_cluster bytes.now) ≡ true }
    requires record { record_size ≡ record_size_of bytes.now }
    ensures { result ≡ placed_boot at len bytes.now }
{
    let sector = u64::from(u16_at(Order::Little, bytes, 0x0B));
    let sectors = u64::from(bytes[0x0D]);
    let total = u64_at(Order::Little, bytes, 0x28);
    if !is_total(len, sector, total) {
        return Err(Refusal::Damaged(Sort::BootField, at + 0x28));
    }
    let clusters = total / sectors;
    let mft_cluster = u64_at(Order::Little, bytes, 0x30);
    if mft_cluster >= clusters {
        return Err(Refusal::Damaged(Sort::BootField, at + 0x30));
    }
    Ok(Boot {
        at,
        len,
        cluster: sector * sectors,
        clusters,
        mft_cluster,
        record_size,
    })
}

/// The volume of `len` bytes from `at` on, by its boot sector.
#[tactic(auto, unfolding(crate::specs::Sector::sector_boot))]
pub(crate) fn boot_from(at: u64, len: u64, bytes: &[u8]) -> Result<Boot, Refusal>
    requires sector { length bytes.now ≡ 512 }
    requires place { at + 512 < 2 ^ 64 }
    ensures { result ≡ sector_boot at len bytes.now }
{
    if !is_boot_sector(bytes) {
        return Err(Refusal::NotThis);
    }
    let sector = u64::from(u16_at(Order::Little, bytes, 0x0B));
    if !is_sector_size(sector) {
        return Err(Refusal::Unsupported(What::BootGeometry, at + 0x0B));
    }
    let sectors = u64::from(bytes[0x0D]);
    if !is_cluster_count(sectors) {
        return Err(Refusal::Unsupported(What::BootGeometry, at + 0x0D));
    }
    match record_size(sector * sectors, bytes[0x40].cast_signed()) {
        Some(size) => placed(at, len, bytes, size),
        None => Err(Refusal::Unsupported(What::BootGeometry, at + 0x40)),
    }
}
