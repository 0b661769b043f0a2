//! Volumes as tables of bytes.

/// Bytes with their place.
pub(crate) type Written = (usize, &'static [u8]);

/// Puts bytes at a place, as far as there is room.
pub(crate) fn put(volume: &mut [u8], at: usize, bytes: &[u8]) {
    for (held, byte) in volume.iter_mut().skip(at).zip(bytes) {
        *held = *byte;
    }
}

/// Zeros, but for the bytes of a table.
pub(crate) fn with<const N: usize>(table: &[Written]) -> [u8; N] {
    let mut volume = [0; N];
    for (at, bytes) in table {
        put(&mut volume, *at, bytes);
    }
    volume
}
