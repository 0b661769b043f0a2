//! Bytes that are put where there is room for them.
ghost use Rattle.std.specs.Prelude.{◌≡◌, ◌+◌, ◌≤◌, ◌++◌, length, max, vec_len, vec_capacity};
ghost use Rattle.disk_defs.specs.Story.{overwritten};

/// Appends bytes for which there is room.
pub(crate) fn append(bytes: &mut Vec<u8>, piece: &[u8])
    requires { vec_len bytes.old + length piece.now ≤ vec_capacity bytes.old }
    ensures items { bytes.new.items ≡ bytes.old.items ++ piece.now }
    ensures len { vec_len bytes.new ≡ vec_len bytes.old + length piece.now }
    ensures capacity { vec_capacity bytes.old ≤ vec_capacity bytes.new }
{
    bytes.extend_from_slice(piece).unwrap();
}

/// Writes bytes over those from a place on.
#[tactic(auto, unfolding(disk_defs::specs::Story::overwritten))]
pub(crate) fn overwrite(bytes: &mut [u8], at: usize, piece: &[u8])
    requires { at + length piece.now ≤ length bytes.old }
    ensures { bytes.new ≡ overwritten bytes.old at piece.now }
{
    bytes[at..at + piece.len()].copy_from_slice(piece);
}

/// Writes bytes from a place on, over those that stand there and behind them.
pub(crate) fn write_from(bytes: &mut Vec<u8>, at: usize, piece: &[u8])
    requires begins { at ≤ vec_len bytes.old }
    requires room { at + length piece.now ≤ vec_capacity bytes.old }
    ensures items { bytes.new.items ≡ overwritten bytes.old.items at piece.now }
    ensures len { vec_len bytes.new ≡ max (vec_len bytes.old) (at + length piece.now) }
    ensures capacity { vec_capacity bytes.old ≤ vec_capacity bytes.new }
{
    let inside = piece.len().min(bytes.len() - at);
    append(bytes, &piece[inside..]);
    overwrite(bytes, at, piece);
}
