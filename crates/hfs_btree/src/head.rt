//! The header node of a tree file.
ghost use Rattle.std.specs.Prelude.{◌≡◌, ◌≤◌, IfOk, IfErr, IfSome};
ghost use Rattle.disk_defs.specs.Disk.{size_of, told_image};
ghost use Rattle.disk_defs.specs.declared.Area.TheVariants.{Image};
ghost use Rattle.hfs_btree.specs.Heads.{HasHead};
ghost use Rattle.hfs_btree.specs.Lent.{IsStartRefusal};
ghost use Rattle.hfs_defs.specs.Leaves.{tree_file};
ghost use Rattle.hfs_defs.specs.Nodes as spec;
ghost use Rattle.piece_defs.specs.Joined.{AreInARow};
ghost use Rattle.piece_defs.specs.Places.{bytes_through, AreWithin};
ghost use Rattle.rx_store.specs.ReadFaults.{IsReadCounted};

use bytes_defs::Order::Big;
use bytes_defs::{u16_at, u32_at};
use piece_reads::read_pieces;
use rx_ranges::Piece;
use rx_store::{ReadFault, Sort, Store};

/// What the header node says: the bytes of a node, and the first leaf node.
#[derive(Clone, Copy)]
pub(crate) struct Head {
    pub(crate) node_size: u16,
    pub(crate) first_leaf: u32,
}

/// Whether a tree file of `len` bytes may have nodes of this size.
#[tactic(auto, unfolding(hfs_defs::specs::Nodes::is_node_size))]
fn is_node_size(len: u64, size: u16) -> bool
    ensures is { result ≡ spec.is_node_size len size }
{
    size.is_power_of_two() && 512 <= size && size <= 32768 && u64::from(size) <= len
}

/// The header node of a tree file of `len` bytes in these pieces, whose fork data stand at a place.
pub(crate) fn read_head<S: Store>(
    store: &mut S,
    pieces: &[Piece],
    len: u64,
    fork_data: u64,
) -> Result<Head, ReadFault>
    requires within { AreWithin (size_of Image (S.state store.old)) pieces.now }
    requires covered { AreInARow 0 len pieces.now }
    ensures told { IfSome (told_image (S.state store.old)) (λ image. HasHead (tree_file (bytes_through image pieces.now) pieces.now fork_data) result) }
    ensures long { IfOk result (λ head. 512 ≤ head.node_size) }
    ensures short { IfOk result (λ head. head.node_size ≤ 65535) }
    ensures refusals { IfErr result (IsStartRefusal fork_data) }
    ensures same { S.state store.new ≡ S.state store.old }
    ensures counted { IsReadCounted Image result (S.faults store.old) (S.faults store.new) }
{
    if len < 512 {
        return Err(ReadFault::Damaged(Sort::TreeHeader, fork_data));
    }
    let mut bytes = [0; 34];
    read_pieces(store, pieces, len, 0, &mut bytes)?;
    let node_size = u16_at(Big, &bytes, 32);
    if !is_node_size(len, node_size) || bytes[8] != 1 {
        return Err(ReadFault::Damaged(Sort::TreeHeader, fork_data));
    }
    Ok(Head {
        node_size,
        first_leaf: u32_at(Big, &bytes, 24),
    })
}
