//! The way along the chain of leaf nodes.
ghost use Rattle.std.specs.Prelude.{◌≡◌, ◌<◌, ◌≤◌, true, length, IfOk, IfErr, IfSome};
ghost use Rattle.disk_defs.specs.Disk.{size_of, told_image};
ghost use Rattle.disk_defs.specs.declared.Area.TheVariants.{Image};
ghost use Rattle.hfs_btree.specs.Cursor.{file_on, IsEntered, IsNextRefusal};
ghost use Rattle.hfs_defs.specs.Leaves as leaves_spec;
ghost use Rattle.hfs_defs.specs.Nodes as nodes_spec;
ghost use Rattle.piece_defs.specs.Joined.{AreInARow};
ghost use Rattle.piece_defs.specs.Places.{AreWithin};
ghost use Rattle.rx_store.specs.ReadFaults.{IsReadCounted};

use crate::node::{is_leaf, is_sound_node};
use piece_reads::read_pieces;
use rx_ranges::{Piece, PieceKind};
use rx_store::{ReadFault, Sort, Store};

/// How the chain goes on: the place of the link that leads on, the node to which it leads, and how many more nodes may come.
#[derive(Clone, Copy)]
pub(crate) struct Way {
    pub(crate) link: u64,
    pub(crate) following: u32,
    pub(crate) left: u64,
}

/// The place in the image of a byte of a content of `len` bytes in these pieces; 0 in a hole and behind the end.
pub(crate) fn image_place(pieces: &[Piece], len: u64, byte: u64) -> u64
    requires covered { AreInARow 0 len pieces.now }
    requires reach { AreWithin 18446744073709551615 pieces.now }
    ensures { result ≡ leaves_spec.image_place pieces.now byte }
{
    for piece in pieces {
        if byte < piece.from + piece.len {
            return match piece.kind {
                PieceKind::Disk => piece.at + (byte - piece.from),
                PieceKind::Zero => 0,
            };
        }
    }
    0
}

/// Reads the node to which the way leads, tests it, and gives its place. The file has `len` bytes in these pieces.
pub(crate) fn read_leaf<S: Store>(
    store: &mut S,
    pieces: &[Piece],
    len: u64,
    fork_data: u64,
    way: Way,
    node: &mut [u8],
) -> Result<u64, ReadFault>
    requires within { AreWithin (size_of Image (S.state store.old)) pieces.now }
    requires covered { AreInARow 0 len pieces.now }
    requires reach { AreWithin 18446744073709551615 pieces.now }
    requires long { 512 ≤ length node.old }
    requires some { 0 < way.following }
    ensures told { IfSome (told_image (S.state store.old))
        (λ image. IsEntered (file_on image pieces.now fork_data (length node.old)) way.link way.following way.left result node.new) }
    ensures more { IfOk result (λ place. 0 < way.left) }
    ensures sound { IfOk result (λ place. nodes_spec.is_sound_node node.new ≡ true) }
    ensures refusals { IfErr result IsNextRefusal }
    ensures same { S.state store.new ≡ S.state store.old }
    ensures counted { IsReadCounted Image result (S.faults store.old) (S.faults store.new) }
{
    if way.left == 0 {
        return Err(ReadFault::Damaged(Sort::NodeLink, fork_data));
    }
    let bad_link = ReadFault::Damaged(Sort::NodeLink, way.link);
    let size = node.len() as u64;
    let number = u64::from(way.following);
    if number >= len / size {
        return Err(bad_link);
    }
    let begin = number * size;
    read_pieces(store, pieces, len, begin, node)?;
    if !is_leaf(node) {
        return Err(bad_link);
    }
    let place = image_place(pieces, len, begin);
    if !is_sound_node(node) {
        return Err(ReadFault::Damaged(Sort::NodeRecord, place));
    }
    Ok(place)
}
