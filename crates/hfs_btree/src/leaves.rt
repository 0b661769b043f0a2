//! The leaf records, one at a time.
ghost use Rattle.std.specs.Prelude.{◌≡◌, ◌+◌, ◌*◌, ◌<◌, ◌≤◌, true, length, IfOk, IfErr, IfSome, OnOk};
ghost use Rattle.disk_defs.specs.Disk.{size_of, told_image};
ghost use Rattle.disk_defs.specs.declared.Area.TheVariants.{Image};
ghost use Rattle.hfs_btree.specs.Cursor as cursor_spec;
ghost use Rattle.hfs_btree.specs.Cursor.{rest_of, steps_left, Enters, Advances, Steps, KeepsFile, FallsAt, IsNextRefusal};
ghost use Rattle.hfs_btree.specs.Lent.{leaf, IsLent, Starts, IsStartRefusal, IsNext, HasKeyLength};
ghost use Rattle.hfs_defs.specs.Leaves.{leaf_of, tree_file};
ghost use Rattle.hfs_defs.specs.Nodes as nodes_spec;
ghost use Rattle.piece_defs.specs.Joined.{AreInARow};
ghost use Rattle.piece_defs.specs.Places.{bytes_through, AreWithin};
ghost use Rattle.rx_store.specs.ReadFaults.{IsReadCounted};

use crate::head::read_head;
use crate::node::{next_node, record_count, record_offset};
use crate::way::{Way, image_place, read_leaf};
use rx_ranges::{Piece, Pieces};
use rx_store::{ReadFault, Store};
use std::alloc::Global;
use std::marker::Model;

/// A leaf record: its node, its number there, the place of its first byte in the image, and its bytes.
#[derive(Drop)]
pub struct LeafRecord<'a> {
    pub node: u32,
    pub index: u16,
    pub at: u64,
    pub bytes: &'a [u8],
}

/// Where one stands among the leaf records of a tree file: behind record `index` of the `count` in the node that was read
/// last, or, where that has no more, in front of the node that follows. It has one node's bytes in memory.
#[derive(Drop)]
pub struct Leaves {
    pieces: Pieces,
    len: u64,
    fork_data: u64,
    node: Vec<u8>,
    number: u32,
    count: u16,
    index: u16,
    stands: bool,
    way: Way,
}

impl Model for Leaves {
    ghost use Rattle.std.specs.Prelude.{length, ◌-◌};
    ghost use Rattle.hfs_defs.specs.Leaves.{leaves_from};
    ghost use Rattle.hfs_btree.specs.Cursor.{Cursor, current_of};
    ghost use Rattle.hfs_btree.specs.Kept.{IsKept};

    ghost Value = { Cursor };

    ghost view = { λ l. record {
      pieces = l.pieces;
      len = l.len;
      fork_data = l.fork_data;
      node_size = length l.node.items;
      current = current_of l.stands l.pieces l.number l.node.items l.index;
      pending = leaves_from (l.count - l.index) l.pieces l.number l.node.items l.index;
      link = l.way.link;
      next = l.way.following;
      left = l.way.left;
    } };

    ghost invariant = { λ l. IsKept l.pieces l.len l.node.items l.count l.index l.stands };
}

/// The record of a node at an index.
#[tactic(auto, unfolding(hfs_defs::specs::Nodes::is_record, bytes_defs::specs::Bytes::part))]
fn record_of<'a>(
    pieces: &[Piece],
    len: u64,
    number: u32,
    node: &'a [u8],
    index: u16,
) -> LeafRecord<'a>
    requires covered { AreInARow 0 len pieces.now }
    requires reach { AreWithin 18446744073709551615 pieces.now }
    requires long { 512 ≤ length node.now }
    requires short { length node.now ≤ 65535 }
    requires room { 2 * (index + 2) ≤ length node.now }
    requires record { nodes_spec.is_record node.now index ≡ true }
    ensures is { leaf result ≡ leaf_of pieces.now number node.now index }
    ensures sized { 2 ≤ length result.bytes.now }
{
    let i = usize::from(index);
    let begin = record_offset(node, i);
    let end = record_offset(node, i + 1);
    LeafRecord {
        node: number,
        index,
        at: image_place(
            pieces,
            len,
            u64::from(number) * node.len() as u64 + begin as u64,
        ),
        bytes: &node[begin..end],
    }
}

impl Leaves {
    ghost use Rattle.std.specs.Borrow.{sem};
    ghost use Rattle.std.specs.Io.BufRead.{Rests};
    ghost use Rattle.hfs_btree.specs.contracts.leaves.Leaves.{the_row};
    ghost use Rattle.hfs_btree.specs.Lent.{Falls, IsBehind};

    /// Whether the chain goes on and the node has no more records.
    fn must_enter(&self) -> bool
        ensures { result ≡ cursor_spec.must_enter self.now.pending self.now.next }
    {
        self.index == self.count && self.way.following != 0
    }

    /// Reads the node that follows.
    fn enter<S: Store>(&mut self, store: &mut S) -> Result<(), ReadFault>
        requires within { AreWithin (size_of Image (S.state store.old)) self.old.pieces }
        requires enters { cursor_spec.must_enter self.old.pending self.old.next ≡ true }
        ensures told { IfSome (told_image (S.state store.old)) (λ image. Enters (rest_of image self.old) result (rest_of image self.new)) }
        ensures keeps { KeepsFile self.old self.new }
        ensures falls { OnOk result (steps_left self.new < steps_left self.old) }
        ensures refusals { IfErr result IsNextRefusal }
        ensures same { S.state store.new ≡ S.state store.old }
        ensures counted { IsReadCounted Image result (S.faults store.old) (S.faults store.new) }
    {
        self.stands = false;
        let place = read_leaf(
            store,
            self.pieces.items(),
            self.len,
            self.fork_data,
            self.way,
            &mut self.node,
        )?;
        self.number = self.way.following;
        self.count = record_count(&self.node);
        self.index = 0;
        self.way = Way {
            link: place,
            following: next_node(&self.node),
            left: self.way.left - 1,
        };
        Ok(())
    }

    /// Goes to the next record of the node, if it has one.
    fn step(&mut self)
        ensures steps { Steps self.old.pending self.new.current self.new.pending }
        ensures keeps { KeepsFile self.old self.new }
        ensures link { self.new.link ≡ self.old.link }
        ensures following { self.new.next ≡ self.old.next }
        ensures left { self.new.left ≡ self.old.left }
    {
        self.stands = self.index < self.count;
        if self.stands {
            self.index += 1;
        }
    }

    /// Goes to the next record of the chain, if it has one.
    fn advance<S: Store>(&mut self, store: &mut S) -> Result<(), ReadFault>
        requires within { AreWithin (size_of Image (S.state store.old)) self.old.pieces }
        ensures told { IfSome (told_image (S.state store.old)) (λ image. Advances (rest_of image self.old) result self.new.current (rest_of image self.new)) }
        ensures keeps { KeepsFile self.old self.new }
        ensures falls { OnOk result (FallsAt self.new.current (steps_left self.old) (steps_left self.new)) }
        ensures refusals { IfErr result IsNextRefusal }
        ensures same { S.state store.new ≡ S.state store.old }
        ensures counted { IsReadCounted Image result (S.faults store.old) (S.faults store.new) }
    {
        'entering: while self.must_enter() {
            self.enter(store)?;
        }
        self.step();
        Ok(())
    }

    /// The record at which it stands.
    fn current(&self) -> Option<LeafRecord<'_>>
        ensures lent { IsLent self.now.current result }
        ensures sized { HasKeyLength result }
    {
        if self.stands {
            Some(record_of(
                self.pieces.items(),
                self.len,
                self.number,
                &self.node,
                self.index - 1,
            ))
        } else {
            None
        }
    }

    /// The next leaf record, or none at the end of the chain. It takes no memory. After a fault it stands where it stood.
    pub fn next<S: Store>(&mut self, store: &mut S) -> Result<Option<LeafRecord<'_>>, ReadFault>
        requires within { AreWithin (size_of Image (S.state store.old)) self.old.pieces }
        ensures told { IfSome (told_image (S.state store.old)) (λ image. IsNext (rest_of image self.old) result) }
        ensures sized { IfOk result HasKeyLength }
        ensures refusals { IfErr result IsNextRefusal }
        ensures same { S.state store.new ≡ S.state store.old }
        ensures counted { IsReadCounted Image result (S.faults store.old) (S.faults store.new) }
        ensures* after { sem 𝓛 (Rests the_row self.entry (λ new. Falls self.old result new × KeepsFile self.old new
            × IfSome (told_image (S.state store.old)) (λ image. IsBehind (rest_of image self.old) result (rest_of image new)))) }
    {
        self.advance(store)?;
        Ok(self.current())
    }

    /// Stands in front of the first leaf record of the tree file of `size` bytes in these pieces, whose fork data stand at
    /// `place`. It takes memory for one node.
    pub fn start<S: Store>(
        alloc: Global,
        store: &mut S,
        pieces: Pieces,
        size: u64,
        place: u64,
    ) -> Result<Leaves, ReadFault>
        requires within { AreWithin (size_of Image (S.state store.old)) pieces }
        requires covered { AreInARow 0 size pieces }
        ensures told { IfSome (told_image (S.state store.old)) (λ image. Starts image (tree_file (bytes_through image pieces) pieces place) result) }
        ensures refusals { IfErr result (IsStartRefusal place) }
        ensures pieces { IfOk result (λ leaves. leaves.pieces ≡ pieces) }
        ensures size { IfOk result (λ leaves. leaves.len ≡ size) }
        ensures place { IfOk result (λ leaves. leaves.fork_data ≡ place) }
        ensures same { S.state store.new ≡ S.state store.old }
        ensures counted { IsReadCounted Image result (S.faults store.old) (S.faults store.new) }
    {
        let head = read_head(store, pieces.items(), size, place)?;
        let node = vec![in alloc; 0; usize::from(head.node_size)]?;
        let link = image_place(pieces.items(), size, 24);
        Ok(Leaves {
            pieces,
            len: size,
            fork_data: place,
            node,
            number: 0,
            count: 0,
            index: 0,
            stands: false,
            way: Way {
                link,
                following: head.first_leaf,
                left: size / u64::from(head.node_size),
            },
        })
    }
}
