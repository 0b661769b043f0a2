//! The bytes of a node.
ghost use Rattle.std.specs.Prelude.{◌≡◌, ◌+◌, ◌*◌, ◌<◌, ◌≤◌, length};
ghost use Rattle.hfs_defs.specs.Nodes as spec;

use bytes_defs::Order::Big;
use bytes_defs::{u16_at, u32_at};

/// Whether a node is a leaf.
pub(crate) fn is_leaf(node: &[u8]) -> bool
    requires { 512 ≤ length node.now }
    ensures { result ≡ spec.is_leaf node.now }
{
    node[8] == 255
}

/// The next node on its level.
pub(crate) fn next_node(node: &[u8]) -> u32
    requires { 512 ≤ length node.now }
    ensures { result ≡ spec.next_node node.now }
{
    u32_at(Big, node, 0)
}

/// How many records a node has.
pub(crate) fn record_count(node: &[u8]) -> u16
    requires { 512 ≤ length node.now }
    ensures { result ≡ spec.record_count node.now }
{
    u16_at(Big, node, 10)
}

/// The offset of a record, or of the free space behind the last.
pub(crate) fn record_offset(node: &[u8], i: usize) -> usize
    requires { 2 * (i + 1) ≤ length node.now }
    ensures value { result ≡ spec.record_offset node.now i }
    ensures short { result < 65536 }
{
    usize::from(u16_at(Big, node, node.len() - 2 * (i + 1)))
}

/// Whether a record stands between the descriptor and the table of offsets, and its key ends in it.
#[tactic(auto, unfolding(hfs_defs::specs::Nodes::is_record))]
fn is_record(node: &[u8], i: usize) -> bool
    requires below { i < spec.record_count node.now }
    requires room { 14 + 2 * (spec.record_count node.now + 1) ≤ length node.now }
    ensures { result ≡ spec.is_record node.now i }
{
    let begin = record_offset(node, i);
    let end = record_offset(node, i + 1);
    let table = node.len() - 2 * (usize::from(u16_at(Big, node, 10)) + 1);
    if begin < 14 || end < begin + 2 || table < end {
        return false;
    }
    begin + 2 + usize::from(u16_at(Big, node, begin)) <= end
}

/// Whether all records do.
fn are_records(node: &[u8]) -> bool
    requires { 14 + 2 * (spec.record_count node.now + 1) ≤ length node.now }
    ensures { result ≡ spec.are_records (spec.record_count node.now) node.now 0 }
{
    let count = usize::from(u16_at(Big, node, 10));
    for i in 0..count {
        if !is_record(node, i) {
            return false;
        }
    }
    true
}

/// Whether the records of a node are sound.
#[tactic(auto, unfolding(hfs_defs::specs::Nodes::is_sound_node))]
pub(crate) fn is_sound_node(node: &[u8]) -> bool
    requires { 512 ≤ length node.now }
    ensures { result ≡ spec.is_sound_node node.now }
{
    let count = usize::from(u16_at(Big, node, 10));
    if node.len() < 14 + 2 * (count + 1) {
        return false;
    }
    let free = record_offset(node, count);
    14 <= free && free <= node.len() - 2 * (count + 1) && are_records(node)
}
