//! One step of a walk over the pointers of a stream.
ghost use Rattle.std.specs.Prelude.{◌≡◌, ◌+◌, ◌^◌, ◌<◌, ◌≤◌, ◌++◌, None, IfErr, IfOk, IfSome};
ghost use Rattle.range_defs.specs.declared.TheConstants.{LONGEST_IMAGE};
ghost use Rattle.rx_store.specs.Answers.{Answers};
ghost use Rattle.ufs_blocks.specs.UnderWay.{IsUnderWay, Settles, led_to};
ghost use Rattle.ufs_inode_defs.specs.Blocks as blocks_spec;
ghost use Rattle.ufs_inode_defs.specs.Blocks.{most_runs};
ghost use Rattle.ufs_inode_defs.specs.Stream as stream_spec;
ghost use Rattle.ufs_inode_defs.specs.Superblock.{wrong_field};

use crate::laid::{Laid, Pointer};
use piece_reads::put;
use range_defs::Range;
use rx_ranges::{Piece, PieceKind};
use rx_store::{Bound, ReadFault, Sort};
use std::alloc::AllocError;
use ufs_inode_defs::Super;
use ufs_super::{allocated_len, block_count, block_size, content_len, fragment_size};

/// The most runs of a volume.
pub(crate) const MOST_RUNS: u64 = 4_000_000;

/// A hole of some blocks.
pub(crate) fn with_hole(
    sup: &Super,
    size: u64,
    blocks: u64,
    mut laid: Laid,
) -> Result<Laid, ReadFault>
    requires sound { wrong_field sup.now ≡ None }
    requires near { sup.now.at + sup.now.len ≤ LONGEST_IMAGE }
    requires short { size ≤ 2 ^ 62 }
    requires few { blocks ≤ 4398046511104 }
    requires way { IsUnderWay sup.now size laid }
    requires inside { laid.block < stream_spec.block_count sup.now size }
    ensures value { IfOk result (λ after. after ≡ blocks_spec.with_hole sup.now size blocks laid) }
    ensures lean { IfErr result (λ fault. fault ≡ ReadFault.NoMemory) }
{
    let unit = block_size(sup);
    let from = laid.block * unit;
    let piece = Piece {
        from,
        len: (blocks * unit).min(size - from),
        kind: PieceKind::Zero,
        at: 0,
    };
    put(&mut laid.pieces, piece)?;
    laid.block += blocks;
    Ok(laid)
}

/// Keeps what a block has behind its content.
fn push_behind(slack: &mut Vec<Range>, at: u64, len: u64, allocated: u64) -> Result<(), AllocError>
    requires { at + allocated < 2 ^ 64 }
    ensures { IfOk result (λ _. slack.new.items ≡ slack.old.items ++ blocks_spec.behind at len allocated) }
{
    if len < allocated {
        slack.push(Range {
            at: at + len,
            len: allocated - len,
        })?;
    }
    Ok(())
}

/// A block that stands at a place.
#[tactic(auto, using(piece_reads::proofs::Putting::covered_fits))]
pub(crate) fn with_block(sup: &Super, size: u64, at: u64, mut laid: Laid) -> Result<Laid, ReadFault>
    requires sound { wrong_field sup.now ≡ None }
    requires near { sup.now.at + sup.now.len ≤ LONGEST_IMAGE }
    requires short { size ≤ 2 ^ 62 }
    requires stands { at + stream_spec.allocated_len sup.now size laid.block ≤ sup.now.at + sup.now.len }
    requires way { IsUnderWay sup.now size laid }
    requires inside { laid.block < stream_spec.block_count sup.now size }
    ensures value { IfOk result (λ after. after ≡ blocks_spec.with_block sup.now size at laid) }
    ensures lean { IfErr result (λ fault. fault ≡ ReadFault.NoMemory) }
{
    let len = content_len(sup, size, laid.block);
    let piece = Piece {
        from: laid.block * block_size(sup),
        len,
        kind: PieceKind::Disk,
        at,
    };
    put(&mut laid.pieces, piece)?;
    push_behind(
        &mut laid.slack,
        at,
        len,
        allocated_len(sup, size, laid.block),
    )?;
    laid.block += 1;
    Ok(laid)
}

/// What was found, where its runs are within their limit.
pub(crate) fn counted_runs(laid: Laid) -> Result<Laid, ReadFault>
    requires { laid.before ≤ most_runs }
    ensures settles { Settles result (blocks_spec.counted_runs laid) }
    ensures is { IfOk result (λ after. after ≡ laid) }
    ensures few { IfOk result (λ after. blocks_spec.runs_of after ≤ most_runs) }
    ensures calm { IfErr result (λ fault. fault ≡ ReadFault.Limit Bound.Runs most_runs) }
{
    let runs = (laid.before as u128) + (laid.pieces.len() as u128) + u128::from(laid.visited);
    if runs <= u128::from(MOST_RUNS) {
        Ok(laid)
    } else {
        Err(ReadFault::Limit(Bound::Runs, MOST_RUNS))
    }
}

/// A block of pointers that is visited.
pub(crate) fn with_visit(mut laid: Laid) -> Result<Laid, ReadFault>
    requires { blocks_spec.runs_of laid ≤ most_runs }
    ensures settles { Settles result (blocks_spec.counted_runs (blocks_spec.with_visit laid)) }
    ensures is { IfOk result (λ after. after ≡ blocks_spec.with_visit laid) }
    ensures few { IfOk result (λ after. blocks_spec.runs_of after ≤ most_runs) }
    ensures calm { IfErr result (λ fault. fault ≡ ReadFault.Limit Bound.Runs most_runs) }
{
    laid.visited += 1;
    counted_runs(laid)
}

/// Where a pointer leads: nowhere, as 0 stands for a hole, or to a place from which on `len` bytes lie in the volume.
pub(crate) fn led(sup: &Super, pointer: &Pointer, len: u64) -> Result<Option<u64>, ReadFault>
    requires sound { wrong_field sup.now ≡ None }
    requires near { sup.now.at + sup.now.len ≤ LONGEST_IMAGE }
    ensures leads { Answers result (led_to sup.now pointer.now len) }
    ensures within { IfOk result (λ place. IfSome place (λ at. at + len ≤ sup.now.at + sup.now.len)) }
    ensures calm { IfErr result (λ fault. fault ≡ ReadFault.Damaged Sort.BlockPointer pointer.now.at) }
{
    if pointer.value == 0 {
        return Ok(None);
    }
    let fragment = pointer.value.max(0) as u64;
    let place = u128::from(fragment) * u128::from(fragment_size(sup));
    if pointer.value < 0 || place + u128::from(len) > u128::from(sup.len) {
        return Err(ReadFault::Damaged(Sort::BlockPointer, pointer.at));
    }
    Ok(Some(sup.at + place as u64))
}
