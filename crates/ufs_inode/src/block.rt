//! The block of the inode table that was read last.
ghost use Rattle.std.specs.Prelude.{◌≡◌, true, ℕ, ◌+◌, ◌-◌, ◌≤◌, length, IfErr, IfOk, OnOk, List, Option};
ghost use Rattle.bytes_defs.specs.Bytes.{part};
ghost use Rattle.disk_defs.specs.Disk.{size_of, told_image};
ghost use Rattle.disk_defs.specs.declared.Area.TheVariants.{Image};
ghost use Rattle.image_reads.specs.Steps.{IsNoRefusal};
ghost use Rattle.rx_store.specs.ReadFaults.{IsReadCounted};
ghost use Rattle.ufs_inode.specs.Block.{HasRange, IsBlockOf};

use rx_store::{Area, ReadFault, Store};
use std::alloc::{AllocError, Global};

/// The most bytes of a block.
const LONGEST_BLOCK: usize = 65_536;

/// Bytes of the image that were read last, and their place. There are none at first.
#[derive(Debug, Drop)]
pub struct InodeBlock {
    pub at: u64,
    pub bytes: Vec<u8>,
}

impl InodeBlock {
    /// No bytes, and room for those of a block.
    #[tactic(auto, using(crate::proofs::KeptLaws::no_bytes))]
    pub fn new(alloc: Global) -> Result<InodeBlock, AllocError>
        ensures { IfOk result (λ block. (told : Option (List ℕ)) → IsBlockOf told block) }
    {
        Ok(InodeBlock {
            at: 0,
            bytes: Vec::with_capacity(alloc, LONGEST_BLOCK)?,
        })
    }

    /// Whether a range is among the bytes.
    pub(crate) fn has(&self, at: u64, len: u64) -> bool
        ensures { result ≡ true → HasRange self.now at len }
    {
        let kept = self.bytes.len() as u64;
        self.at <= at && len <= kept && at - self.at <= kept - len
    }

    /// The bytes of a range that is among them.
    #[tactic(auto, unfolding(bytes_defs::specs::Bytes::part))]
    pub(crate) fn range(&self, at: u64, len: usize) -> &[u8]
        requires { HasRange self.now at len }
        ensures bytes { result.now ≡ part self.now.bytes.items (at - self.now.at) len }
        ensures long { length result.now ≡ len }
    {
        let begin = (at - self.at) as usize;
        &self.bytes[begin..begin + len]
    }

    /// Reads a range in place of the bytes that are kept, which are written over: a block of the same length isn't cleared first.
    #[tactic(auto, using(crate::proofs::KeptLaws::no_bytes))]
    pub(crate) fn read<S: Store>(
        &mut self,
        store: &mut S,
        at: u64,
        len: usize,
    ) -> Result<(), ReadFault>
        requires inside { at + len ≤ size_of Image (S.state store.old) }
        requires block { IsBlockOf (told_image (S.state store.old)) self.old }
        ensures block { IsBlockOf (told_image (S.state store.new)) self.new }
        ensures calm { IfErr result IsNoRefusal }
        ensures begins { OnOk result (self.new.at ≡ at) }
        ensures long { OnOk result (length self.new.bytes.items ≡ len) }
        ensures same { S.state store.new ≡ S.state store.old }
        ensures counted { IsReadCounted Image result (S.faults store.old) (S.faults store.new) }
    {
        self.bytes.resize(len, 0)?;
        self.at = at;
        match store.read_at(Area::Image, at, &mut self.bytes) {
            Ok(()) => Ok(()),
            Err(fault) => {
                self.bytes.clear();
                Err(ReadFault::from(fault))
            }
        }
    }
}
