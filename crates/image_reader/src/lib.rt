//! Reads the tree of an image.
//!
//! The places of the magics of NTFS and HFS+ are asked first, and an image of these kinds is refused, since it isn't read yet. An
//! image of more than 2^46 bytes is refused for its length. Any other one is read as the one UFS volume that it is, whose numbers
//! have the lowest byte first (FreeBSD's sys/ufs/ffs/fs.h). The answer is the tree that `tree_defs` says, or the refusal.
//!
//!     match read_image(alloc, &mut store) {
//!         Ok(tree) => ..,
//!         Err(ImageFault::OtherKind) => ..,   // NTFS or HFS+
//!         Err(ImageFault::Read(fault)) => ..,
//!     }
#![tactic(auto)]

ghost use Rattle.std.specs.Prelude.{◌≡◌, IfOk, IfSome};
ghost use Rattle.disk_defs.specs.Disk.{size_of, told_image};
ghost use Rattle.disk_defs.specs.declared.Area.TheVariants.{Image};
ghost use Rattle.image_reader.specs.Says.{IsImageCounted, TellsTree};

mod fault;
mod kind;

pub use fault::ImageFault;
use kind::is_other_kind;
use range_defs::LONGEST_IMAGE;
use rx_store::{Area, Bound, ReadFault, Store};
use rx_tree::Tree;
use std::alloc::Global;
use ufs_files::read_ufs;

/// The tree of the image.
pub fn read_image<S: Store>(alloc: Global, store: &mut S) -> Result<Tree, ImageFault>
    ensures told { IfSome (told_image (S.state store.old)) (λ image. TellsTree result image) }
    ensures sized { IfOk result (λ tree. tree.image_len ≡ size_of Image (S.state store.old)) }
    ensures same { S.state store.new ≡ S.state store.old }
    ensures counted { IsImageCounted result (S.faults store.old) (S.faults store.new) }
{
    let len = store.len(Area::Image)?;
    if is_other_kind(store, len)? {
        return Err(ImageFault::OtherKind);
    }
    if len > LONGEST_IMAGE {
        return Err(ImageFault::Read(ReadFault::Limit(Bound::Image, LONGEST_IMAGE)));
    }
    Ok(read_ufs(alloc, store, 0, len, 0)?)
}
