//! Why there is no tree of an image.
ghost use Rattle.std.specs.Prelude.{◌≡◌};
ghost use Rattle.rx_store.specs.declared.read_fault.ReadFault.TheVariants.{Device};
ghost use Rattle.image_reader.specs.declared.fault.ImageFault.TheVariants.{Read};

use disk_defs::Fault;
use rx_store::ReadFault;

/// Why there is no tree of an image.
#[derive(Clone, Copy, Debug, PartialEq, Eq)]
pub enum ImageFault {
    /// It is of a kind that isn't read yet: NTFS or HFS+.
    OtherKind,
    /// It couldn't be read.
    Read(ReadFault),
}

impl From<Fault> for ImageFault {
    ghost from_gives = { λ _ fault. fault ≡ Read Device };

    fn from(_fault: Fault) -> ImageFault {
        ImageFault::Read(ReadFault::Device)
    }
}

impl From<ReadFault> for ImageFault {
    ghost from_gives = { λ read fault. fault ≡ Read read };

    fn from(fault: ReadFault) -> ImageFault {
        ImageFault::Read(fault)
    }
}
