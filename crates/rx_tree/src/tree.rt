//! The tree of an image.
use crate::file::Files;
use crate::volume::Volumes;
use rx_ranges::RangeList;
use std::marker::Model;

/// All that an image of `image_len` bytes says: its volumes, the bytes of partitions that aren't read, its files, and
/// the guard, which is the bytes on which all this rests. The image has at most 2^46 bytes, and everything lies in it.
/// Each file is in one of the volumes. The files have together at most 1,000,000 names, whose paths have at most 2^30 bytes.
#[derive(Debug, Drop)]
pub struct Tree {
    pub image_len: u64,
    pub volumes: Volumes,
    pub unread: RangeList,
    pub files: Files,
    pub guard: RangeList,
}

impl Model for Tree {
    ghost use Rattle.rx_tree.specs.TreeValue.{TreeValue};
    ghost use Rattle.rx_tree.specs.Within.{IsWithin};
    ghost use Rattle.std.specs.Prelude.{IsTrue};
    ghost use Rattle.rx_tree.specs.Order.{AreInVolumes};
    ghost use Rattle.rx_tree.specs.NameLimits.{has_few_names};

    ghost Value = { TreeValue };

    ghost view = { λ t. record {
      image_len = t.image_len;
      volumes = t.volumes;
      unread = t.unread;
      files = t.files;
      guard = t.guard;
    } };

    ghost invariant = { λ t. IsWithin (record {
      image_len = t.image_len;
      volumes = t.volumes;
      unread = t.unread;
      files = t.files;
      guard = t.guard;
    }) × AreInVolumes t.volumes t.files × IsTrue (has_few_names t.files) };
}
