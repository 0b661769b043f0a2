//! The attributes of a record, one at a time.
ghost use Rattle.std.specs.Prelude.{◌≡◌, ◌≤◌, length};
ghost use Rattle.std.specs.Iterator.{YieldsFirst, item_count};
ghost use Rattle.ntfs_record_defs.specs.Record.{header_of};
ghost use Rattle.ntfs_record_defs.specs.Lent.{lent_attributes, IsMended};
ghost use Rattle.ntfs_record.specs.Mending.{attributes_check};

use crate::attr::Attr;
use crate::walk::next_attribute;
use bytes_defs::{Order, u16_at, u32_at};
use ntfs_record_defs::RecordFault;
use std::marker::Model;

/// The attributes of a record that are left.
#[derive(Debug, Drop)]
pub struct Attrs<'a> {
    bytes: &'a [u8],
    at: usize,
}

impl<'a> Model for Attrs<'a> {
    ghost use Rattle.std.specs.Prelude.{List};
    ghost use Rattle.ntfs_record_defs.specs.Lent.{Lent, lent_from};
    ghost use Rattle.ntfs_record.specs.Mending.{IsWalk};

    ghost Value = { List Lent };

    ghost view = { λ a. lent_from a.bytes.now a.at };

    ghost invariant = { λ a. IsWalk a.bytes.now a.at };
}

impl<'a> Attrs<'a> {
    /// The attributes of a record.
    #[tactic(auto, unfolding(ntfs_record_defs::specs::Record::header_of))]
    pub(crate) fn new(bytes: &'a [u8]) -> Attrs<'a>
        requires { IsMended bytes.now }
        ensures { result ≡ lent_attributes bytes.now }
    {
        Attrs {
            bytes,
            at: usize::from(u16_at(Order::Little, bytes, 20)),
        }
    }
}

impl<'a> Iterator for Attrs<'a> {
    type Item = Attr<'a>;

    ghost next_gives = { YieldsFirst (λ attrs. attrs) };

    ghost remaining = { item_count (λ attrs. attrs) };

    #[tactic(auto, unfolding(ntfs_record_defs::specs::Record::header_of))]
    fn next(&mut self) -> Option<Attr<'a>> {
        let used = u32_at(Order::Little, self.bytes, 24) as usize;
        match next_attribute(self.bytes, used, self.at) {
            Ok(Some(attribute)) => {
                self.at += u32_at(Order::Little, self.bytes, self.at + 4) as usize;
                Some(attribute)
            }
            Ok(None) => None,
            Err(_) => None,
        }
    }
}

/// Each attribute of a record whose true bytes stand in place has to be sound, up to the mark that ends them.
#[tactic(auto, unfolding(ntfs_record_defs::specs::Record::header_of))]
pub(crate) fn check_attributes(bytes: &[u8]) -> Result<(), RecordFault>
    requires size { 1024 ≤ length bytes.now }
    requires inside { (header_of bytes.now).used ≤ length bytes.now }
    requires before { (header_of bytes.now).first ≤ (header_of bytes.now).used }
    ensures { result ≡ attributes_check bytes.now }
{
    let used = u32_at(Order::Little, bytes, 24) as usize;
    let mut at = usize::from(u16_at(Order::Little, bytes, 20));
    'attributes: loop {
        match next_attribute(bytes, used, at) {
            Ok(Some(_)) => at += u32_at(Order::Little, bytes, at + 4) as usize,
            Ok(None) => return Ok(()),
            Err(fault) => return Err(fault),
        }
    }
}
