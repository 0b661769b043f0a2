//! What a journal holds.
ghost use Rattle.std.specs.Prelude.{◌≡◌, ◌≢◌, Ok, Err};
ghost use Rattle.std.specs.List.{list_all};
ghost use Rattle.journal_defs.specs.Form.{is_complete};
ghost use Rattle.journal_format.specs.declared.fault.JournalFault.TheVariants.{OtherLength};

use crate::fault::JournalFault;
use rx_ranges::{Items, Plan};

/// Marks, which are set or unset.
pub type Marks = Items<bool>;

/// The plan of a journal and its marks: one for each group of 64 ranges, and the last one.
#[derive(Debug, Drop)]
pub struct JournalState {
    pub plan: Plan,
    pub groups: Marks,
    pub last: bool,
}

/// Whether these marks are all set.
fn are_set(marks: &[bool]) -> bool
    ensures { result ≡ list_all (λ mark. mark) marks.now }
{
    marks.iter().all(|mark| *mark)
}

impl JournalState {
    /// Whether the journal is that of an image of this length.
    pub fn fits(&self, image_len: u64) -> Result<(), JournalFault>
        ensures same { self.now.plan.image_len ≡ image_len → result ≡ Ok tt }
        ensures other { self.now.plan.image_len ≢ image_len → result ≡ Err (OtherLength self.now.plan.image_len image_len) }
    {
        if self.plan.image_len == image_len {
            Ok(())
        } else {
            Err(JournalFault::OtherLength {
                kept: self.plan.image_len,
                found: image_len,
            })
        }
    }

    /// Whether all marks are set.
    pub fn complete(&self) -> bool
        ensures { result ≡ is_complete self.now.groups self.now.last }
    {
        are_set(self.groups.items()) && self.last
    }
}
