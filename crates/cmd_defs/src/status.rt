//! What a command answers.
ghost use Rattle.std.specs.Prelude.{◌≡◌};
ghost use Rattle.cmd_defs.specs.Status.{code_of};

use fault_defs::{Bound, Sort, What};

/// Why a plan is refused.
#[derive(Clone, Copy, Debug, PartialEq, Eq)]
pub enum PlanRefusal {
    /// It would fill this byte of the guard, the least one, by this rule.
    MeetsGuard(u64, u32),
}

/// Why a journal is refused.
#[derive(Clone, Copy, Debug, PartialEq, Eq)]
pub enum JournalRefusal {
    /// It doesn't stand open.
    NotOpen,
    /// It stands open, and this is the place of the first check that it fails.
    Bad(u64),
    /// It is that of an image of the first length, and the image has the second.
    OtherLength(u64, u64),
}

/// What a command answers.
#[derive(Clone, Copy, Debug, PartialEq, Eq)]
pub enum Status {
    /// It is done.
    Done,
    /// The words ask for no command.
    Usage,
    /// The image has no file system that is known.
    NotRecognised,
    /// The image is damaged: the sort, and the place in the image.
    Damaged(Sort, u64),
    /// The image has what isn't supported, at this place in the image.
    Unsupported(What, u64),
    /// The rules can't be carried out on the image.
    PlanRefused(PlanRefusal),
    /// The journal already holds a plan.
    JournalOpen,
    /// The journal holds no plan that can be used.
    JournalRefused(JournalRefusal),
    /// The image or the journal failed.
    DeviceFault,
    /// The rule text failed.
    SourceFault,
    /// The output failed.
    SinkFault,
    /// There is more of something than the limit, which this number is.
    Limit(Bound, u64),
    /// Memory ran out.
    NoMemory,
    /// The program can't do this yet.
    NotBuilt,
}

impl Status {
    /// The code with which the program ends.
    pub fn code(&self) -> u8
        ensures { result ≡ code_of self.now }
    {
        match self {
            Status::Done => 0,
            Status::Usage => 2,
            Status::NotRecognised => 3,
            Status::Damaged(_, _) => 4,
            Status::Unsupported(_, _) => 5,
            Status::PlanRefused(_) => 7,
            Status::JournalOpen => 8,
            Status::JournalRefused(_) => 9,
            Status::DeviceFault => 10,
            Status::SourceFault => 11,
            Status::SinkFault => 12,
            Status::Limit(_, _) => 13,
            Status::NoMemory => 14,
            Status::NotBuilt => 15,
        }
    }
}
