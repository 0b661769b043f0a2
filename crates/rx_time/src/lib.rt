//! Moments of the file systems, in seconds from 1970-01-01 UTC on.
//!
//! NTFS counts 100 ns from 1601-01-01 (FILETIME), UFS seconds from 1970-01-01, and HFS+ seconds from 1904-01-01 (TN1150, "HFS
//! Plus Dates"), where 0 stands for no moment. A `Moment` has whole seconds, rounded down, also in front of 1970.
//!
//!     Moment::from_filetime(116_444_736_000_000_000)      // second 0
//!     Moment::from_filetime(116_444_735_999_999_999)      // second -1
//!     Moment::from_hfs(2_082_844_800)                     // Some, second 0
//!     Moment::from_hfs(0)                                 // None
#![tactic(auto)]

ghost use Rattle.std.specs.Prelude.{◌≡◌};
ghost use Rattle.rx_time.specs.Moments.{filetime_moment, unix_moment, hfs_moment};

/// The ticks of a FILETIME in a second.
const TICKS: u64 = 10_000_000;

/// The seconds from the first of January 1601 and 1904 to that of 1970.
const FROM_1601: i64 = 11_644_473_600;

const FROM_1904: i64 = 2_082_844_800;

/// A moment: the seconds from 1970-01-01 UTC to it.
#[derive(Clone, Copy, Debug, PartialEq, Eq)]
pub struct Moment {
    pub seconds: i64,
}

impl Moment {
    /// The moment so many 100 ns after 1601-01-01, rounded down to a second.
    pub fn from_filetime(ticks: u64) -> Moment
        ensures { result ≡ filetime_moment ticks }
    {
        Moment {
            seconds: (ticks / TICKS) as i64 - FROM_1601,
        }
    }

    /// The moment so many seconds after 1970-01-01.
    pub fn from_unix(seconds: i64) -> Moment
        ensures { result ≡ unix_moment seconds }
    {
        Moment { seconds }
    }

    /// The moment so many seconds after 1904-01-01; none for 0.
    pub fn from_hfs(seconds: u32) -> Option<Moment>
        ensures { result ≡ hfs_moment seconds }
    {
        if seconds == 0 {
            return None;
        }
        Some(Moment {
            seconds: i64::from(seconds) - FROM_1904,
        })
    }
}
