//! The store.
ghost use Rattle.std.specs.Prelude.{◌≡◌, ◌+◌, ◌≤◌, length, IfOk, OnErr, OnOk};
ghost use Rattle.disk_defs.specs.Disk.{State, size_of, state_after, IsAfterFailed, MayWrite, ReadsFrom, SizesFit, TellsItsSizes};
ghost use Rattle.disk_defs.specs.Story.{Write, Cut, Sync};
ghost use Rattle.disk_defs.specs.Count.{Faults, IsCountedIn, IsCountedInBoth};

use disk_defs::{Area, Fault};

/// A disk with an image and a journal. Its calls may fail; each failure is counted.
pub trait Store {
    /// The sizes of both areas and, where the store tells it, its past: what it held at first, and the changes since. What it
    /// holds follows from that.
    ghost state: { Self → State };

    /// How many calls have failed on each area. The counts never fall.
    ghost faults: { Self → Faults };

    /// The size of an area, in bytes.
    fn len(&mut self, area: Area) -> Result<u64, Fault>
        ensures size { IfOk result (λ size. size ≡ size_of area (state self.old)) }
        ensures same { state self.new ≡ state self.old }
        ensures counted { IsCountedIn area result (faults self.old) (faults self.new) };

    /// Reads the bytes of an area from `at` on into the whole buffer. After a fault the buffer has any bytes.
    fn read_at(&mut self, area: Area, at: u64, buf: &mut [u8]) -> Result<(), Fault>
        requires { at + length buf.old ≤ size_of area (state self.old) }
        ensures bytes { OnOk result (ReadsFrom area at (state self.old) buf.new) }
        ensures same { state self.new ≡ state self.old }
        ensures counted { IsCountedIn area result (faults self.old) (faults self.new) };

    /// Writes bytes into an area from `at` on. A write to the image lies inside it, and one to the journal begins at most at its
    /// end and may make it longer. After a fault it may have happened in any part, or not at all.
    fn write_at(&mut self, area: Area, at: u64, bytes: &[u8]) -> Result<(), Fault>
        requires { MayWrite area at (length bytes.now) (state self.old) }
        ensures done { OnOk result (state self.new ≡ state_after (Write area at bytes.now) (state self.old)) }
        ensures failed { OnErr result (IsAfterFailed (Write area at bytes.now) (state self.old) (state self.new)) }
        ensures counted { IsCountedIn area result (faults self.old) (faults self.new) };

    /// Makes the journal `len` bytes long, which is at most what it has. After a fault it has any length between the two.
    fn cut_journal(&mut self, len: u64) -> Result<(), Fault>
        requires { len ≤ size_of Area.Journal (state self.old) }
        ensures done { OnOk result (state self.new ≡ state_after (Cut len) (state self.old)) }
        ensures failed { OnErr result (IsAfterFailed (Cut len) (state self.old) (state self.new)) }
        ensures counted { IsCountedIn Area.Journal result (faults self.old) (faults self.new) };

    /// Waits until what was written to both areas is on the disk. It changes nothing that is held.
    fn sync(&mut self) -> Result<(), Fault>
        ensures done { OnOk result (state self.new ≡ state_after Sync (state self.old)) }
        ensures failed { OnErr result (state self.new ≡ state self.old) }
        ensures counted { IsCountedInBoth result (faults self.old) (faults self.new) };

    /// What it tells has the sizes of the areas.
    ghost tells_its_sizes: { (store : Self) → TellsItsSizes (state store) };

    /// The sizes of the areas fit 64 bits.
    ghost sizes_fit: { (store : Self) → SizesFit (state store) };
}
