//! The source of a text.
ghost use Rattle.std.specs.Prelude.{◌≡◌, ◌<◌, ◌≤◌, ℕ, [], List, Option, length, IfOk, IfSome, OnErr};
ghost use Rattle.disk_defs.specs.Stream.{GivesFirst, rest_after};
ghost use Rattle.disk_defs.specs.Count.{IsCounted};

use disk_defs::Fault;

/// Gives the bytes of a text in order. Its reads may fail; each failure is counted.
pub trait Source {
    /// The bytes that are still to come, where the source tells them.
    ghost rest: { Self → Option (List ℕ) };

    /// How many reads have failed. The count never falls.
    ghost faults: { Self → ℕ };

    /// Puts bytes into the first places of the buffer, and says how many. It is 0 for a buffer that isn't empty only
    /// at the end. A fault leaves the bytes to come as they were.
    fn read(&mut self, buf: &mut [u8]) -> Result<usize, Fault>
        ensures within { IfOk result (λ count. count ≤ length buf.new) }
        ensures given { IfOk result (GivesFirst (rest self.old) buf.new) }
        ensures rest { IfOk result (λ count. rest self.new ≡ rest_after (rest self.old) count) }
        ensures end { result ≡ Ok 0 → 0 < length buf.new → IfSome (rest self.old) (λ rest. rest ≡ []) }
        ensures fault { OnErr result (rest self.new ≡ rest self.old) }
        ensures counted { IsCounted result (faults self.old) (faults self.new) };
}
