//! The sink for a text.
ghost use Rattle.std.specs.Prelude.{◌≡◌, ◌<◌, ◌≤◌, ℕ, List, Option, length, take, IfOk, OnOk, OnErr};
ghost use Rattle.disk_defs.specs.Stream.{taken_with, TookPrefixOf};
ghost use Rattle.disk_defs.specs.Count.{IsCounted};

use disk_defs::Fault;

/// Takes the bytes of a text in order. Its writes may fail; each failure is counted.
pub trait Sink {
    /// The bytes that were taken, where the sink tells them.
    ghost taken: { Self → Option (List ℕ) };

    /// How many writes have failed. The count never falls.
    ghost faults: { Self → ℕ };

    /// Takes the first of the bytes, and says how many: at least one where there is any. A fault takes none.
    fn write(&mut self, bytes: &[u8]) -> Result<usize, Fault>
        ensures within { IfOk result (λ count. count ≤ length bytes.now) }
        ensures progress { IfOk result (λ count. 0 < length bytes.now → 0 < count) }
        ensures taken { IfOk result (λ count. taken self.new ≡ taken_with (taken self.old) (take count bytes.now)) }
        ensures fault { OnErr result (taken self.new ≡ taken self.old) }
        ensures counted { IsCounted result (faults self.old) (faults self.new) };
}

/// Writes a whole text, in as many writes as the sink wants. After a fault the sink took some first bytes of it.
pub fn write_all<K: Sink>(sink: &mut K, bytes: &[u8]) -> Result<(), Fault>
    ensures taken { OnOk result (K.taken sink.new ≡ taken_with (K.taken sink.old) bytes.now) }
    ensures prefix { OnErr result (TookPrefixOf (K.taken sink.old) (K.taken sink.new) bytes.now) }
    ensures counted { IsCounted result (K.faults sink.old) (K.faults sink.new) }
{
    let mut done = 0;
    while done < bytes.len() {
        done += sink.write(&bytes[done..])?;
    }
    Ok(())
}
