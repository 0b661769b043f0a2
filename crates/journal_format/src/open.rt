//! Whether a journal stands open.
ghost use Rattle.std.specs.Prelude.{◌≡◌, IfOk, IfSome};
ghost use Rattle.disk_defs.specs.Count.{IsCountedIn};
ghost use Rattle.disk_defs.specs.Disk.{told_journal};
ghost use Rattle.disk_defs.specs.declared.Area.TheVariants.{Journal};
ghost use Rattle.journal_format.specs.Says.{TellsIfOpen};

use journal_defs::OPEN_GATE;
use rx_store::{Area, Fault, Store};

/// Whether the journal of a store stands open: it has at least 41 bytes, and its gate is open.
pub fn stands_open<S: Store>(store: &mut S) -> Result<bool, Fault>
    ensures told { IfOk result (λ answer. IfSome (told_journal (S.state store.old)) (TellsIfOpen answer)) }
    ensures same { S.state store.new ≡ S.state store.old }
    ensures counted { IsCountedIn Journal result (S.faults store.old) (S.faults store.new) }
{
    if store.len(Area::Journal)? < 41 {
        return Ok(false);
    }
    let mut gate = [0];
    store.read_at(Area::Journal, 0, &mut gate)?;
    Ok(gate[0] == OPEN_GATE)
}
