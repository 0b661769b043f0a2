//! A session that is carried out to its end.
ghost use Rattle.std.specs.Prelude.{◌≡◌, OnErr, OnOk};
ghost use Rattle.disk_defs.specs.Disk.{state_after_all};
ghost use Rattle.session_defs.specs.Script.{changes_of};
ghost use Rattle.session_defs.specs.Session.{Running, Ended, HasSizes, IsSessionCounted, IsStopped, calls_of};

use crate::session::Session;
use rx_store::{Fault, Store};

/// Makes all turns of a session. Where a call fails, it stops there.
pub fn finish<S: Store>(session: &mut Session<'_>, store: &mut S) -> Result<(), Fault>
    requires running { session.old.stage ≡ Running }
    requires unused { session.old.made ≡ 0 }
    requires sizes { HasSizes session.old (S.state store.old) }
    ensures done { OnOk result (S.state store.new ≡ state_after_all (changes_of (calls_of session.old.plan session.old.start)) (S.state store.old)) }
    ensures stopped { OnErr result (IsStopped (changes_of (calls_of session.old.plan session.old.start)) (S.state store.old) (S.state store.new)) }
    ensures over { session.new.stage ≡ Ended }
    ensures counted { IsSessionCounted result (S.faults store.old) (S.faults store.new) }
{
    while !session.is_over() {
        match session.turn(store) {
            Ok(_) => {}
            Err(_) => return Err(Fault),
        }
    }
    Ok(())
}
