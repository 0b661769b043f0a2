//! The page in which the text of a report waits until it goes out. It may end inside a line of the listing.
ghost use Rattle.std.specs.Prelude.{◌++◌, OnOk, OnErr};
ghost use Rattle.disk_defs.specs.Count.{IsCounted};
ghost use Rattle.disk_defs.specs.Stream.{TookPrefixOf};
ghost use Rattle.rx_report.specs.Pages.{TookAllBut};

use arrayvec::ArrayString;
use rx_store::{Fault, Sink, write_all};

/// The room of a page.
const MAX_PAGE: usize = 8192;

pub(crate) type Page = ArrayString<MAX_PAGE>;

/// Puts a text behind what waits in the page. A page without room for it goes out first, and a text that no page holds goes out
/// by itself.
pub(crate) fn put<K: Sink>(sink: &mut K, page: &mut Page, text: &str) -> Result<(), Fault>
    ensures taken { OnOk result (TookAllBut (K.taken sink.old) (K.taken sink.new) page.new.bytes (page.old.bytes ++ text.now)) }
    ensures prefix { OnErr result (TookPrefixOf (K.taken sink.old) (K.taken sink.new) (page.old.bytes ++ text.now)) }
    ensures counted { IsCounted result (K.faults sink.old) (K.faults sink.new) }
{
    if page.remaining_capacity() < text.len() {
        write_all(sink, page.as_str().as_bytes())?;
        page.clear();
    }
    if text.len() > MAX_PAGE {
        return write_all(sink, text.as_bytes());
    }
    page.push_str(text);
    Ok(())
}
