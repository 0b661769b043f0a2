//! Writes the report of a plan.
//!
//! The text is `report` of `text_defs`: four lines on the whole plan, a line for each range, and a line for each listed name. It
//! goes out in order, a page of up to 8,192 bytes at a time, and takes no memory. After a fault of the sink some first bytes of
//! it were taken.
//!
//!     write_report(&mut sink, &plan, ReportState::Planned)?;
//!     // "redaction planned", "image 262144", "ranges 1", "bytes 3", "RANGE 86016 3 1 0x58", "FILE 1 /a"
#![tactic(auto)]

ghost use Rattle.std.specs.Prelude.{◌≡◌, ◌++◌, OnOk, OnErr};
ghost use Rattle.std.specs.List.{flat_map};
ghost use Rattle.disk_defs.specs.Count.{IsCounted};
ghost use Rattle.disk_defs.specs.Stream.{taken_with, TookPrefixOf};
ghost use Rattle.text_defs.specs.Report as spec;
ghost use Rattle.text_defs.specs.Report.{report, listed_line};
ghost use Rattle.rx_report.specs.Pages.{TookAllBut};

mod lines;
mod pages;

use crate::lines::{head_lines, listed_head, range_line};
use crate::pages::{Page, put};
use range_defs::Claim;
use rx_ranges::{Listed, Plan};
use rx_store::{Fault, Sink, write_all};
use text_defs::ReportState;

/// Puts the lines of ranges behind what waits in the page.
fn put_ranges<K: Sink>(sink: &mut K, page: &mut Page, claims: &[Claim]) -> Result<(), Fault>
    ensures taken { OnOk result
        (TookAllBut (K.taken sink.old) (K.taken sink.new) page.new.bytes (page.old.bytes ++ flat_map spec.range_line claims.now)) }
    ensures prefix { OnErr result (TookPrefixOf (K.taken sink.old) (K.taken sink.new) (page.old.bytes ++ flat_map spec.range_line claims.now)) }
    ensures counted { IsCounted result (K.faults sink.old) (K.faults sink.new) }
{
    for claim in claims {
        put(sink, page, range_line(claim).as_str())?;
    }
    Ok(())
}

/// Puts the line of a listed name behind what waits in the page.
fn put_listed<K: Sink>(sink: &mut K, page: &mut Page, listed: &Listed) -> Result<(), Fault>
    ensures taken { OnOk result
        (TookAllBut (K.taken sink.old) (K.taken sink.new) page.new.bytes (page.old.bytes ++ listed_line listed.now)) }
    ensures prefix { OnErr result (TookPrefixOf (K.taken sink.old) (K.taken sink.new) (page.old.bytes ++ listed_line listed.now)) }
    ensures counted { IsCounted result (K.faults sink.old) (K.faults sink.new) }
{
    put(sink, page, listed_head(listed).as_str())?;
    put(sink, page, listed.path.as_str())?;
    put(sink, page, "\n")
}

/// Puts the lines of a listing behind what waits in the page.
fn put_listing<K: Sink>(sink: &mut K, page: &mut Page, lines: &[Listed]) -> Result<(), Fault>
    ensures taken { OnOk result
        (TookAllBut (K.taken sink.old) (K.taken sink.new) page.new.bytes (page.old.bytes ++ flat_map listed_line lines.now)) }
    ensures prefix { OnErr result (TookPrefixOf (K.taken sink.old) (K.taken sink.new) (page.old.bytes ++ flat_map listed_line lines.now)) }
    ensures counted { IsCounted result (K.faults sink.old) (K.faults sink.new) }
{
    for listed in lines {
        put_listed(sink, page, listed)?;
    }
    Ok(())
}

/// Writes the report of a plan. After a fault the sink took some first bytes of it.
pub fn write_report<K: Sink>(sink: &mut K, plan: &Plan, state: ReportState) -> Result<(), Fault>
    ensures taken { OnOk result (K.taken sink.new ≡ taken_with (K.taken sink.old) (report plan.now state)) }
    ensures prefix { OnErr result (TookPrefixOf (K.taken sink.old) (K.taken sink.new) (report plan.now state)) }
    ensures counted { IsCounted result (K.faults sink.old) (K.faults sink.new) }
{
    let mut page = head_lines(plan, state);
    put_ranges(sink, &mut page, plan.ranges.items())?;
    put_listing(sink, &mut page, plan.listing.items())?;
    write_all(sink, page.as_str().as_bytes())
}
