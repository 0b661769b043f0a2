//! The report of a small plan, and of one whose listing has more bytes than a page.
ghost use Rattle.std.specs.Prelude.{Some};

use range_defs::{Claim, Range};
use rx_ranges::{FillMap, ListKind, Listed, Listing, Plan, Text};
use rx_report::write_report;
use rx_store::{Fault, MemSink, Sink};
use std::alloc::{AllocError, Global};
use std::test::Fail;
use text_defs::ReportState;

fn listed(alloc: Global, kind: ListKind, rule: u32, path: &str) -> Result<Listed, AllocError> {
    let path = Text::from_str(alloc, path)?;
    Ok(Listed { kind, rule, path })
}

fn plan(alloc: Global) -> Result<Plan, AllocError> {
    let claims = vec![in alloc;
        Claim {
            range: Range { at: 86016, len: 1 },
            rule: 2,
            fill: 0x31,
        },
        Claim {
            range: Range { at: 86017, len: 2 },
            rule: 3,
            fill: 0xAF,
        },
    ]?;
    let lines = vec![in alloc;
        listed(alloc, ListKind::File, 3, "/a")?,
        listed(alloc, ListKind::Alias, 0, "/b")?,
        listed(alloc, ListKind::File, 2, "/c")?,
    ]?;
    Ok(Plan {
        image_len: 262144,
        ranges: FillMap::from_sorted(claims),
        listing: Listing::from_vec(lines),
    })
}

/// A sink that counts its writes.
#[derive(Drop)]
struct CountingSink {
    sink: MemSink,
    writes: u64,
}

impl Sink for CountingSink {
    ghost taken = { λ sink. Some sink.sink.bytes };

    ghost faults = { λ sink. sink.sink.faults };

    fn write(&mut self, bytes: &[u8]) -> Result<usize, Fault> {
        self.writes = self.writes.saturating_add(1);
        self.sink.write(bytes)
    }
}

const TEXT: &str =
    "redaction done\nimage 262144\nranges 2\nbytes 3\nRANGE 86016 1 2 0x31\nRANGE 86017 2 3 0xAF\nFILE 3 /a\nALIAS /b\nFILE 2 /c\n";

#[test]
fn a_sink_without_room_took_the_first_bytes(rt: HostRuntime) -> Result<(), Fail> {
    let plan = plan(rt.alloc())?;
    for room in 0..=TEXT.len() {
        let mut sink = MemSink::new(rt.alloc(), room)?;
        let written = write_report(&mut sink, &plan, ReportState::Done);
        assert_eq!(rt; written.is_ok(), room == TEXT.len());
        assert_eq!(rt; sink.bytes(), &TEXT.as_bytes()[..room]);
    }
    Ok(())
}

/// A path of 9,000 bytes.
fn long_path(alloc: Global) -> Result<String, AllocError> {
    let mut path = String::new(alloc);
    for _ in 0..900 {
        path.push_str("/some_name")?;
    }
    Ok(path)
}

#[test]
fn a_listing_goes_out_in_pages(rt: HostRuntime) -> Result<(), Fail> {
    let alloc = rt.alloc();
    let mut text = String::from_str(alloc, "redaction planned\nimage 0\nranges 0\nbytes 0\n")?;
    let mut lines = Vec::new(alloc);
    for _ in 0..1000 {
        text.push_str("FILE 3 /a\n")?;
        lines.push(listed(alloc, ListKind::File, 3, "/a")?)?;
    }
    let path = long_path(alloc)?;
    let text = format!(in alloc; "{text}ALIAS {path}\nFILE 2 /c\n")?;
    lines.push(listed(alloc, ListKind::Alias, 0, path.as_str())?)?;
    lines.push(listed(alloc, ListKind::File, 2, "/c")?)?;
    let plan = Plan {
        image_len: 0,
        ranges: FillMap::from_sorted(Vec::new(alloc)),
        listing: Listing::from_vec(lines),
    };
    let sink = MemSink::new(alloc, text.len())?;
    let mut sink = CountingSink { sink, writes: 0 };
    assert_eq!(rt;
        write_report(&mut sink, &plan, ReportState::Planned),
        Ok(())
    );
    assert_eq!(rt; sink.sink.bytes(), text.as_bytes());
    // two pages, the path by itself, and what is left
    assert_eq!(rt; sink.writes, 4);
    Ok(())
}
