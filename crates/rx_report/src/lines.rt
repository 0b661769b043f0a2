//! The lines of a report.
ghost use Rattle.std.specs.Prelude.{◌≡◌, ◌+◌, ◌≤◌, ◌++◌, length};
ghost use Rattle.arrayvec.specs.ArrayString.{array_string_len};
ghost use Rattle.text_defs.specs.Report as spec;

use crate::pages::Page;
use arrayvec::ArrayString;
use itoa::{Buffer, Integer};
use name_defs::hex_digit;
use range_defs::Claim;
use rx_ranges::{ListKind, Listed, Plan};
use text_defs::ReportState;

/// Room for each line, but for what a path has of it.
const MAX_LINE: usize = 192;

pub(crate) type Line = ArrayString<MAX_LINE>;

fn push_number<const CAP: usize, I: Integer>(line: &mut ArrayString<CAP>, number: I)
    requires { array_string_len line.old + 40 ≤ CAP }
    ensures bytes { line.new.bytes ≡ line.old.bytes ++ I.text number }
    ensures room { array_string_len line.new ≤ array_string_len line.old + 40 }
{
    line.push_str(Buffer::new().format(number));
}

#[tactic(auto, unfolding(text_defs::specs::Report::state_word))]
fn state_word(state: ReportState) -> &'static str
    ensures word { result.now ≡ spec.state_word state }
    ensures short { length result.now ≤ 7 }
{
    match state {
        ReportState::Planned => "planned",
        ReportState::Pending => "pending",
        ReportState::Done => "done",
    }
}

/// How many bytes the claims have together.
fn planned_bytes(claims: &[Claim]) -> u128
    ensures { result ≡ spec.planned_bytes claims.now }
{
    let mut total = 0u128;
    for claim in claims {
        total += u128::from(claim.range.len);
    }
    total
}

/// A page with the first lines.
#[tactic(auto, unfolding(text_defs::specs::Report::head_lines))]
pub(crate) fn head_lines(plan: &Plan, state: ReportState) -> Page
    ensures { result.bytes ≡ spec.head_lines plan.now state }
{
    let ranges = plan.ranges.items();
    let mut page = Page::new();
    page.push_str("redaction ");
    page.push_str(state_word(state));
    page.push_str("\nimage ");
    push_number(&mut page, plan.image_len);
    page.push_str("\nranges ");
    push_number(&mut page, ranges.len());
    page.push_str("\nbytes ");
    push_number(&mut page, planned_bytes(ranges));
    page.push_str("\n");
    page
}

#[tactic(auto, unfolding(text_defs::specs::Report::hex_text))]
fn push_fill(line: &mut Line, fill: u8)
    requires { array_string_len line.old + 4 ≤ 192 }
    ensures bytes { line.new.bytes ≡ line.old.bytes ++ spec.hex_text fill }
    ensures room { array_string_len line.new ≡ array_string_len line.old + 4 }
{
    line.push_str("0x");
    line.push(char::from(hex_digit(fill / 16)));
    line.push(char::from(hex_digit(fill % 16)));
}

#[tactic(auto, unfolding(text_defs::specs::Report::range_line))]
pub(crate) fn range_line(claim: &Claim) -> Line
    ensures { result.bytes ≡ spec.range_line claim.now }
{
    let mut line = Line::new();
    line.push_str("RANGE ");
    push_number(&mut line, claim.range.at);
    line.push_str(" ");
    push_number(&mut line, claim.range.len);
    line.push_str(" ");
    push_number(&mut line, claim.rule);
    line.push_str(" ");
    push_fill(&mut line, claim.fill);
    line.push_str("\n");
    line
}

/// What stands before the path in the line of a listed name.
#[tactic(auto, unfolding(text_defs::specs::Report::listed_head))]
pub(crate) fn listed_head(listed: &Listed) -> Line
    ensures { result.bytes ≡ spec.listed_head listed.now.kind listed.now.rule }
{
    let mut line = Line::new();
    match listed.kind {
        ListKind::File => {
            line.push_str("FILE ");
            push_number(&mut line, listed.rule);
            line.push_str(" ");
        }
        ListKind::Alias => line.push_str("ALIAS "),
    }
    line
}
