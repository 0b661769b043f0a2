//! The first journal of a plan, in pieces.
ghost use Rattle.std.specs.Prelude.{◌≡◌, ℕ, ◌+◌, ◌^◌, ◌<◌, ◌≤◌, ◌∷◌, All, max, take, length, replicate, slice_index, sum_by};
ghost use Rattle.std.specs.List.{flat_map};
ghost use Rattle.bytes_defs.specs.Bytes.{part};
ghost use Rattle.journal_defs.specs.Form as spec;
ghost use Rattle.journal_defs.specs.Form.{first_journal, little, range_bytes, line_bytes, header_rest};
ghost use Rattle.journal_format.specs.Cursors.{IsCursor};
ghost use Rattle.journal_format.specs.Filled.{FillsNext};
ghost use Rattle.rx_ranges.specs.PlanChecks.{IsPlan, IsListed, listed_len};

use crate::listing::line_len;
use journal_defs::{HEADER_LEN, RANGE_LEN};
use range_defs::Claim;
use rx_ranges::{ListKind, Listed, Plan};

/// How many bytes lines have in a journal.
fn listing_len(lines: &[Listed]) -> u64
    requires { sum_by listed_len lines.now < 2 ^ 64 }
    ensures { result ≡ sum_by listed_len lines.now }
{
    let mut total = 0;
    for line in lines {
        total += 7 + line.path.as_str().len() as u64;
    }
    total
}

/// How many bytes a plan has in a journal behind the header.
fn body_len(plan: &Plan) -> u64
    requires { IsPlan plan.now }
    ensures { result ≡ spec.body_len plan.now }
{
    let ranges = plan.ranges.items().len() as u64;
    RANGE_LEN * ranges + listing_len(plan.listing.items()) + ((ranges + 63) / 64 + 1)
}

/// How many bytes the journal of a plan has.
pub fn journal_len(plan: &Plan) -> u64
    requires { IsPlan plan.now }
    ensures { result ≡ spec.journal_len plan.now }
{
    HEADER_LEN + body_len(plan)
}

/// Copies bytes to a place of a piece.
fn copy_to(piece: &mut [u8], from: usize, bytes: &[u8])
    requires { from + length bytes.now ≤ length piece.old }
    ensures inside { (k : ℕ) → k < length bytes.now → slice_index piece.new (from + k) ≡ slice_index bytes.now k }
    ensures front { (k : ℕ) → k < from → slice_index piece.new k ≡ slice_index piece.old k }
{
    piece[from..from + bytes.len()].copy_from_slice(bytes);
}

/// Copies what a piece from `at` on has of the bytes that stand at a place.
fn put(piece: &mut [u8], at: u64, place: u64, bytes: &[u8])
    requires piece { at + length piece.old < 2 ^ 64 }
    requires bytes { place + length bytes.now < 2 ^ 64 }
    ensures { FillsNext at place bytes.now piece.old piece.new }
{
    let begin = at.max(place);
    let end = (at + piece.len() as u64).min(place + bytes.len() as u64);
    if begin < end {
        let from = &bytes[(begin - place) as usize..(end - place) as usize];
        copy_to(piece, (begin - at) as usize, from);
    }
}

/// Puts a number of 8 bytes.
#[tactic(auto, unfolding(journal_defs::specs::Form::little))]
fn put_u64(piece: &mut [u8], at: u64, place: u64, number: u64)
    requires piece { at + length piece.old < 2 ^ 64 }
    requires place { place + 8 < 2 ^ 64 }
    ensures { FillsNext at place (little 8 number) piece.old piece.new }
{
    put(piece, at, place, &number.to_le_bytes());
}

/// Puts a number of 4 bytes.
#[tactic(auto, unfolding(journal_defs::specs::Form::little))]
fn put_u32(piece: &mut [u8], at: u64, place: u64, number: u32)
    requires piece { at + length piece.old < 2 ^ 64 }
    requires place { place + 4 < 2 ^ 64 }
    ensures { FillsNext at place (little 4 number) piece.old piece.new }
{
    put(piece, at, place, &number.to_le_bytes());
}

/// Puts a number of 2 bytes.
#[tactic(auto, unfolding(journal_defs::specs::Form::little))]
fn put_u16(piece: &mut [u8], at: u64, place: u64, number: u16)
    requires piece { at + length piece.old < 2 ^ 64 }
    requires place { place + 2 < 2 ^ 64 }
    ensures { FillsNext at place (little 2 number) piece.old piece.new }
{
    put(piece, at, place, &number.to_le_bytes());
}

/// Puts the bytes of a range.
#[tactic(auto, unfolding(journal_defs::specs::Form::range_bytes))]
fn put_range(piece: &mut [u8], at: u64, place: u64, claim: &Claim)
    requires piece { at + length piece.old < 2 ^ 64 }
    requires place { place + 24 < 2 ^ 64 }
    ensures { FillsNext at place (range_bytes claim.now) piece.old piece.new }
{
    put_u64(piece, at, place, claim.range.at);
    put_u64(piece, at, place + 8, claim.range.len);
    put_u32(piece, at, place + 16, claim.rule);
    put(piece, at, place + 20, &[claim.fill, 0, 0, 0]);
}

/// The byte of a kind of line.
fn kind_byte(kind: ListKind) -> u8
    ensures { result ≡ spec.kind_byte kind }
{
    match kind {
        ListKind::File => 1,
        ListKind::Alias => 2,
    }
}

/// Puts the bytes of a line.
fn put_line(piece: &mut [u8], at: u64, place: u64, line: &Listed)
    requires piece { at + length piece.old < 2 ^ 64 }
    requires short { length line.now.path ≤ 65535 }
    requires place { place + listed_len line.now < 2 ^ 64 }
    ensures { FillsNext at place (line_bytes line.now) piece.old piece.new }
{
    let path = line.path.as_str().as_bytes();
    put(piece, at, place, &[kind_byte(line.kind)]);
    put_u32(piece, at, place + 1, line.rule);
    put_u16(piece, at, place + 5, path.len() as u16);
    put(piece, at, place + 7, path);
}

/// Puts a header with a closed gate.
fn put_header(piece: &mut [u8], at: u64, plan: &Plan)
    requires piece { at + length piece.old < 2 ^ 64 }
    requires plan { IsPlan plan.now }
    ensures { FillsNext at 0 (0 ∷ header_rest plan.now) piece.old piece.new }
{
    let lines = plan.listing.items();
    put(piece, at, 0, b"\x00DFRJ v1");
    put_u64(piece, at, 8, plan.image_len);
    put_u32(piece, at, 16, plan.ranges.items().len() as u32);
    put_u32(piece, at, 20, lines.len() as u32);
    put_u64(piece, at, 24, body_len(plan));
    put_u64(piece, at, 32, listing_len(lines));
}

/// Puts the ranges, of which a piece has those that arithmetic finds.
fn put_ranges(piece: &mut [u8], at: u64, ranges: &[Claim])
    requires piece { at + length piece.old < 2 ^ 64 }
    requires few { length ranges.now ≤ 1000000 }
    ensures { FillsNext at 40 (flat_map range_bytes ranges.now) piece.old piece.new }
{
    let end = at + piece.len() as u64;
    let first = ((at.max(40) - 40) / 24).min(ranges.len() as u64);
    let last = ((end.max(40) - 40) / 24 + 1).min(ranges.len() as u64);
    for i in first..last {
        put_range(piece, at, 40 + 24 * i, &ranges[i as usize]);
    }
}

/// Where the lines of a listing go on: the number of a line, and its place in the journal.
#[derive(Clone, Copy, Debug, Drop)]
pub struct Cursor {
    line: usize,
    place: u64,
}

impl Cursor {
    /// The first line of a plan.
    pub fn first(plan: &Plan) -> Cursor
        requires { IsPlan plan.now }
        ensures { (at : ℕ) → IsCursor plan.now at result }
    {
        Cursor {
            line: 0,
            place: HEADER_LEN + RANGE_LEN * plan.ranges.items().len() as u64,
        }
    }
}

/// Puts the lines of the listing, which begins at a place, from a line on that no line in front of it passes into the piece.
/// Answers the first line that isn't whole in front of the piece's end.
fn put_lines(piece: &mut [u8], at: u64, begin: u64, from: Cursor, lines: &[Listed]) -> Cursor
    requires piece { at + length piece.old < 2 ^ 64 }
    requires listed { All IsListed lines.now }
    requires fits { begin + sum_by listed_len lines.now < 2 ^ 64 }
    requires line { from.line ≤ length lines.now }
    requires place { from.place ≡ begin + sum_by listed_len (take from.line lines.now) }
    requires passed { from.place ≤ max at begin }
    ensures fills { FillsNext at begin (flat_map line_bytes lines.now) piece.old piece.new }
    ensures line { result.line ≤ length lines.now }
    ensures place { result.place ≡ begin + sum_by listed_len (take result.line lines.now) }
    ensures passed { result.place ≤ max (at + length piece.old) begin }
{
    let end = at + piece.len() as u64;
    let mut place = from.place;
    for line in from.line..lines.len() {
        let listed = &lines[line];
        put_line(piece, at, place, listed);
        let next = place + line_len(listed);
        if end < next {
            return Cursor { line, place };
        }
        place = next;
    }
    Cursor {
        line: lines.len(),
        place,
    }
}

/// Clears a piece from one of its bytes on.
fn clear_from(piece: &mut [u8], from: usize)
    requires { from ≤ length piece.old }
    ensures zeros { (k : ℕ) → from ≤ k → k < length piece.old → slice_index piece.new k ≡ 0 }
    ensures front { (k : ℕ) → k < from → slice_index piece.new k ≡ slice_index piece.old k }
{
    piece[from..].fill(0);
}

/// Puts zeros from a place on.
fn put_zeros(piece: &mut [u8], at: u64, place: u64)
    requires { at + length piece.old < 2 ^ 64 }
    ensures { (n : ℕ) → FillsNext at place (replicate n 0) piece.old piece.new }
{
    let from = (place.max(at) - at).min(piece.len() as u64) as usize;
    clear_from(piece, from);
}

/// Puts what a piece has of a header with a closed gate.
fn put_front(piece: &mut [u8], at: u64, plan: &Plan)
    requires piece { at + length piece.old < 2 ^ 64 }
    requires plan { IsPlan plan.now }
    ensures { FillsNext at 0 (0 ∷ header_rest plan.now) piece.old piece.new }
{
    if at < HEADER_LEN {
        put_header(piece, at, plan);
    }
}

/// Fills a buffer with the bytes of a plan's first journal from a place on, of which the listing goes on at a cursor. Answers
/// the cursor for the bytes behind them.
pub fn journal_piece_from(plan: &Plan, len: u64, at: u64, from: Cursor, buf: &mut [u8]) -> Cursor
    requires plan { IsPlan plan.now }
    requires len { len ≡ spec.journal_len plan.now }
    requires inside { at + length buf.old ≤ spec.journal_len plan.now }
    requires cursor { IsCursor plan.now at from }
    ensures filled { buf.new ≡ part (first_journal plan.now) at (length buf.old) }
    ensures cursor { IsCursor plan.now (at + length buf.old) result }
{
    let ranges = plan.ranges.items();
    let listing = HEADER_LEN + RANGE_LEN * ranges.len() as u64;
    let groups = (ranges.len() as u64 + 63) / 64;
    put_front(buf, at, plan);
    put_ranges(buf, at, ranges);
    let next = put_lines(buf, at, listing, from, plan.listing.items());
    put_zeros(buf, at, len - (groups + 1));
    next
}

/// Fills a buffer with the bytes of a plan's first journal from a place on.
pub fn journal_piece(plan: &Plan, at: u64, buf: &mut [u8])
    requires plan { IsPlan plan.now }
    requires inside { at + length buf.old ≤ spec.journal_len plan.now }
    ensures { buf.new ≡ part (first_journal plan.now) at (length buf.old) }
{
    let _next = journal_piece_from(plan, journal_len(plan), at, Cursor::first(plan), buf);
}
