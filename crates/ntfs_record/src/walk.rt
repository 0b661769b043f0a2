//! One attribute after the other.
ghost use Rattle.std.specs.Prelude.{◌≡◌, ◌+◌, ◌<◌, ◌≤◌, ◌⊎◌, length};
ghost use Rattle.bytes_defs.specs.Bytes.{part};
ghost use Rattle.bytes_defs.specs.Numbers.{little_at};
ghost use Rattle.ntfs_record_defs.specs.Attributes as spec;
ghost use Rattle.ntfs_record_defs.specs.Attributes.{name_offset, name_length};
ghost use Rattle.ntfs_record_defs.specs.Lent.{lent_with, lent_at, lent_next};
ghost use Rattle.ntfs_record.specs.Seen.{form_seen, form_given};

use crate::attr::{Attr, Form};
use bytes_defs::{Order, u16_at, u32_at, u64_at};
use ntfs_record_defs::RecordFault;

/// The type that ends the attributes.
const END: u32 = 0xFFFF_FFFF;

/// The bytes of a range.
#[tactic(auto, unfolding(bytes_defs::specs::Bytes::part))]
pub(crate) fn part_of(bytes: &[u8], at: usize, len: usize) -> &[u8]
    requires { at + len ≤ length bytes.now }
    ensures part { result.now ≡ part bytes.now at len }
    ensures whole { length result.now ≡ len }
{
    let rest = &bytes[at..];
    &rest[..len]
}

fn is_resident(start: &[u8]) -> bool
    requires { length start.now ≡ 16 }
    ensures { result ≡ spec.is_resident start.now }
{
    start[8] == 0
}

fn header_size(resident: bool) -> usize
    ensures { result ≡ spec.header_size resident }
{
    if resident { 24 } else { 64 }
}

/// Whether the length of an attribute has place for its header and doesn't pass the bytes that are left.
#[tactic(auto, unfolding(ntfs_record_defs::specs::Attributes::is_length))]
fn is_length(left: usize, start: &[u8]) -> bool
    requires { length start.now ≡ 16 }
    ensures { result ≡ spec.is_length left start.now }
{
    let len = u32_at(Order::Little, start, 4) as usize;
    len % 8 == 0 && header_size(is_resident(start)) <= len && len <= left
}

/// Where the content or the run list stands in an attribute.
fn body_offset(resident: bool, header: &[u8]) -> usize
    requires { length header.now ≡ spec.header_size resident }
    ensures value { result ≡ spec.body_offset resident header.now }
    ensures short { result < 65536 }
{
    if resident {
        usize::from(u16_at(Order::Little, header, 20))
    } else {
        usize::from(u16_at(Order::Little, header, 32))
    }
}

/// How long it is.
fn body_length(resident: bool, len: usize, header: &[u8]) -> usize
    requires header { length header.now ≡ spec.header_size resident }
    requires short { len < 4294967296 }
    ensures value { result ≡ spec.body_length resident len header.now }
    ensures short { result < 4294967296 }
{
    if resident {
        u32_at(Order::Little, header, 16) as usize
    } else {
        len.saturating_sub(usize::from(u16_at(Order::Little, header, 32)))
    }
}

/// Whether the parts of an attribute stand one behind the other.
#[tactic(auto, unfolding(ntfs_record_defs::specs::Attributes::is_layout))]
fn is_layout(resident: bool, start: &[u8], header: &[u8]) -> bool
    requires start { length start.now ≡ 16 }
    requires header { length header.now ≡ spec.header_size resident }
    ensures { result ≡ spec.is_layout resident start.now header.now }
{
    let size = header_size(resident);
    let name = usize::from(u16_at(Order::Little, start, 10));
    let name_len = 2 * usize::from(start[9]);
    let len = u32_at(Order::Little, start, 4) as usize;
    let body = body_offset(resident, header);
    (name_len == 0 || (size <= name && name + name_len <= body))
        && size <= body
        && body + body_length(resident, len, header) <= len
}

/// The name of an attribute. An empty one may say any place.
#[tactic(auto, unfolding(bytes_defs::specs::Bytes::part))]
fn name_of<'a>(bytes: &'a [u8], at: usize, start: &[u8]) -> &'a [u8]
    requires start { length start.now ≡ 16 }
    requires at { at ≤ length bytes.now }
    requires inside { (name_length start.now ≡ 0) ⊎ (at + name_offset start.now + name_length start.now ≤ length bytes.now) }
    ensures { result.now ≡ part bytes.now (at + name_offset start.now) (name_length start.now) }
{
    let len = 2 * usize::from(start[9]);
    if len == 0 {
        return &[];
    }
    part_of(
        bytes,
        at + usize::from(u16_at(Order::Little, start, 10)),
        len,
    )
}

/// The attribute at a place of a record, whose header is this.
fn attribute_with<'a>(
    bytes: &'a [u8],
    at: usize,
    start: &[u8],
    header: &[u8],
) -> Result<Attr<'a>, RecordFault>
    requires start { length start.now ≡ 16 }
    requires header { length header.now ≡ spec.header_size (spec.is_resident start.now) }
    requires inside { at + little_at 4 start.now 4 ≤ length bytes.now }
    ensures { result ≡ lent_with bytes.now at start.now header.now }
{
    let resident = is_resident(start);
    if !is_layout(resident, start, header) {
        return Err(RecordFault::BadField { at });
    }
    let len = u32_at(Order::Little, start, 4) as usize;
    let body = body_offset(resident, header);
    let body_at = at + body;
    let body_bytes = part_of(bytes, body_at, body_length(resident, len, header));
    Ok(Attr {
        kind: u32_at(Order::Little, start, 0),
        at,
        name: name_of(bytes, at, start),
        flags: u16_at(Order::Little, start, 12),
        id: u16_at(Order::Little, start, 14),
        form: form_of(resident, body_at, body_bytes, header),
    })
}

/// Its content, or its run list with the sizes of its header.
fn form_of<'a>(resident: bool, at: usize, body: &'a [u8], header: &[u8]) -> Form<'a>
    requires { length header.now ≡ spec.header_size resident }
    ensures { form_seen result ≡ form_given resident at body.now header.now }
{
    if resident {
        return Form::Resident { at, content: body };
    }
    Form::Runs {
        first: u64_at(Order::Little, header, 16),
        last: u64_at(Order::Little, header, 24),
        at,
        runs: body,
        allocated: u64_at(Order::Little, header, 40),
        real: u64_at(Order::Little, header, 48),
        initialised: u64_at(Order::Little, header, 56),
    }
}

/// The attribute that begins at a place of a record of which `used` bytes are used, and isn't the mark that ends them.
fn attribute_at(bytes: &[u8], used: usize, at: usize) -> Result<Attr, RecordFault>
    requires used { used ≤ length bytes.now }
    requires inside { at ≤ used }
    ensures { result ≡ lent_at bytes.now used at }
{
    if used - at < 16 {
        return Err(RecordFault::BadField { at });
    }
    let start = part_of(bytes, at, 16);
    if !is_length(used - at, start) {
        return Err(RecordFault::BadField { at });
    }
    let header = part_of(bytes, at, header_size(is_resident(start)));
    attribute_with(bytes, at, start, header)
}

/// The attribute that begins at a place of a record of which `used` bytes are used; None where the mark stands that
/// ends them.
#[tactic(auto, unfolding(ntfs_record_defs::specs::Lent::lent_next))]
pub(crate) fn next_attribute(
    bytes: &[u8],
    used: usize,
    at: usize,
) -> Result<Option<Attr>, RecordFault>
    requires used { used ≤ length bytes.now }
    requires inside { at ≤ used }
    ensures { result ≡ lent_next bytes.now used at }
{
    if used - at < 4 {
        return Err(RecordFault::BadField { at });
    }
    if u32_at(Order::Little, part_of(bytes, at, 4), 0) == END {
        return Ok(None);
    }
    match attribute_at(bytes, used, at) {
        Ok(attribute) => Ok(Some(attribute)),
        Err(fault) => Err(fault),
    }
}
