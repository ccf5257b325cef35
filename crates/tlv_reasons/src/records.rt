//! Where the next record begins in an input, one of whose records is damaged.
ghost use Rattle.std.specs.List.{filter};
ghost use Rattle.std.specs.Prelude.{◌≡◌, ◌<◌, ◌≤◌, ◌+◌, ◌++◌, [], ◌∷◌, IfErr, IfOk, IfSome, None, Option, length};
ghost use Rattle.std.specs.Prelude.{slice_index, ℕ};
ghost use Rattle.std.specs.Option.{option_map};
ghost use Rattle.tlv_head.specs.Limits.{input_limit};
ghost use Rattle.tlv_reasons.specs.FirstOf.{IsFirstWithin};
ghost use Rattle.tlv_reasons.specs.NextRecord.{EndsNear, IsNextRecord, IsRecordAfter, IsRecordAt, IsSomeRecord};
ghost use Rattle.tlv_reasons.specs.NextRecord.{ReadsInVain, alike_offsets, ends_near_input, is_alike, is_far};
ghost use Rattle.tlv_reasons.specs.NextRecord.{is_length_of, tried_offsets};
ghost use Rattle.tlv_reasons.specs.Sizes.{is_short};

use crate::lengths::WrongLength;
use crate::sound::{closed_framing, ending_in};
use arrayvec::ArrayVec;
use tlv_head::{FaultCode, Size, read_header};
use tlv_walk::Ending;

/// The number of offsets that are tried after the start of the damaged element.
const RECORD_TRIES: usize = 1024;

/// The number of all offsets that are tried: three near the end of the damaged element, and those.
const ALL_TRIES: usize = 1027;

/// From a record on the input parses far if the next fault is so many octets behind it, and behind the fault of the input,
/// or more.
const FAR: u64 = 4096;

/// Where the next record may begin. Offsets are in octets from the start of the input.
#[derive(Clone, Copy, PartialEq, Eq, Debug)]
pub struct NextRecord {
    /// The offset of its first octet.
    pub offset: u64,
    /// Up to which fault the input parses from there on; `None` if it parses up to its end.
    pub fault: Option<u64>,
}

/// Where the next record begins, if one of several records is damaged. A constructed element begins there, and from
/// there on the input is sound, or parses up to an octet that is refused 4096 octets or more behind it, and behind the fault
/// of the input, which is at `fault`. The octet there is that at the start of the damaged record, or of the input. The damaged record
/// begins at `top`, after whole elements. Its end is tried first, and the offsets one octet before and after that; then the
/// first 1024 offsets after `top` with such an octet. A try reads up to the fault of what stands there. Once the tries have
/// read `reads` octets, no other is made. `None` if there is no such offset, if no whole element stands in front, if the
/// input ends near the end of the damaged record, if another length is named for that record (`wrong`), or if another start
/// was found (`start`). With `padding`, octets `00` are allowed between encodings and after them. Offsets are in octets
/// from the start of the input.
pub fn next_record(
    octets: &[u8],
    padding: bool,
    fault: usize,
    top: usize,
    wrong: Option<WrongLength>,
    start: Option<usize>,
    reads: u64,
) -> Option<NextRecord>
    requires { length octets.now ≤ input_limit }
    ensures { IsNextRecord reads padding octets.now fault top wrong start result }
{
    match start {
        Some(_) => None,
        None => record_without_start(octets, padding, fault, top, wrong, reads),
    }
}

/// [`next_record`], if no other start was found.
fn record_without_start(
    octets: &[u8],
    padding: bool,
    fault: usize,
    top: usize,
    wrong: Option<WrongLength>,
    reads: u64,
) -> Option<NextRecord>
    requires { length octets.now ≤ input_limit }
    ensures { IsNextRecord reads padding octets.now fault top wrong None result }
{
    if top == 0 {
        return None;
    }
    if is_length_of(top, wrong) {
        return None;
    }
    record_after(octets, padding, fault, top, reads)
}

/// Whether the header at this offset is the one with another length.
fn is_length_of(offset: usize, wrong: Option<WrongLength>) -> bool
    ensures { result ≡ is_length_of offset wrong }
{
    match wrong {
        Some(wrong) => wrong.offset == offset,
        None => false,
    }
}

/// Where the record after the damaged element at this offset begins.
fn record_after(
    octets: &[u8],
    padding: bool,
    fault: usize,
    offset: usize,
    reads: u64,
) -> Option<NextRecord>
    requires { length octets.now ≤ input_limit }
    ensures { IsRecordAfter reads padding octets.now fault offset result }
{
    let offsets = tried_offsets(octets, offset);
    first_within(octets, padding, fault, offsets.as_slice(), reads)
}

/// The first of these offsets at which a constructed element begins, and from which on the input is sound or parses far,
/// if the tries before it read fewer octets in vain than `budget`.
fn first_within(
    octets: &[u8],
    padding: bool,
    fault: usize,
    offsets: &[usize],
    budget: u64,
) -> Option<NextRecord>
    requires { length octets.now ≤ input_limit }
    ensures first { IsFirstWithin (IsSomeRecord padding octets.now fault) (ReadsInVain padding octets.now fault) budget
        offsets.now (option_map (λ r. r.offset) result) }
    ensures parses { IfSome result (λ r. IsRecordAt padding octets.now fault r.offset r.fault) }
{
    let mut left = budget;
    for &offset in offsets {
        if left == 0 {
            return None;
        }
        match record_at(octets, padding, fault, offset) {
            Ok(next) => return Some(next),
            Err(count) => left = left.saturating_sub(count),
        }
    }
    None
}

/// What a try at this offset finds: a record, with the fault up to which the input parses from there on.
///
/// # Errors
///
/// The number of octets that are read in vain, if there is none: those up to the fault of what stands there, if a
/// constructed element begins there; else none.
fn record_at(octets: &[u8], padding: bool, fault: usize, offset: usize) -> Result<NextRecord, u64>
    requires { length octets.now ≤ input_limit }
    ensures there { IfOk result (λ r. (r.offset ≡ offset) × IsRecordAt padding octets.now fault offset r.fault) }
    ensures vain { IfErr result (ReadsInVain padding octets.now fault offset) }
{
    if offset > octets.len() {
        return Err(0);
    }
    let rest = &octets[offset..];
    let Some((fields, _)) = read_header(offset as u64, false, rest) else {
        return Err(0);
    };
    if !fields.constructed {
        return Err(0);
    }
    match ending_in(rest, &closed_framing(padding)) {
        Ending::Done => Ok(record_up_to(offset, None)),
        Ending::Fault(next) => {
            if is_far(fault as u64, offset as u64, next.code, next.offset) {
                Ok(record_up_to(offset, Some((offset as u64).saturating_add(next.offset))))
            } else {
                Err(next.offset)
            }
        }
    }
}

/// A record at this offset, up to this fault.
fn record_up_to(offset: usize, fault: Option<u64>) -> NextRecord
    ensures { result ≡ record { offset = offset; fault = fault } }
{
    NextRecord {
        offset: offset as u64,
        fault,
    }
}

/// Whether octets are refused `count` octets after this offset, far behind it and behind the fault of the input.
fn is_far(fault: u64, offset: u64, code: FaultCode, count: u64) -> bool
    ensures { result ≡ is_far fault offset code count }
{
    !is_short(code) && count >= FAR && offset.saturating_add(count).saturating_sub(fault) >= FAR
}

/// Whether the input ends inside an encoding.
fn is_short(code: FaultCode) -> bool
    ensures { result ≡ is_short code }
{
    matches!(code, FaultCode::Short)
}

/// The offsets that are tried, after the damaged element at this offset.
fn tried_offsets(octets: &[u8], offset: usize) -> ArrayVec<usize, ALL_TRIES>
    requires { length octets.now ≤ input_limit }
    ensures { (end : Option ℕ) × EndsNear octets.now offset end × (result.items ≡ tried_offsets octets.now offset end) }
{
    let mut tried = ArrayVec::new();
    if let Some(end) = end_near(octets, offset) {
        if ends_near_input(octets, end) {
            return tried;
        }
        add_alike(octets, offset, end, &mut tried);
        add_alike(octets, offset, end - 1, &mut tried);
        add_alike(octets, offset, end + 1, &mut tried);
    }
    add_alike_offsets(octets, offset, &mut tried);
    tried
}

/// Adds this place, if an octet stands there with which records begin.
fn add_alike(octets: &[u8], offset: usize, place: usize, tried: &mut ArrayVec<usize, ALL_TRIES>)
    requires offset { offset < length octets.now }
    requires place { place < length octets.now }
    requires room { length tried.old.items < 3 }
    ensures added { tried.new.items ≡ tried.old.items
        ++ filter (λ n. is_alike octets.now offset (slice_index octets.now n)) (place ∷ []) }
    ensures room { length tried.new.items ≤ length tried.old.items + 1 }
{
    if is_alike(octets, offset, octets[place]) {
        tried.push(place);
    }
}

/// Adds the offsets after this one at which such an octet stands.
fn add_alike_offsets(octets: &[u8], offset: usize, tried: &mut ArrayVec<usize, ALL_TRIES>)
    requires limit { length octets.now ≤ input_limit }
    requires room { length tried.old.items ≤ 3 }
    ensures { tried.new.items ≡ tried.old.items ++ alike_offsets octets.now offset }
{
    if offset >= octets.len() {
        return;
    }
    let mut tries = 0;
    for place in offset + 1..octets.len() {
        if is_alike(octets, offset, octets[place]) {
            tried.push(place);
            tries += 1;
            if tries == RECORD_TRIES {
                return;
            }
        }
    }
}

/// Whether the input ends near the end of the damaged element.
fn ends_near_input(octets: &[u8], end: usize) -> bool
    requires some { 1 ≤ end }
    requires limit { end ≤ input_limit + 1 }
    ensures { result ≡ ends_near_input octets.now end }
{
    end == octets.len() || end - 1 == octets.len() || end + 1 == octets.len()
}

/// Where the element at this offset ends, if its length is definite, and the end is at most one octet behind the input.
fn end_near(octets: &[u8], offset: usize) -> Option<usize>
    requires { length octets.now ≤ input_limit }
    ensures end { EndsNear octets.now offset result }
    ensures within { IfSome result (λ n. (offset < length octets.now) × (offset < n) × (n ≤ length octets.now + 1)) }
{
    if offset > octets.len() {
        return None;
    }
    let Some((fields, count)) = read_header(offset as u64, false, &octets[offset..]) else {
        return None;
    };
    let Size::Definite(size) = fields.size else {
        return None;
    };
    if size > (octets.len() - offset - count) as u64 + 1 {
        return None;
    }
    Some(offset + count + size as usize)
}

/// Whether the element at this offset begins with this octet, or the input does.
fn is_alike(octets: &[u8], offset: usize, octet: u8) -> bool
    requires { offset < length octets.now }
    ensures { result ≡ is_alike octets.now offset octet }
{
    octet == octets[offset] || octet == octets[0]
}
