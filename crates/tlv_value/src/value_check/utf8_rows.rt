//! Whether a UTF8String is well-formed, row by row.
ghost use Rattle.std.specs.List.{list_all};
ghost use Rattle.std.specs.Prelude.{◌≡◌, ◌+◌, ◌≤◌, ◌++◌, [], length};
ghost use Rattle.std.specs.Str.{is_utf8};
ghost use Rattle.tlv_value.specs.RowSizes.{IsOpenRow};
ghost use Rattle.tlv_value.specs.RowsSoFar.{full_rows, open_row};

use super::both;
use crate::row_sizes::fitting_length;
use arrayvec::ArrayVec;
use tlv_head::Kind;

/// Takes octets after the row that has begun. Returns whether the rows that are then full are well-formed.
pub(super) fn take_rows(row: &mut ArrayVec<u8, 64>, octets: &[u8]) -> bool
    requires { IsOpenRow Kind.Utf8 row.old.items }
    ensures utf8 { result ≡ list_all is_utf8 (full_rows Kind.Utf8 row.old.items octets.now) }
    ensures row { row.new.items ≡ open_row Kind.Utf8 row.old.items octets.now }
    ensures is_open { IsOpenRow Kind.Utf8 row.new.items }
{
    let mut are_full_rows_utf8 = true;
    let mut rest = octets;
    while !rest.is_empty() {
        let (part, more) = rest.split_at(fitting_length(Kind::Utf8, row.len(), rest));
        rest = more;
        if row.len() + part.len() < 64 && rest.is_empty() {
            let _ = row.try_extend_from_slice(part);
            return are_full_rows_utf8;
        }
        are_full_rows_utf8 = both(are_full_rows_utf8, is_full_row_utf8(row, part));
    }
    are_full_rows_utf8
}

/// Whether the row that has begun is well-formed with the octets that fill it. The row is then empty.
fn is_full_row_utf8(row: &mut ArrayVec<u8, 64>, part: &[u8]) -> bool
    requires { length row.old.items + length part.now ≤ 64 }
    ensures utf8 { result ≡ is_utf8 (row.old.items ++ part.now) }
    ensures row { row.new.items ≡ [] }
{
    if row.is_empty() {
        return is_utf8(part);
    }
    let _ = row.try_extend_from_slice(part);
    let full = row.take();
    is_utf8(full.as_slice())
}

/// Whether the octets are UTF-8.
pub(crate) fn is_utf8(octets: &[u8]) -> bool
    ensures { result ≡ is_utf8 octets.now }
{
    simdutf8::is_utf8(octets)
}
