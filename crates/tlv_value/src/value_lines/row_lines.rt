//! Rows on their way to an [`Out`].
ghost use Rattle.std.specs.Prelude.{◌≡◌, ◌+◌, ◌<◌, ◌≤◌, ◌^◌, ◌++◌, [], codes, if◌then◌else◌, length, IsTrue};
ghost use Rattle.std.specs.Prelude.{None, OnOk, ◌↔◌};
ghost use Rattle.tlv_io.specs.OutLimits.{line_room};
ghost use Rattle.tlv_io.specs.Cuts.{last_rows};
ghost use Rattle.tlv_io.specs.LineTexts.{HasRoomFor};
ghost use Rattle.tlv_io.specs.Out.{Puts};
ghost use Rattle.tlv_value.specs.Layout.{inner_line};
ghost use Rattle.tlv_value.specs.RowSizes.{IsOpenRow};
ghost use Rattle.tlv_value.specs.Private.Rows.{pair_row_line, pair_row_lines, row_indent};
ghost use Rattle.tlv_value.specs.Rows.{rows_of};
ghost use Rattle.tlv_value.specs.RowsSoFar.{full_rows, open_row};
ghost use Rattle.tlv_value.specs.TextBeside.{row_text_with, shown_row_lines_with};
ghost use Rattle.tlv_value.specs.ValueTextState.{row_line, row_lines};

use crate::Layout;
use crate::line_starts::row_indent;
use crate::pairs::write_full_row;
use crate::row_form::RowForm;
use crate::row_sizes::{fitting_length, row_size};
use crate::value::write_row;
use arrayvec::ArrayVec;
use tlv_head::Kind;
use tlv_io::{Drain, HeldOctets, Out, WriteFault};

/// Puts rows of all of the octets.
pub(super) fn put_all_rows<D: Drain>(
    layout: Layout,
    with_text: bool,
    contents: &[u8],
    out: &mut Out<'_, D>,
) -> Result<(), WriteFault>
    requires { length contents.now ≤ 64 }
    ensures { Puts D.state out.old out.new
        (shown_row_lines_with with_text Kind.Octets layout (rows_of Kind.Octets contents.now)) result }
{
    let form = RowForm {
        kind: Kind::Octets,
        layout,
        with_text,
    };
    let mut row = ArrayVec::new();
    let mut row_count = 0;
    put_rows(&form, &mut row, &mut row_count, contents, out)?;
    put_last(&form, row_count, row.as_slice(), out)
}

/// Puts the full rows that the octets of the row that has begun and the octets after them make. The octets left over
/// begin a row.
pub(crate) fn put_rows<D: Drain>(
    form: &RowForm,
    row: &mut ArrayVec<u8, 64>,
    row_count: &mut u64,
    octets: &[u8],
    out: &mut Out<'_, D>,
) -> Result<(), WriteFault>
    requires is_open { IsOpenRow form.now.kind row.old.items }
    requires counted { row_count.old + length row.old.items + length octets.now < 2 ^ 64 }
    ensures is_open { IsOpenRow form.now.kind row.new.items }
    ensures counted { row_count.new + length row.new.items
        ≤ row_count.old + length row.old.items + length octets.now }
    ensures row { OnOk result (row.new.items ≡ open_row form.now.kind row.old.items octets.now) }
    ensures row_count { OnOk result
        (row_count.new ≡ row_count.old + length (full_rows form.now.kind row.old.items octets.now)) }
    ensures puts { Puts D.state out.old out.new
        (row_lines form.now.with_text form.now.kind form.now.layout row_count.old
        (full_rows form.now.kind row.old.items octets.now)) result }
{
    let size = row_size(form.kind);
    let mut rest = octets;
    while !rest.is_empty() {
        let begun = row.len();
        if has_full_rows(form.layout, size, begun, rest) {
            let (full, more) = rest.as_chunks::<16>();
            rest = more;
            *row_count += full.len() as u64;
            put_full_rows(form.layout, form.with_text, full, out)?;
            continue;
        }
        let (part, more) = rest.split_at(fitting_length(form.kind, begun, rest));
        rest = more;
        if begun + part.len() < size && rest.is_empty() {
            let _ = row.try_extend_from_slice(part);
            return Ok(());
        }
        let index = *row_count;
        *row_count += 1;
        put_full(form, index, row, part, out)?;
    }
    Ok(())
}

/// Whether the octets begin with full rows of pairs of digits, no row has begun, and the number of rows is not limited.
#[inline(always)]
fn has_full_rows(layout: Layout, size: usize, begun: usize, octets: &[u8]) -> bool
    ensures { IsTrue result
        ↔ ((begun ≡ 0) × (size ≡ 16) × (layout.limit ≡ None) × (16 ≤ length octets.now)) }
{
    begun == 0 && size == 16 && layout.limit.is_none() && octets.len() >= 16
}

/// Puts full rows of pairs of digits, straight from their octets. The number of rows is not limited.
#[inline(always)]
fn put_full_rows<D: Drain>(
    layout: Layout,
    with_text: bool,
    rows: &[[u8; 16]],
    out: &mut Out<'_, D>,
) -> Result<(), WriteFault>
    ensures { Puts D.state out.old out.new (pair_row_lines with_text layout rows.now) result }
{
    if with_text {
        put_each_row::<true, D>(layout, rows, out)
    } else {
        put_each_row::<false, D>(layout, rows, out)
    }
}

/// Puts full rows of pairs of digits. Does not check at each row whether text is wanted.
#[inline(always)]
fn put_each_row<const WITH_TEXT: bool, D: Drain>(
    layout: Layout,
    rows: &[[u8; 16]],
    out: &mut Out<'_, D>,
) -> Result<(), WriteFault>
    ensures { Puts D.state out.old out.new (pair_row_lines WITH_TEXT layout rows.now) result }
{
    // A row is much shorter than what `make_room` makes room for, so the drain takes more with each write.
    let size = row_indent(layout) + 68;
    for row in rows {
        out.make_room_for(size)?;
        write_pair_row_line::<WITH_TEXT>(&mut out.held, layout, row);
    }
    Ok(())
}

/// Puts all of the octets as rows of pairs of digits, straight from the octets. The number of rows is not limited.
#[inline(always)]
pub(crate) fn put_pair_rows<D: Drain>(
    layout: Layout,
    with_text: bool,
    octets: &[u8],
    out: &mut Out<'_, D>,
) -> Result<(), WriteFault>
    ensures { Puts D.state out.old out.new
        (pair_row_lines with_text layout (rows_of Kind.Octets octets.now)) result }
{
    let (full, last) = octets.as_chunks::<16>();
    put_full_rows(layout, with_text, full, out)?;
    if last.is_empty() {
        return Ok(());
    }
    out.make_room()?;
    let form = RowForm {
        kind: Kind::Octets,
        layout,
        with_text,
    };
    write_line(&mut out.held, &form, last);
    Ok(())
}

/// Puts the row that has begun with the octets that fill it; straight from these octets if they are the whole row.
fn put_full<D: Drain>(
    form: &RowForm,
    index: u64,
    row: &mut ArrayVec<u8, 64>,
    part: &[u8],
    out: &mut Out<'_, D>,
) -> Result<(), WriteFault>
    requires { length row.old.items + length part.now ≤ 64 }
    ensures row { row.new.items ≡ [] }
    ensures puts { Puts D.state out.old out.new
        (row_line form.now.layout index (row_text_with form.now.with_text form.now.kind (row.old.items ++ part.now)))
        result }
{
    if row.is_empty() {
        return put_row(form, index, part, out);
    }
    let _ = row.try_extend_from_slice(part);
    let put = put_row(form, index, row.as_slice(), out);
    row.clear();
    put
}

/// Puts a last row, if there is one.
pub(crate) fn put_last<D: Drain>(
    form: &RowForm,
    index: u64,
    row: &[u8],
    out: &mut Out<'_, D>,
) -> Result<(), WriteFault>
    requires { length row.now ≤ 64 }
    ensures { Puts D.state out.old out.new
        (row_lines form.now.with_text form.now.kind form.now.layout index (last_rows row.now)) result }
{
    if row.is_empty() {
        return Ok(());
    }
    put_row(form, index, row, out)
}

/// Puts a row. Beyond the limit, puts three dots in place of the first row, and nothing for the rest.
#[inline(always)]
fn put_row<D: Drain>(
    form: &RowForm,
    index: u64,
    row: &[u8],
    out: &mut Out<'_, D>,
) -> Result<(), WriteFault>
    requires { length row.now ≤ 64 }
    ensures { Puts D.state out.old out.new
        (row_line form.now.layout index (row_text_with form.now.with_text form.now.kind row.now)) result }
{
    if let Some(limit) = form.layout.limit
        && index >= u64::from(limit)
    {
        return put_dots(form.layout, index == u64::from(limit), out);
    }
    out.make_room()?;
    write_line(&mut out.held, form, row);
    Ok(())
}

/// Puts three dots in place of the first row beyond the limit.
#[inline(never)]
fn put_dots<D: Drain>(
    layout: Layout,
    is_first: bool,
    out: &mut Out<'_, D>,
) -> Result<(), WriteFault>
    ensures { Puts D.state out.old out.new
        (if is_first then inner_line layout (codes "...") else [])
        result }
{
    if !is_first {
        return Ok(());
    }
    out.make_room()?;
    write_dots(&mut out.held, layout);
    Ok(())
}

/// Adds the line of a row.
#[inline(always)]
fn write_line(held: &mut HeldOctets, form: &RowForm, row: &[u8])
    requires room { HasRoomFor held.old line_room }
    requires short { length row.now ≤ 64 }
    ensures { held.new ≡ held.old
        ++ inner_line form.now.layout (row_text_with form.now.with_text form.now.kind row.now) }
{
    held.spaces(row_indent(form.layout) - 1);
    write_row(held, form.kind, form.with_text, row);
    held.add(b"\n");
}

/// Adds the line of a full row of pairs of digits.
#[inline(always)]
fn write_pair_row_line<const WITH_TEXT: bool>(held: &mut HeldOctets, layout: Layout, row: &[u8; 16])
    requires { HasRoomFor held.old (row_indent layout + 68) }
    ensures { held.new ≡ held.old ++ pair_row_line WITH_TEXT layout row.now }
{
    // Each pair brings the space before it.
    held.spaces(row_indent(layout) - 1);
    write_full_row::<WITH_TEXT>(held, row);
    held.add(b"\n");
}

/// Adds the line of three dots.
fn write_dots(held: &mut HeldOctets, layout: Layout)
    requires { HasRoomFor held.old line_room }
    ensures { held.new ≡ held.old ++ inner_line layout (codes "...") }
{
    held.spaces(row_indent(layout));
    held.add(b"...\n");
}
