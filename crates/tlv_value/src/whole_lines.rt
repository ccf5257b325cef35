//! The lines of a primitive whose contents are all available. If the value is on its line, or in rows of pairs of
//! digits without a limit, its lines are made in one step: no contents are copied, and the type is looked up once.
ghost use Rattle.std.specs.Prelude.{◌≡◌, ◌++◌, None, length, true};
ghost use Rattle.tlv_head.specs.Header.{HasAllContents};
ghost use Rattle.tlv_io.specs.Out.{Puts};
ghost use Rattle.tlv_value.specs.RowSizes.{row_size};
ghost use Rattle.tlv_value.specs.Private.PrimitiveLines.{lines_in_steps};
ghost use Rattle.tlv_value.specs.Rows.{rows_of};
ghost use Rattle.tlv_value.specs.Value.{row_octets};
ghost use Rattle.tlv_value.specs.ValueLines.{whole_lines};
ghost use Rattle.tlv_value.specs.TextBeside.{shown_row_lines_with, whole_lines_with};
ghost use Rattle.tlv_value.specs.ValueTextState.{is_long_primitive, long_value_line, new_value_text_of};

use crate::known_texts::KnownTexts;
use crate::primitive::Primitive;
use crate::value_lines::put_pair_rows;
use crate::{Layout, NameTable, ValueText};
use tlv_head::{Header, Kind};
use tlv_io::{Drain, Out, WriteFault};

/// Puts the lines of a primitive whose contents are all available: the lines that a [`ValueText`] puts for its
/// header, its contents and its end. They do not depend on what is `known`.
///
/// # Errors
///
/// `WriteFault` if and only if a write failed.
#[inline(always)]
pub fn put_whole<N: NameTable, D: Drain>(
    header: &Header,
    layout: Layout,
    contents: &[u8],
    names: &N,
    known: &mut KnownTexts,
    out: &mut Out<'_, D>,
) -> Result<(), WriteFault>
    requires { HasAllContents header.now contents.now }
    ensures { Puts D.state out.old out.new
        (whole_lines (N.name_of names.now) header.now layout contents.now) result }
{
    put_whole_with(header, layout, false, contents, names, known, out)
}

/// Like [`put_whole`], but with text beside pairs of digits if `with_text` is set, as in [`ValueText::new_with`].
///
/// # Errors
///
/// `WriteFault` if and only if a write failed.
#[inline(always)]
pub fn put_whole_with<N: NameTable, D: Drain>(
    header: &Header,
    layout: Layout,
    with_text: bool,
    contents: &[u8],
    names: &N,
    known: &mut KnownTexts,
    out: &mut Out<'_, D>,
) -> Result<(), WriteFault>
    requires { HasAllContents header.now contents.now }
    ensures { Puts D.state out.old out.new
        (whole_lines_with with_text (N.name_of names.now) header.now layout contents.now) result }
{
    let primitive = Primitive::new(header, layout, with_text);
    if primitive.is_long() {
        // A reference to a copy: a value on its line then stays in registers.
        let other = primitive;
        put_long_lines(&other, contents, names, known, out)
    } else {
        primitive.put(contents, names, known, out)
    }
}

/// Puts the lines of a primitive whose contents are too long for its line. It is a separate `cold` function, since
/// most values are on their line.
#[cold]
#[inline(never)]
fn put_long_lines<N: NameTable, D: Drain>(
    primitive: &Primitive,
    contents: &[u8],
    names: &N,
    known: &mut KnownTexts,
    out: &mut Out<'_, D>,
) -> Result<(), WriteFault>
    requires long { is_long_primitive primitive.now ≡ true }
    requires size { length contents.now ≡ primitive.now.size }
    ensures { Puts D.state out.old out.new
        (lines_in_steps (N.name_of names.now) (new_value_text_of primitive.now) contents.now)
        result }
{
    if primitive.has_unlimited_pairs() {
        put_pairs(primitive, contents, out)
    } else {
        put_in_steps(primitive, contents, names, known, out)
    }
}

/// Puts the lines of a primitive whose value is in rows of pairs of digits, straight from its contents. This avoids
/// the state of a [`ValueText`].
#[inline(always)]
fn put_pairs<D: Drain>(
    primitive: &Primitive,
    contents: &[u8],
    out: &mut Out<'_, D>,
) -> Result<(), WriteFault>
    requires pairs { row_size primitive.now.kind ≡ 16 }
    requires unlimited { primitive.now.layout.limit ≡ None }
    requires long { is_long_primitive primitive.now ≡ true }
    ensures { Puts D.state out.old out.new
        (long_value_line primitive.now contents.now
        ++ shown_row_lines_with primitive.now.with_text primitive.now.kind primitive.now.layout
        (rows_of primitive.now.kind (row_octets primitive.now.kind contents.now))) result }
{
    primitive.put_long_line(contents, out)?;
    let rows = row_octets(primitive.kind, contents);
    put_pair_rows(primitive.layout, primitive.with_text, rows, out)
}

/// The contents octets that are shown in rows: all, except the first octet of a BIT STRING if it can be read.
#[inline(always)]
fn row_octets(kind: Kind, contents: &[u8]) -> &[u8]
    ensures { result.now ≡ row_octets kind contents.now }
{
    match contents {
        [0..=7, rest @ ..] if matches!(kind, Kind::Bits) => rest,
        _ => contents,
    }
}

/// Puts the lines of a primitive whose contents are too long for its line, as a [`ValueText`] does.
#[inline(never)]
fn put_in_steps<N: NameTable, D: Drain>(
    primitive: &Primitive,
    contents: &[u8],
    names: &N,
    known: &mut KnownTexts,
    out: &mut Out<'_, D>,
) -> Result<(), WriteFault>
    requires { length contents.now ≡ primitive.now.size }
    ensures { Puts D.state out.old out.new
        (lines_in_steps (N.name_of names.now) (new_value_text_of primitive.now) contents.now)
        result }
{
    let mut text = ValueText::of(*primitive);
    text.begin(out)?;
    text.bytes(contents, out)?;
    text.end_with(names, known, out)
}
