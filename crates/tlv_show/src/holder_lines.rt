//! The lines of a dump for elements that hold others, and for padding.
ghost use Rattle.std.specs.Prelude.{◌≡◌, ◌≤◌, ◌++◌, length};
ghost use Rattle.tlv_io.specs.LineTexts.{AddsAtMost, HasRoomFor};
ghost use Rattle.tlv_io.specs.Out.{Puts};
ghost use Rattle.tlv_value.specs.Layout.{columns, margin};
ghost use Rattle.tlv_show.specs.HolderLines.{closing_columns, closing_line, opening_line, padding_line, size_text};
ghost use Rattle.tlv_io.specs.OutLimits.{line_room, line_start_limit, line_start_room};

use tlv_head::{Header, Size};
use tlv_value::{Layout, begin_blank, begin_sized, begin_word, write_tag};
use tlv_walk::{Drain, HeldOctets, Out, WriteFault};

/// Puts the line of an element that holds others, with a word after its tag.
#[inline(always)]
pub(crate) fn put_opening<D: Drain>(
    layout: Layout,
    header: &Header,
    word: &[u8],
    out: &mut Out<'_, D>,
) -> Result<(), WriteFault>
    requires { length word.now ≤ 16 }
    ensures { Puts D.state out.old out.new (opening_line layout header.now word.now) result }
{
    out.make_room()?;
    write_opening(&mut out.held, layout, header, word);
    Ok(())
}

/// Puts the line of the end of an element that holds others, which has end-of-contents octets at this offset, or none.
#[inline(always)]
pub(crate) fn put_closing<D: Drain>(
    layout: Layout,
    offset: Option<u64>,
    out: &mut Out<'_, D>,
) -> Result<(), WriteFault>
    ensures { Puts D.state out.old out.new (closing_line layout offset) result }
{
    out.make_room()?;
    write_closing(&mut out.held, layout, offset);
    Ok(())
}

/// Puts the line of a run of padding.
pub(crate) fn put_padding<D: Drain>(
    layout: Layout,
    offset: u64,
    out: &mut Out<'_, D>,
) -> Result<(), WriteFault>
    ensures { Puts D.state out.old out.new (padding_line layout offset) result }
{
    out.make_room()?;
    write_padding(&mut out.held, layout, offset);
    Ok(())
}

/// Adds the line of an element that holds others, with a word after its tag.
#[inline(always)]
fn write_opening(held: &mut HeldOctets, layout: Layout, header: &Header, word: &[u8])
    requires room { HasRoomFor held.old line_room }
    requires short { length word.now ≤ 16 }
    ensures { held.new ≡ held.old ++ opening_line layout header.now word.now }
{
    begin_opening(held, layout, header.offset, header.size);
    write_tag(held, header.class, header.number);
    held.add(word);
    held.add(b"\n");
}

/// Begins a line with an offset and a length, or the word for the indefinite form.
#[inline(always)]
fn begin_opening(held: &mut HeldOctets, layout: Layout, offset: u64, size: Size)
    requires { HasRoomFor held.old line_start_room }
    ensures { AddsAtMost line_start_limit held.old held.new
        (margin layout (columns offset (size_text size))) }
{
    match size {
        Size::Definite(length) => begin_sized(held, layout, offset, length),
        Size::Indefinite => begin_word(held, layout, offset, b" indef"),
    }
}

/// Adds the line of the end of an element that holds others.
#[inline(always)]
fn write_closing(held: &mut HeldOctets, layout: Layout, offset: Option<u64>)
    requires { HasRoomFor held.old line_room }
    ensures { held.new ≡ held.old ++ closing_line layout offset }
{
    begin_closing(held, layout, offset);
    held.add(b"}\n");
}

/// Begins a line with an offset and the word for an end, or without an offset.
#[inline(always)]
fn begin_closing(held: &mut HeldOctets, layout: Layout, offset: Option<u64>)
    requires { HasRoomFor held.old line_start_room }
    ensures { AddsAtMost line_start_limit held.old held.new
        (margin layout (closing_columns offset)) }
{
    match offset {
        Some(offset) => begin_word(held, layout, offset, b"   end"),
        None => begin_blank(held, layout),
    }
}

/// Adds the line of a run of padding.
fn write_padding(held: &mut HeldOctets, layout: Layout, offset: u64)
    requires { HasRoomFor held.old line_room }
    ensures { held.new ≡ held.old ++ padding_line layout offset }
{
    begin_word(held, layout, offset, b"   pad");
    held.add(b"padding\n");
}
