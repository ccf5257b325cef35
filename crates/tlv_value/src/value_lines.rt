//! Puts the rest of lines, after the tag texts, to an [`Out`].
ghost use Rattle.std.specs.Prelude.{◌≤◌, ◌++◌, codes, false, length, true};
ghost use Rattle.tlv_io.specs.LineTexts.{HasRoomFor};
ghost use Rattle.tlv_io.specs.Out.{Puts, held_octets};
ghost use Rattle.tlv_value.specs.Private.ObjectLines.{object_lines, octets_lines};
ghost use Rattle.tlv_value.specs.Value.{no_names};

mod row_lines;

use crate::dotted_texts::write_dotted;
use crate::known_texts::KnownTexts;
use crate::pairs::write_pairs;
use crate::{Layout, NameTable};
use row_lines::put_all_rows;
pub(crate) use row_lines::{put_last, put_pair_rows, put_rows};
use tlv_io::{Drain, Out, WriteFault};

/// Puts the rest of the lines of an object identifier: its dotted text, with its name if it has one, or its octets.
pub(crate) fn put_object<N: NameTable, D: Drain>(
    layout: Layout,
    with_text: bool,
    contents: &[u8],
    names: &N,
    known: &mut KnownTexts,
    out: &mut Out<'_, D>,
) -> Result<(), WriteFault>
    requires room { HasRoomFor (held_octets out.old) 400 }
    requires short { length contents.now ≤ 64 }
    ensures { Puts D.state out.old out.new
        (object_lines with_text (N.name_of names.now) layout false contents.now) result }
{
    let start = out.held.len() + 1;
    if !known.write_dotted(&mut out.held, contents) {
        return put_octets(layout, with_text, contents, out);
    }
    match names.get(&out.held.as_slice()[start..]) {
        Some(name) => put_name(name, out),
        None => {
            out.held.add(b"\n");
            Ok(())
        }
    }
}

/// Puts a name, which may be of any length, and ends the line.
fn put_name<D: Drain>(name: &[u8], out: &mut Out<'_, D>) -> Result<(), WriteFault>
    requires { HasRoomFor (held_octets out.old) 2 }
    ensures { Puts D.state out.old out.new ((codes " (" ++ name.now) ++ codes ")\n") result }
{
    out.held.add(b" (");
    out.put(name)?;
    out.put(b")\n")
}

/// Puts the rest of the lines of a relative object identifier: its dotted text, or its octets.
pub(crate) fn put_relative<D: Drain>(
    layout: Layout,
    with_text: bool,
    contents: &[u8],
    out: &mut Out<'_, D>,
) -> Result<(), WriteFault>
    requires room { HasRoomFor (held_octets out.old) 400 }
    requires short { length contents.now ≤ 64 }
    ensures { Puts D.state out.old out.new
        (object_lines with_text no_names layout true contents.now) result }
{
    if !write_dotted(&mut out.held, contents, true) {
        return put_octets(layout, with_text, contents, out);
    }
    out.held.add(b"\n");
    Ok(())
}

/// Puts the rest of the lines of up to 64 octets: they are on the line, or in rows below it.
#[inline(never)]
fn put_octets<D: Drain>(
    layout: Layout,
    with_text: bool,
    contents: &[u8],
    out: &mut Out<'_, D>,
) -> Result<(), WriteFault>
    requires room { HasRoomFor (held_octets out.old) 400 }
    requires short { length contents.now ≤ 64 }
    ensures { Puts D.state out.old out.new (octets_lines with_text layout contents.now) result }
{
    if contents.len() <= 16 {
        write_pairs(&mut out.held, with_text, contents);
        out.held.add(b"\n");
        return Ok(());
    }
    out.held.add(b"\n");
    put_all_rows(layout, with_text, contents, out)
}
