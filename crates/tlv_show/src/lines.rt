//! The lines of a dump, except the lines of findings.
ghost use Rattle.std.specs.FinMap as finite;
ghost use Rattle.std.specs.Prelude.{◌≡◌, ◌≤◌, Bool, OnOk, false, length, true};
ghost use Rattle.tlv_walk.specs.Events.{Unused};
ghost use Rattle.tlv_walk.specs.Follow.{each_octet, HasEffect};
ghost use Rattle.tlv_io.specs.Out.{Puts};
ghost use Rattle.tlv_head.specs.Header.{HasAllContents};
ghost use Rattle.tlv_value.specs.TextBeside.{whole_lines_with};
ghost use Rattle.tlv_show.specs.Private.KeptLines.{kept_after_header, lines_if};
ghost use Rattle.tlv_show.specs.Private.LinesStep.{lines_after_primitive};
ghost use Rattle.tlv_show.specs.LinesStep.{lines_begin_step, lines_close_step, lines_end_step};
ghost use Rattle.tlv_show.specs.LinesStep.{lines_octet_step, lines_open_step, lines_padding_step, lines_step};
ghost use Rattle.tlv_show.specs.LinesStep.{new_lines};
ghost use Rattle.tlv_show.specs.Texts.{layout_at};

use crate::FiniteNames;
use crate::finding_lines::Style;
use crate::holder_lines::{put_closing, put_opening, put_padding};
use std::marker::Model;
use tlv_head::Header;
use tlv_value::{KnownTexts, Layout, ValueText, put_whole_with};
use tlv_walk::{Drain, Out, WriteFault};

/// Writes the lines that each event allows. An element that holds others has a line with its header and a line with
/// its end; the lines of a primitive come as [`ValueText`] writes them.
///
/// A [`Finder`](crate::finder::Finder) knows how many elements are open, and whether a primitive is. So this is not kept
/// here too: calls are given the level of an element, which is the number of elements that hold it.
#[derive(Drop)]
pub(crate) struct Lines<'n, N: FiniteNames> {
    /// How lines are laid out. Each line has its own level.
    layout: Layout,
    /// Whether text is shown beside pairs of digits.
    with_text: bool,
    names: &'n N,
    /// Kept, so that the text of an object identifier that comes again is not made again.
    known: KnownTexts,
    /// The offset of the next octet.
    offset: u64,
    /// Whether the last octets were padding.
    in_padding: bool,
    /// The text of the open primitive, or of the last one.
    text: ValueText,
}

impl<'n, N: FiniteNames> Model for Lines<'n, N> {
    ghost use Rattle.std.specs.Coded.{codes};
    ghost use Rattle.tlv_show.specs.Private.KeptLines.{KeptLines};
    ghost use Rattle.tlv_value.specs.Names.{table_code};

    ghost Value = { KeptLines };

    ghost coded = { Prim.hlevel (codes, table_code) };

    ghost view = { λ d. record {
      layout = d.layout;
      with_text = d.with_text;
      names = N.table d.names.now;
      offset = d.offset;
      in_padding = d.in_padding;
      text = d.text;
    } };
}

impl<'n, N: FiniteNames> Lines<'n, N> {
    /// The lines of a dump in this layout, before the first line. `with_text` asks for text beside pairs of digits.
    pub fn new(layout: Layout, with_text: bool, names: &'n N) -> Lines<'n, N>
        ensures { lines_if false result ≡ new_lines with_text layout (N.table names.now) }
    {
        Lines {
            layout,
            with_text,
            names,
            known: KnownTexts::new(),
            offset: 0,
            in_padding: false,
            text: ValueText::idle(),
        }
    }

    /// How findings between the lines are written.
    pub fn style(&self) -> Style
        ensures { result ≡ Style.Dump self.now.layout.pure }
    {
        Style::Dump {
            pure: self.layout.pure,
        }
    }

    /// The layout of the lines of an element at this level.
    #[inline(always)]
    fn layout_at(&self, level: u8) -> Layout
        ensures { result ≡ layout_at self.now.layout level }
    {
        Layout {
            level,
            limit: self.layout.limit,
            pure: self.layout.pure,
        }
    }

    /// The count of unused bits of a BIT STRING that holds encodings: it has no line.
    #[inline(always)]
    pub fn unused(&mut self)
        ensures { (is_open : Bool)
            → lines_if is_open self.new ≡ (lines_step 0 (lines_if is_open self.old) Unused).state }
    {
        self.offset = self.offset.saturating_add(1);
    }

    /// An element begins: padding ends, and its contents are after its header.
    #[inline(always)]
    fn set_after_header(&mut self, header: &Header)
        ensures { self.new ≡ kept_after_header self.old header.now }
    {
        self.offset = header.offset.saturating_add(header.raw().len() as u64);
        self.in_padding = false;
    }

    /// An element that holds others begins.
    #[inline(always)]
    pub fn open<D: Drain>(
        &mut self,
        level: u8,
        header: &Header,
        word: &[u8],
        out: &mut Out<'_, D>,
    ) -> Result<(), WriteFault>
        requires { length word.now ≤ 16 }
        ensures { (is_open : Bool)
            → HasEffect D.state (lines_open_step level (lines_if is_open self.old) header.now word.now)
            out.old out.new (lines_if is_open self.new) result }
    {
        put_opening(self.layout_at(level), header, word, out)?;
        self.set_after_header(header);
        Ok(())
    }

    /// An element that holds others ends: `offset` is where its end-of-contents octets are, if it has them.
    pub fn close<D: Drain>(
        &mut self,
        level: u8,
        offset: Option<u64>,
        out: &mut Out<'_, D>,
    ) -> Result<(), WriteFault>
        ensures { (is_open : Bool)
            → HasEffect D.state (lines_close_step level (lines_if is_open self.old) offset)
            out.old out.new (lines_if is_open self.new) result }
    {
        if let Some(offset) = offset {
            self.offset = offset.saturating_add(2);
        }
        put_closing(self.layout_at(level), offset, out)
    }

    /// A primitive begins.
    #[inline(always)]
    pub fn begin<D: Drain>(
        &mut self,
        level: u8,
        header: &Header,
        out: &mut Out<'_, D>,
    ) -> Result<(), WriteFault>
        ensures { (was_open : Bool)
            → HasEffect D.state (lines_begin_step level (lines_if was_open self.old) header.now)
            out.old out.new (lines_if true self.new) result }
    {
        self.set_after_header(header);
        self.text = ValueText::new_with(header, self.layout_at(level), self.with_text);
        self.text.begin(out)
    }

    /// Contents of a primitive go on, if it is open.
    #[inline(always)]
    pub fn bytes<D: Drain>(
        &mut self,
        is_open: bool,
        octets: &[u8],
        out: &mut Out<'_, D>,
    ) -> Result<(), WriteFault>
        ensures { HasEffect D.state (each_octet lines_octet_step (lines_if is_open self.old) octets.now)
            out.old out.new (lines_if is_open self.new) result }
    {
        if octets.is_empty() {
            return Ok(());
        }
        self.offset = self.offset.saturating_add(octets.len() as u64);
        put_bytes(is_open, &mut self.text, octets, out)
    }

    /// A primitive ends, if it is open.
    pub fn end<D: Drain>(&mut self, is_open: bool, out: &mut Out<'_, D>) -> Result<(), WriteFault>
        ensures state { lines_if false self.new ≡ (lines_end_step (lines_if is_open self.old)).state }
        ensures puts { Puts D.state out.old out.new (lines_end_step (lines_if is_open self.old)).put result }
    {
        put_end(is_open, &mut self.text, self.names, &mut self.known, out)
    }

    /// A primitive begins, has all of these contents, and ends. Its lines are written in one step, and nothing is
    /// kept of it: no contents are copied, and its type is looked up once, not again for its contents and its end.
    #[inline(always)]
    pub fn whole<D: Drain>(
        &mut self,
        level: u8,
        header: &Header,
        contents: &[u8],
        out: &mut Out<'_, D>,
    ) -> Result<(), WriteFault>
        requires { HasAllContents header.now contents.now }
        ensures state { (was_open : Bool)
            → lines_if false self.new
            ≡ lines_after_primitive (lines_if was_open self.old) header.now contents.now }
        ensures puts { Puts D.state out.old out.new
            (whole_lines_with self.old.with_text (finite.get self.old.names) header.now
            (layout_at self.old.layout level) contents.now) result }
    {
        // One sum, and not two, since each asks whether the largest number is reached.
        let octets = header.raw().len() + contents.len();
        self.offset = header.offset.saturating_add(octets as u64);
        self.in_padding = false;
        put_whole_with(
            header,
            self.layout_at(level),
            self.with_text,
            contents,
            self.names,
            &mut self.known,
            out,
        )
    }

    /// Padding goes on. A run of it has one line, which comes with its first octet.
    #[inline(never)]
    pub fn pad<D: Drain>(
        &mut self,
        level: u8,
        octets: &[u8],
        out: &mut Out<'_, D>,
    ) -> Result<(), WriteFault>
        ensures { (is_open : Bool)
            → HasEffect D.state
            (each_octet (lines_padding_step level) (lines_if is_open self.old) octets.now)
            out.old out.new (lines_if is_open self.new) result }
    {
        if octets.is_empty() {
            return Ok(());
        }
        let offset = self.offset;
        self.offset = offset.saturating_add(octets.len() as u64);
        if self.in_padding {
            return Ok(());
        }
        self.in_padding = true;
        put_padding(self.layout_at(level), offset, out)
    }
}

ghost use Rattle.tlv_show.specs.LinesStep.{open_text_after, open_text_lines, open_text_end_lines};
ghost use Rattle.tlv_show.specs.Private.IfOpen.{if_open};

/// Puts the lines that more contents octets of the open primitive make known. Puts nothing for octets after the
/// announced ones.
fn put_bytes<D: Drain>(
    is_open: bool,
    text: &mut ValueText,
    octets: &[u8],
    out: &mut Out<'_, D>,
) -> Result<(), WriteFault>
    ensures state { OnOk result
        (if_open is_open text.new ≡ open_text_after (if_open is_open text.old) octets.now) }
    ensures puts { Puts D.state out.old out.new
        (open_text_lines (if_open is_open text.old) octets.now) result }
{
    if !is_open {
        return Ok(());
    }
    let count = text.left().min(octets.len() as u64) as usize;
    text.bytes(&octets[..count], out)
}

/// Puts the lines that come with the end of the open primitive, if all its contents octets have come.
fn put_end<N: FiniteNames, D: Drain>(
    is_open: bool,
    text: &mut ValueText,
    names: &N,
    known: &mut KnownTexts,
    out: &mut Out<'_, D>,
) -> Result<(), WriteFault>
    ensures { Puts D.state out.old out.new
        (open_text_end_lines (N.table names.now) (if_open is_open text.old)) result }
{
    if !is_open || text.left() != 0 {
        return Ok(());
    }
    text.end_with(names, known, out)
}
