//! The lines of a primitive, from its contents in pieces.
ghost use Rattle.std.specs.Prelude.{◌≡◌, ◌≤◌, ◌++◌, ◌∷◌, [], ℕ, Bool, List, length, OnOk};
ghost use Rattle.tlv_head.specs.Header.{HasAllContents, HeaderValue};
ghost use Rattle.tlv_io.specs.Out.{Puts};
ghost use Rattle.tlv_value.specs.Value.{row_octets};
ghost use Rattle.tlv_value.specs.TextBeside.{incomplete_lines_with, whole_lines_with};
ghost use Rattle.tlv_value.specs.ValueTextState.{begin_lines, contents_lines, end_lines, idle_value_text};
ghost use Rattle.tlv_value.specs.ValueTextState.{new_value_text, new_value_text_of, new_value_text_with};
ghost use Rattle.tlv_value.specs.ValueTextState.{PutsRest, value_text_after, value_text_for};

use crate::known_texts::KnownTexts;
use crate::primitive::Primitive;
use crate::row_form::RowForm;
use crate::value_lines::{put_last, put_rows};
use crate::{Layout, NameTable};
use arrayvec::ArrayVec;
use std::marker::Model;
use tlv_head::{Class, Header, Kind};
use tlv_io::{Drain, Out, WriteFault};

/// Begins the first row of a long BIT STRING: with the first contents octet, if that cannot be read.
fn begin_row(unused_bits: u8, row: &mut ArrayVec<u8, 64>)
    requires { row.old.items ≡ [] }
    ensures { row.new.items ≡ row_octets Kind.Bits (unused_bits ∷ []) }
{
    if unused_bits > 7 {
        row.push(unused_bits);
    }
}

/// Puts the lines of a primitive from its contents, in whatever pieces they come.
///
/// A value that fits on its element's line is kept until its last octet has come. The line of a long value is put
/// with the header (for a BIT STRING, with its first contents octet), and each row when it is full or with the last
/// octet. At most 64 octets are kept.
#[derive(Drop)]
pub struct ValueText {
    primitive: Primitive,
    /// The number of octets still to come.
    left: u64,
    /// Whether the line of a long value was put.
    has_put_line: bool,
    /// The number of rows that were full.
    row_count: u64,
    /// The octets of the row that has begun, or of a value that is not long.
    row: ArrayVec<u8, 64>,
}

impl Model for ValueText {
    ghost use Rattle.tlv_value.specs.ValueTextState.{ValueTextState};

    ghost Value = { ValueTextState };

    ghost use Rattle.tlv_value.specs.ValueTextFields.{ValueTextFieldsAgree, value_text_state_of};

    ghost view = { value_text_state_of };

    ghost invariant = { ValueTextFieldsAgree };
}

impl ValueText {
    /// The text of the primitive with this header, before its first contents octet.
    #[inline(always)]
    pub fn new(header: &Header, layout: Layout) -> ValueText
        ensures { result ≡ new_value_text header.now layout }
    {
        ValueText::new_with(header, layout, false)
    }

    /// Like `new`, but with text beside pairs of digits if `with_text` is set: if a value on its line, or a row, is
    /// shown as pairs and has three or more octets, all printable ASCII (20 to 7e), two spaces and these octets
    /// between bars follow it.
    #[inline(always)]
    pub fn new_with(header: &Header, layout: Layout, with_text: bool) -> ValueText
        ensures { result ≡ new_value_text_with with_text header.now layout }
    {
        ValueText::of(Primitive::new(header, layout, with_text))
    }

    /// The text of this primitive, before its first contents octet.
    #[inline(always)]
    pub(crate) fn of(primitive: Primitive) -> ValueText
        ensures { result ≡ new_value_text_of primitive }
    {
        ValueText {
            primitive,
            left: primitive.size,
            has_put_line: !matches!(primitive.kind, Kind::Bits),
            row_count: 0,
            row: ArrayVec::new(),
        }
    }

    /// A text for no primitive yet: as for an empty primitive at the top whose type is not universal.
    pub fn idle() -> ValueText
        ensures { result ≡ idle_value_text }
    {
        let primitive = Primitive {
            offset: 0,
            class: Class::Private,
            number: 0,
            size: 0,
            kind: Kind::Octets,
            layout: Layout {
                level: 0,
                limit: None,
                pure: false,
            },
            with_text: false,
        };
        ValueText {
            primitive,
            left: 0,
            has_put_line: true,
            row_count: 0,
            row: ArrayVec::new(),
        }
    }

    /// The number of contents octets still to come.
    pub fn left(&self) -> u64
        ensures { result ≡ self.now.left }
    {
        self.left
    }

    /// Puts the lines that are known with the header: the lines of its primitive before any contents.
    ///
    /// # Errors
    ///
    /// `WriteFault` if and only if a write failed.
    #[inline(always)]
    pub fn begin<D: Drain>(&self, out: &mut Out<'_, D>) -> Result<(), WriteFault>
        ensures puts { Puts D.state out.old out.new (begin_lines self.now) result }

        // In other words: the lines of the primitive with the header h, without contents.
        ensures lines { (with_text : Bool) (h : HeaderValue) (layout : Layout)
            → self.now ≡ new_value_text_with with_text h layout
            → Puts D.state out.old out.new (incomplete_lines_with with_text h layout []) result }
    {
        if !self.primitive.is_long() || !self.has_put_line {
            return Ok(());
        }
        self.primitive.put_bare_line(out)
    }

    /// Puts the lines that become known with more contents octets: what these octets add to the lines of the
    /// primitive with the contents before them.
    ///
    /// # Errors
    ///
    /// `WriteFault` if and only if a write failed.
    pub fn bytes<D: Drain>(&mut self, octets: &[u8], out: &mut Out<'_, D>) -> Result<(), WriteFault>
        requires { length octets.now ≤ self.old.left }
        ensures state { OnOk result (self.new ≡ value_text_after self.old octets.now) }
        ensures puts { Puts D.state out.old out.new (contents_lines self.old octets.now) result }

        // In other words: after the lines with the contents c, the rest of the lines with c and these octets.
        ensures lines { (with_text : Bool) (h : HeaderValue) (layout : Layout) (c : List ℕ)
            → self.old ≡ value_text_for with_text h layout c
            → PutsRest D.state out.old out.new
            (incomplete_lines_with with_text h layout c) (incomplete_lines_with with_text h layout (c ++ octets.now))
            result }
    {
        self.left -= octets.len() as u64;
        if !self.primitive.is_long() {
            let _ = self.row.try_extend_from_slice(octets);
            return Ok(());
        }
        let form = RowForm {
            kind: self.primitive.kind,
            layout: self.primitive.layout,
            with_text: self.primitive.with_text,
        };
        if self.has_put_line {
            return put_rows(&form, &mut self.row, &mut self.row_count, octets, out);
        }
        let Some((unused_bits, rest)) = octets.split_first() else {
            return Ok(());
        };
        self.has_put_line = true;
        begin_row(*unused_bits, &mut self.row);
        self.primitive.put_bits_line(*unused_bits, out)?;
        put_rows(&form, &mut self.row, &mut self.row_count, rest, out)
    }

    /// Puts the lines that become known with the last contents octet: the rest of the lines of the whole primitive,
    /// after the lines that were put before.
    ///
    /// # Errors
    ///
    /// `WriteFault` if and only if a write failed.
    pub fn end<N: NameTable, D: Drain>(
        &mut self,
        names: &N,
        out: &mut Out<'_, D>,
    ) -> Result<(), WriteFault>
        requires { self.old.left ≡ 0 }
        ensures state { self.new ≡ self.old }
        ensures puts { Puts D.state out.old out.new
            (end_lines (N.name_of names.now) self.old) result }

        // In other words: after the lines with c, all the contents, the rest of the lines of the whole primitive.
        ensures lines { (with_text : Bool) (h : HeaderValue) (layout : Layout) (c : List ℕ)
            → self.old ≡ value_text_for with_text h layout c
            → HasAllContents h c
            → PutsRest D.state out.old out.new
            (incomplete_lines_with with_text h layout c)
            (whole_lines_with with_text (N.name_of names.now) h layout c) result }
    {
        self.end_with(names, &mut KnownTexts::new(), out)
    }

    /// Like `end`, with the texts of object identifiers that were kept from values before. The lines do not depend on
    /// these.
    ///
    /// # Errors
    ///
    /// `WriteFault` if and only if a write failed.
    pub fn end_with<N: NameTable, D: Drain>(
        &mut self,
        names: &N,
        known: &mut KnownTexts,
        out: &mut Out<'_, D>,
    ) -> Result<(), WriteFault>
        requires { self.old.left ≡ 0 }
        ensures state { self.new ≡ self.old }
        ensures puts { Puts D.state out.old out.new
            (end_lines (N.name_of names.now) self.old) result }

        // In other words: after the lines with c, all the contents, the rest of the lines of the whole primitive.
        ensures lines { (with_text : Bool) (h : HeaderValue) (layout : Layout) (c : List ℕ)
            → self.old ≡ value_text_for with_text h layout c
            → HasAllContents h c
            → PutsRest D.state out.old out.new
            (incomplete_lines_with with_text h layout c)
            (whole_lines_with with_text (N.name_of names.now) h layout c) result }
    {
        let contents = self.row.as_slice();
        if self.primitive.is_long() {
            let form = RowForm {
                kind: self.primitive.kind,
                layout: self.primitive.layout,
                with_text: self.primitive.with_text,
            };
            return put_last(&form, self.row_count, contents, out);
        }
        self.primitive.put(contents, names, known, out)
    }
}
