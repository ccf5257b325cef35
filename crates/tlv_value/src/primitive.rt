//! What a header says of a primitive.
ghost use Rattle.std.specs.Prelude.{◌≡◌, ◌<◌, ◌≤◌, ◌++◌, [], IsTrue, None, OnOk, length, true, ◌↔◌};
ghost use Rattle.tlv_io.specs.OutLimits.{line_room};
ghost use Rattle.tlv_io.specs.LineTexts.{AddsAtMost, HasRoomFor};
ghost use Rattle.tlv_io.specs.Out.{Puts, held_octets};
ghost use Rattle.tlv_value.specs.RowSizes.{row_size};
ghost use Rattle.tlv_value.specs.Private.PrimitiveLines.{bits_line, line_prefix};
ghost use Rattle.tlv_value.specs.Value.{most_not_long};
ghost use Rattle.tlv_value.specs.ValueTextState.{is_long_primitive, long_value_line, new_primitive, primitive_line};
ghost use Rattle.tlv_value.specs.ValueTextState.{primitive_lines};

use crate::known_texts::KnownTexts;
use crate::line_starts::begin_element;
use crate::quick_kind::quick_kind;
use crate::row_sizes::row_size;
use crate::value::{write_long_bits, write_long_value, write_undotted};
use crate::value_lines::{put_object, put_relative};
use crate::{Layout, NameTable};
use tlv_head::{Class, Header, Kind};
use tlv_io::{Drain, HeldOctets, Out, WriteFault};

/// What a header says of a primitive, and how its lines are laid out.
#[derive(Clone, Copy)]
pub(crate) struct Primitive {
    pub offset: u64,
    pub class: Class,
    pub number: u64,
    /// The number of its contents octets.
    pub size: u64,
    pub kind: Kind,
    pub layout: Layout,
    /// Whether text is shown beside pairs of digits.
    pub with_text: bool,
}

impl Primitive {
    /// The primitive with this header. If `with_text` is set, text is shown beside pairs of digits.
    #[inline(always)]
    pub fn new(header: &Header, layout: Layout, with_text: bool) -> Primitive
        ensures { result ≡ new_primitive with_text header.now layout }
    {
        Primitive {
            offset: header.offset,
            class: header.class,
            number: header.number,
            size: header.size.announced_length(),
            kind: quick_kind(header.class, header.number),
            layout,
            with_text,
        }
    }

    /// Whether it has too many contents octets to be shown on its line.
    #[inline(always)]
    pub fn is_long(&self) -> bool
        ensures { result ≡ is_long_primitive self.now }
    {
        let most = match self.kind {
            Kind::Octets | Kind::Boolean | Kind::Integer => 16,
            Kind::Bits => 9,
            _ => 64,
        };
        self.size > most
    }

    /// Whether its rows are pairs of digits, and the number of rows is not limited.
    #[inline(always)]
    pub fn has_unlimited_pairs(&self) -> bool
        ensures { IsTrue result
            ↔ ((row_size self.now.kind ≡ 16) × (self.now.layout.limit ≡ None)) }
    {
        row_size(self.kind) == 16 && self.layout.limit.is_none()
    }

    /// Begins its line, up to its tag text.
    #[inline(always)]
    fn write_prefix(&self, held: &mut HeldOctets)
        requires { HasRoomFor held.old 640 }
        ensures { AddsAtMost 593 held.old held.new (line_prefix self.now) }
    {
        begin_element(
            held,
            self.layout,
            self.offset,
            self.class,
            self.number,
            self.size,
        );
    }

    /// Adds its line without a value.
    #[inline(always)]
    fn write_bare_line(&self, held: &mut HeldOctets)
        requires { HasRoomFor held.old line_room }
        ensures { held.new ≡ held.old ++ primitive_line self.now [] }
    {
        self.write_prefix(held);
        held.add(b"\n");
    }

    /// Adds the line of a long BIT STRING, with the number of its bits.
    fn write_bits_line(&self, held: &mut HeldOctets, unused_bits: u8)
        requires room { HasRoomFor held.old line_room }
        requires long { 9 < self.now.size }
        ensures { held.new ≡ held.old ++ bits_line self.now unused_bits }
    {
        self.write_prefix(held);
        write_long_bits(held, self.size, unused_bits);
        held.add(b"\n");
    }

    /// Adds the line of a long value. The line of a BIT STRING has the number of its bits.
    #[inline(always)]
    fn write_long_line(&self, held: &mut HeldOctets, contents: &[u8])
        requires room { HasRoomFor held.old line_room }
        requires long { is_long_primitive self.now ≡ true }
        ensures { held.new ≡ held.old ++ long_value_line self.now contents.now }
    {
        self.write_prefix(held);
        write_long_value(held, self.kind, self.size, contents);
        held.add(b"\n");
    }

    /// Puts its line without a value.
    #[inline(always)]
    pub fn put_bare_line<D: Drain>(&self, out: &mut Out<'_, D>) -> Result<(), WriteFault>
        ensures { Puts D.state out.old out.new (primitive_line self.now []) result }
    {
        out.make_room()?;
        self.write_bare_line(&mut out.held);
        Ok(())
    }

    /// Puts the line of a long BIT STRING, with the number of its bits.
    pub fn put_bits_line<D: Drain>(
        &self,
        unused_bits: u8,
        out: &mut Out<'_, D>,
    ) -> Result<(), WriteFault>
        requires { 9 < self.now.size }
        ensures { Puts D.state out.old out.new (bits_line self.now unused_bits) result }
    {
        out.make_room()?;
        self.write_bits_line(&mut out.held, unused_bits);
        Ok(())
    }

    /// Puts the line of a long value. The line of a BIT STRING has the number of its bits.
    #[inline(always)]
    pub fn put_long_line<D: Drain>(
        &self,
        contents: &[u8],
        out: &mut Out<'_, D>,
    ) -> Result<(), WriteFault>
        requires { is_long_primitive self.now ≡ true }
        ensures { Puts D.state out.old out.new (long_value_line self.now contents.now) result }
    {
        out.make_room()?;
        self.write_long_line(&mut out.held, contents);
        Ok(())
    }

    /// Begins its line, up to its tag text, in the octets that an `Out` holds, and leaves room for the rest.
    #[inline(always)]
    fn put_prefix<D: Drain>(&self, out: &mut Out<'_, D>) -> Result<(), WriteFault>
        ensures puts { Puts D.state out.old out.new (line_prefix self.now) result }
        ensures room { OnOk result (HasRoomFor (held_octets out.new) 400) }
    {
        out.make_room()?;
        self.write_prefix(&mut out.held);
        Ok(())
    }

    /// Puts the lines of a primitive that is not long.
    #[inline(always)]
    pub fn put<N: NameTable, D: Drain>(
        &self,
        contents: &[u8],
        names: &N,
        known: &mut KnownTexts,
        out: &mut Out<'_, D>,
    ) -> Result<(), WriteFault>
        requires { length contents.now ≤ most_not_long self.now.kind }
        ensures { Puts D.state out.old out.new
            (primitive_lines (N.name_of names.now) self.now contents.now) result }
    {
        self.put_prefix(out)?;
        match self.kind {
            Kind::Object => put_object(self.layout, self.with_text, contents, names, known, out),
            Kind::Relative => put_relative(self.layout, self.with_text, contents, out),
            _ => {
                write_undotted(&mut out.held, self.kind, self.with_text, contents);
                out.held.add(b"\n");
                Ok(())
            }
        }
    }
}
