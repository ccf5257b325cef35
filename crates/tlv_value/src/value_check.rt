//! The findings on the contents of a primitive.
ghost use Rattle.std.specs.Prelude.{◌≡◌, ◌+◌, ◌≤◌, ◌&&◌, ℕ, List, length, slice_index};
ghost use Rattle.std.specs.List.{filter};
ghost use Rattle.tlv_head.specs.Header.{HasAllContents, HeaderValue, announced_length};
ghost use Rattle.tlv_value.specs.ValueCheckState.{value_check_after, value_check_for, findings_in, has_unused_bits};
ghost use Rattle.tlv_value.specs.ValueCheckState.{new_value_check, new_value_check_of};
ghost use Rattle.tlv_value.specs.ValueCheckState.{type_number, with_each_noted, with_first_noted};
ghost use Rattle.tlv_value.specs.ValueCheckState.{with_iri_noted, with_units_noted};
ghost use Rattle.tlv_value.specs.Checks.{findings_by, is_padded_integer, listed_contents_conditions};
ghost use Rattle.tlv_value.specs.AllChecks.{all_contents_findings, is_listed};

mod characters;
mod findings;
mod notes;
mod units;
mod utf8_rows;

use crate::Finding;
use crate::real::RealCheck;
use arrayvec::ArrayVec;
pub use characters::are_allowed;
pub(crate) use findings::is_any_set;
use notes::{
    has_empty_label_with, is_padded_with, note_time, notes_each, notes_first, notes_iri,
    notes_time, notes_units,
};
pub(crate) use notes::{has_empty_label_after, is_padded_after, last_octet};
use std::marker::Model;
use tlv_head::{Class, Header, universal};
pub(crate) use units::{are_characters_of_four, are_characters_of_two};
use units::{character_size, take_units};
pub(crate) use utf8_rows::is_utf8;
use utf8_rows::take_rows;

/// Finds what is wrong with the contents of a primitive, in whatever pieces they come.
#[derive(Drop)]
pub struct ValueCheck {
    /// The universal number of its type.
    number: u64,
    size: u64,
    /// The number of octets still to come.
    left: u64,
    /// The first two octets, if the type asks for them, and how many of them have come.
    first: u8,
    second: u8,
    known: u8,
    /// The last octet, if the type asks for it; 0 before the first.
    last: u8,
    /// Whether the type allows each octet.
    are_octets_allowed: bool,
    /// Whether a subidentifier begins with `80`.
    is_padded: bool,
    /// Whether the rows of a UTF8String, OID-IRI or RELATIVE-OID-IRI that were full are well-formed.
    are_full_rows_utf8: bool,
    /// Whether a label of an OID-IRI or RELATIVE-OID-IRI, between two octets `/`, is empty.
    has_empty_label: bool,
    /// Whether the units of a BMPString or UniversalString that were whole are characters.
    are_characters: bool,
    /// The octets of the row that has begun.
    row: ArrayVec<u8, 64>,
    /// The first octets of a time or date.
    time: ArrayVec<u8, 64>,
    /// The octets of the unit that has begun.
    unit: ArrayVec<u8, 4>,
    /// What is known of a REAL.
    real: RealCheck,
}

impl Model for ValueCheck {
    ghost use Rattle.tlv_value.specs.ValueCheckState.{ValueCheckState};

    ghost Value = { ValueCheckState };

    ghost use Rattle.tlv_value.specs.ValueCheckFields.{value_check_state_of, ValueCheckFieldsAgree};

    ghost view = { value_check_state_of };

    ghost invariant = { ValueCheckFieldsAgree };
}

impl ValueCheck {
    /// A check of the primitive with this header, before its first contents octet.
    pub fn new(header: &Header) -> ValueCheck
        ensures { result ≡ new_value_check header.now }
    {
        ValueCheck::of_type(type_number(header), header.size.announced_length())
    }

    /// A check of a primitive of the universal type with this number and `size` contents octets, before the first.
    pub fn of_type(number: u64, size: u64) -> ValueCheck
        ensures { result ≡ new_value_check_of number size }
    {
        ValueCheck {
            number,
            size,
            left: size,
            first: 0,
            second: 0,
            known: 0,
            last: 0,
            are_octets_allowed: true,
            is_padded: false,
            are_full_rows_utf8: true,
            has_empty_label: false,
            are_characters: true,
            row: ArrayVec::new(),
            time: ArrayVec::new(),
            unit: ArrayVec::new(),
            real: RealCheck::new(),
        }
    }

    /// Begins anew, for the primitive with this header.
    #[inline(always)]
    pub fn restart(&mut self, header: &Header)
        ensures { self.new ≡ new_value_check header.now }
    {
        let size = header.size.announced_length();
        self.number = type_number(header);
        self.size = size;
        self.left = size;
        self.known = 0;
        self.last = 0;
        self.are_octets_allowed = true;
        self.is_padded = false;
        self.are_full_rows_utf8 = true;
        self.has_empty_label = false;
        self.are_characters = true;
        self.real = RealCheck::new();
        if !self.unit.is_empty() {
            self.unit.clear();
        }
        if !self.row.is_empty() {
            self.row.clear();
        }
        if !self.time.is_empty() {
            self.time.clear();
        }
    }

    /// The number of contents octets still to come.
    pub fn left(&self) -> u64
        ensures { result ≡ self.now.left }
    {
        self.left
    }

    /// The number of contents octets of the primitive.
    pub fn size(&self) -> u64
        ensures { result ≡ self.now.size }
    {
        self.size
    }

    /// Whether it is a BIT STRING whose first contents octet has come and is not `00` (8.6.2.2).
    pub fn has_unused_bits(&self) -> bool
        ensures { result ≡ has_unused_bits self.now }
    {
        self.number == universal::BIT_STRING && self.known != 0 && self.first != 0
    }

    /// Takes more contents octets.
    #[inline(always)]
    pub fn bytes(&mut self, octets: &[u8])
        requires { length octets.now ≤ self.old.left }
        ensures state { self.new ≡ value_check_after self.old octets.now }
        ensures left { self.new.left + length octets.now ≡ self.old.left }
    {
        self.left -= octets.len() as u64;
        if notes_first(self.number) {
            self.note_first(octets);
        } else if notes_each(self.number) {
            self.note_each(octets);
        } else if notes_time(self.number) {
            note_time(&mut self.time, octets);
        } else if notes_units(self.number) {
            self.note_units(octets);
        } else if notes_iri(self.number) {
            self.note_iri(octets);
        } else if self.number == universal::REAL {
            self.real = self.real.after(octets);
        }
    }

    /// Notes the first two of the octets, and the last one.
    #[inline(always)]
    fn note_first(&mut self, octets: &[u8])
        ensures { self.new ≡ with_first_noted self.old octets.now }
    {
        match octets {
            [] => {}
            [first, rest @ ..] => {
                if self.known == 0 {
                    self.known = 1;
                    self.first = *first;
                    if let [second, ..] = rest {
                        self.known = 2;
                        self.second = *second;
                    }
                } else if self.known == 1 {
                    self.known = 2;
                    self.second = *first;
                }
            }
        }
        self.last = last_octet(self.last, octets);
    }

    /// Notes what must be known of each of the octets.
    #[inline(always)]
    fn note_each(&mut self, octets: &[u8])
        ensures { self.new ≡ with_each_noted self.old octets.now }
    {
        match self.number {
            universal::OBJECT_IDENTIFIER | universal::RELATIVE_OID => {
                self.is_padded = is_padded_with(self.is_padded, self.last, octets);
            }
            universal::UTF8_STRING => {
                self.are_full_rows_utf8 = both(
                    self.are_full_rows_utf8,
                    take_rows(&mut self.row, octets),
                );
            }
            _ => self.are_octets_allowed = both(
                self.are_octets_allowed,
                are_allowed(self.number, octets),
            ),
        }
        self.last = last_octet(self.last, octets);
    }

    /// Notes whether each unit of the octets is a character.
    fn note_units(&mut self, octets: &[u8])
        ensures { self.new ≡ with_units_noted self.old octets.now }
    {
        let size = character_size(self.number);
        self.are_characters = both(
            self.are_characters,
            take_units(size, &mut self.unit, octets),
        );
    }

    /// Notes the first octets of an OID-IRI or RELATIVE-OID-IRI and the last one, whether a label is empty, and whether
    /// its rows are UTF-8.
    fn note_iri(&mut self, octets: &[u8])
        ensures { self.new ≡ with_iri_noted self.old octets.now }
    {
        self.has_empty_label = has_empty_label_with(self.has_empty_label, self.last, octets);
        self.note_first(octets);
        self.are_full_rows_utf8 = both(self.are_full_rows_utf8, take_rows(&mut self.row, octets));
    }

    /// The listed findings on the contents, in order: those of BER, DER and CER together. The caller leaves out those
    /// that its rules do not have.
    pub fn end(&self) -> ArrayVec<Finding, 16>
        requires { self.now.left ≡ 0 }
        ensures found { result.items ≡ filter is_listed (findings_in self.now) }

        // In other words: the listed findings on c, if c is all contents of the primitive with the header h.
        ensures all_contents { (h : HeaderValue) (c : List ℕ)
            → self.now ≡ value_check_for h c
            → HasAllContents h c
            → result.items ≡ findings_by (listed_contents_conditions h c) }
    {
        let mut listed = ArrayVec::new();
        for finding in self.findings().as_slice() {
            if finding.is_listed() {
                listed.push(*finding);
            }
        }
        listed
    }

    /// All findings on the contents, listed or not, in the same order.
    #[inline(always)]
    pub fn end_with_all(&self) -> ArrayVec<Finding, 16>
        requires { self.now.left ≡ 0 }
        ensures found { result.items ≡ findings_in self.now }

        // In other words: the findings on c, if c is all contents of the primitive with the header h.
        ensures all_contents { (h : HeaderValue) (c : List ℕ)
            → self.now ≡ value_check_for h c
            → HasAllContents h c
            → result.items ≡ all_contents_findings h c }
    {
        self.findings()
    }

    /// The first octet, if the type asks for it; 0 before the first.
    #[inline(always)]
    fn first_octet(&self) -> u8
        ensures { result ≡ slice_index self.now.first_octets 0 }
    {
        if self.known == 0 { 0 } else { self.first }
    }

    /// Whether the first nine bits of a number are all equal (8.3.2).
    #[inline(always)]
    fn is_padded_integer(&self) -> bool
        ensures { result ≡ is_padded_integer self.now.first_octets }
    {
        if self.known < 2 {
            return false;
        }
        match self.first {
            0 => self.second < 128,
            255 => self.second >= 128,
            _ => false,
        }
    }
}

/// The universal number of the type. For another class, the number of OCTET STRING, whose contents have no findings.
#[inline(always)]
fn type_number(header: &Header) -> u64
    ensures { result ≡ type_number header.now }
{
    if matches!(header.class, Class::Universal) {
        header.number
    } else {
        universal::OCTET_STRING
    }
}

fn both(first: bool, second: bool) -> bool
    ensures { result ≡ (first && second) }
{
    first && second
}
