//! The findings in elements, event by event.
ghost use Rattle.std.specs.Option.{is_some};
ghost use Rattle.std.specs.Prelude.{◌≡◌, ◌||◌};
ghost use Rattle.tlv_head.specs.Header.{HasAllContents, octets_of};
ghost use Rattle.tlv_show.specs.FinderState.{finder_in_primitive, finder_begin_step, finder_bytes_step};
ghost use Rattle.tlv_show.specs.FinderState.{finder_close_step, finder_end_step, finder_open_step};
ghost use Rattle.tlv_show.specs.FinderState.{end_findings_with, offset_at_end, with_findings};
ghost use Rattle.tlv_show.specs.NestingState.{depth_in};
ghost use Rattle.tlv_show.specs.Private.Suits.{Suits};
ghost use Rattle.tlv_show.specs.Private.FinderState.{PassesOrStays, ReturnsFindings};
ghost use Rattle.tlv_show.specs.Private.FinderState.{new_finder, with_check_state};

mod headers;

use crate::Wanted;
use crate::contents_findings::add_findings_at_end;
use crate::header_findings::{
    add_end_findings, has_no_header_findings, has_no_header_findings_if_usual, is_only_indefinite,
};
use crate::holder_frame::{HolderFrame, top_frame};
use crate::last_findings::LastFindings;
use crate::nesting::Nesting;
use crate::order_finding::{insert_character_finding, insert_order_finding};
use crate::segment_characters::SegmentCharacters;
use crate::set_order::SetOrder;
use crate::wanted_order::{
    begin_in_order, bytes_in_order, close_in_order, end_in_order, open_in_order, passes_in_order,
};
use crate::wanted_strings::{
    begin_in_strings, bytes_in_strings, close_in_strings, end_in_strings, open_in_strings,
    passes_in_strings,
};
use arrayvec::ArrayVec;
use std::marker::Model;
use tlv_head::Header;
use tlv_value::{ValueCheck, is_clear};

/// Finds what violates the rules, event by event. It keeps what it must know of the open elements that hold others,
/// and of the open primitive. `TRACKED` says what may be wanted; the code for all else is not there:
///
/// - 0: the listed findings alone.
/// - 1: the characters of segments too.
/// - 128: the order of SETs too. There is room for so many frames of open SETs.
#[derive(Drop)]
pub(crate) struct Finder<const TRACKED: usize> {
    wanted: Wanted,
    /// What must be known of the open elements that hold others.
    holders: Nesting,
    /// The offset of the open primitive.
    offset: u64,
    is_open: bool,
    /// What is kept of the open primitive, or of the last one. It is reused for the next primitive, so that its room
    /// is not filled again each time.
    check: ValueCheck,
    /// What must be known of the open SETs, if their order is wanted.
    order: SetOrder<TRACKED>,
    /// What must be known of the open strings, if the characters of their segments are wanted.
    strings: SegmentCharacters,
    /// The number of findings so far.
    finding_count: u64,
    /// The findings of the last event that may have had some. They are kept here so that nothing is moved if there
    /// are no findings.
    last: LastFindings,
}

impl<const TRACKED: usize> Model for Finder<TRACKED> {
    ghost use Rattle.tlv_show.specs.FinderState.{FinderState};
    ghost use Rattle.tlv_show.specs.Private.IfOpen.{if_open};
    ghost use Rattle.tlv_show.specs.Private.Suits.{Suits};

    ghost Value = { FinderState };

    ghost view = { λ f. record {
      kept = record {
        wanted = f.wanted;
        holders = f.holders;
        open_primitive = if_open f.is_open (record { offset = f.offset; check = f.check });
        seen = record { order = f.order; strings = f.strings };
        finding_count = f.finding_count;
      };
      level = f.last.level;
      offset = f.last.offset;
      findings = f.last.findings.items;
    } };

    ghost invariant = { λ f. Suits TRACKED f.wanted };
}

impl<const TRACKED: usize> Finder<TRACKED> {
    /// A finder before its first event.
    pub fn new(wanted: Wanted) -> Finder<TRACKED>
        requires { Suits TRACKED wanted }
        ensures { result ≡ new_finder wanted }
    {
        Finder {
            wanted,
            holders: Nesting::new(),
            offset: 0,
            is_open: false,
            check: ValueCheck::of_type(0, 0),
            order: SetOrder::new(),
            strings: SegmentCharacters::new(),
            finding_count: 0,
            last: LastFindings {
                level: 0,
                offset: 0,
                findings: ArrayVec::new(),
            },
        }
    }

    /// The number of findings so far.
    pub fn finding_count(&self) -> u64
        ensures { result ≡ self.now.kept.finding_count }
    {
        self.finding_count
    }

    /// The number of open elements that hold others.
    #[inline(always)]
    pub fn level(&self) -> u8
        ensures { result ≡ depth_in self.now.kept.holders }
    {
        self.holders.depth()
    }

    /// Whether a primitive is open.
    #[inline(always)]
    pub fn is_open(&self) -> bool
        ensures { result ≡ is_some self.now.kept.open_primitive }
    {
        self.is_open
    }

    /// The findings of the last event that may have had some.
    #[inline(always)]
    pub fn last(&self) -> &LastFindings
        ensures level { result.now.level ≡ self.now.level }
        ensures offset { result.now.offset ≡ self.now.offset }
        ensures findings { result.now.findings.items ≡ self.now.findings }
    {
        &self.last
    }

    /// Takes a primitive whose contents are all available: its header, its contents and its end. Returns whether a
    /// short look shows that it has no findings. If it may have findings, takes nothing.
    #[inline(always)]
    pub fn passes(&mut self, header: &Header, contents: &[u8]) -> bool
        requires { HasAllContents header.now contents.now }
        ensures { PassesOrStays self.old self.new header.now contents.now result }
    {
        let frame = self.holders.frame();
        // The type is looked up once: `is_clear` shows that it has primitives. The caller need not know the form; the
        // check costs nothing if the compiler knows it.
        if header.constructed
            || !has_no_header_findings_if_usual(self.wanted.rules, frame, header)
            || !is_clear(header, contents)
            || !passes_in_order::<TRACKED>(&self.order, self.wanted)
            || !passes_in_strings::<TRACKED>(&self.strings, self.wanted)
        {
            return false;
        }
        self.is_open = false;
        self.holders.note_element();
        true
    }

    /// Records the offset of a primitive, and that none of its contents has come.
    #[inline(always)]
    fn set_in_primitive(&mut self, header: &Header)
        ensures { self.new
            ≡ with_check_state (finder_in_primitive self.old.kept header.now) self.old }
    {
        self.offset = header.offset;
        self.is_open = true;
        self.check.restart(header);
        begin_in_order::<TRACKED>(&mut self.order, self.wanted, header, header.raw());
        begin_in_strings::<TRACKED>(&mut self.strings, self.wanted, header, header.raw());
    }

    /// An element that holds others begins, with a header of these octets. Returns whether there may be findings. If
    /// not, there are none, and the last findings are still the findings of an earlier event. The octets are an argument,
    /// since a header whose own are not used need not be made in memory.
    #[inline(always)]
    pub fn open(&mut self, header: &Header, octets: &[u8]) -> bool
        requires { octets.now ≡ octets_of header.now }
        ensures { ReturnsFindings (finder_open_step self.old.kept header.now) self.new result }
    {
        open_in_order::<TRACKED>(&mut self.order, self.wanted, header, octets);
        open_in_strings::<TRACKED>(&mut self.strings, self.wanted, header, octets);
        // Most such elements are not strings, and have no findings.
        if has_no_header_findings(self.wanted.rules, self.holders.frame(), header) {
            self.holders.open_without_frame(header);
            return false;
        }
        // Nor is an indefinite length rare, where it is a finding.
        if is_only_indefinite(self.wanted.rules, self.holders.frame(), header) {
            self.find_indefinite(header);
            self.holders.open_without_frame(header);
            return true;
        }
        self.find_with_header(header);
        self.holders.open(header);
        true
    }

    /// A primitive begins. There is no short look first: this primitive did not pass it, or comes in pieces.
    #[inline(always)]
    pub fn begin(&mut self, header: &Header)
        ensures { self.new ≡ finder_begin_step self.old.kept header.now }
    {
        self.find_with_header(header);
        self.set_in_primitive(header);
    }

    /// Contents of a primitive go on. Octets after the announced ones are not looked at.
    #[inline(always)]
    pub fn bytes(&mut self, octets: &[u8])
        ensures { self.new
            ≡ with_check_state (finder_bytes_step self.old.kept octets.now) self.old }
    {
        if self.is_open && !octets.is_empty() {
            let count = self.check.left().min(octets.len() as u64) as usize;
            self.check.bytes(&octets[..count]);
            bytes_in_order::<TRACKED>(&mut self.order, self.wanted, octets);
            bytes_in_strings::<TRACKED>(&mut self.strings, self.wanted, octets);
        }
    }

    /// A primitive ends. Returns whether there may be findings, as [`Finder::open`] does.
    #[inline(always)]
    pub fn end(&mut self) -> bool
        ensures { ReturnsFindings (finder_end_step self.old.kept) self.new result }
    {
        if !self.is_open {
            return false;
        }
        let check = &self.check;
        self.is_open = false;
        self.holders
            .primitive(check.size(), check.has_unused_bits());
        let is_out_of_order = end_in_order::<TRACKED>(&mut self.order, self.wanted);
        end_in_strings::<TRACKED>(&mut self.strings, self.wanted);
        if check.left() != 0 && !is_out_of_order {
            return false;
        }
        let level = self.holders.depth();
        self.last.restart(level, self.offset);
        add_findings_at_end(self.wanted, check, is_out_of_order, &mut self.last.findings);
        self.finding_count = self
            .finding_count
            .saturating_add(self.last.findings.len() as u64);
        true
    }

    /// An element that holds others ends, with end-of-contents octets or without them. Returns whether there may be
    /// findings, as [`Finder::open`] does.
    #[inline(always)]
    pub fn close(&mut self, has_end_octets: bool) -> bool
        ensures { ReturnsFindings (finder_close_step self.old.kept has_end_octets) self.new result }
    {
        if self.holders.depth() == 0 {
            return false;
        }
        let is_out_of_order = close_in_order::<TRACKED>(
            &mut self.order,
            self.wanted,
            has_end_octets,
        );
        let string = close_in_strings::<TRACKED>(&mut self.strings, self.wanted, has_end_octets);
        match self.holders.close() {
            Some(closed) => self.find_with_end(&closed, is_out_of_order, string),
            None => {
                if has_finding(is_out_of_order, string) {
                    self.find_with_end(&top_frame(), is_out_of_order, string)
                } else {
                    false
                }
            }
        }
    }

    /// Determines the findings of the end of an element that held segments or lacks components, or is out of order.
    /// Takes the offset of a string with wrong characters.
    #[inline(never)]
    fn find_with_end(
        &mut self,
        closed: &HolderFrame,
        is_out_of_order: bool,
        string: Option<u64>,
    ) -> bool
        ensures { ReturnsFindings
            (with_findings self.old.kept (depth_in self.old.kept.holders)
            (offset_at_end is_out_of_order self.old.kept.seen.order string closed.now)
            (end_findings_with self.old.kept.wanted is_out_of_order string closed.now))
            self.new result }
    {
        let offset = if is_out_of_order {
            self.order.offset()
        } else {
            string.unwrap_or(closed.offset)
        };
        self.last.restart(self.holders.depth(), offset);
        add_end_findings(self.wanted, closed, &mut self.last.findings);
        if string.is_some() {
            insert_character_finding(&mut self.last.findings);
        }
        if is_out_of_order {
            insert_order_finding(&mut self.last.findings);
        }
        self.finding_count = self
            .finding_count
            .saturating_add(self.last.findings.len() as u64);
        true
    }
}

/// Whether an element is out of order at its end, or a string with wrong characters, which begins at this offset.
#[inline(always)]
fn has_finding(is_out_of_order: bool, string: Option<u64>) -> bool
    ensures { result ≡ (is_out_of_order || is_some string) }
{
    is_out_of_order || string.is_some()
}
