//! The follower that lists what violates the rules.
ghost use Rattle.std.specs.Prelude.{◌≡◌, refl};
ghost use Rattle.tlv_head.specs.Header.{octets_of};
ghost use Rattle.tlv_walk.proofs.FollowerLemmas.FollowedEvents.{each_octet-goes_on, each_octet-joins};
ghost use Rattle.tlv_walk.specs.Events.{event_value_of};
ghost use Rattle.tlv_walk.specs.Follow.{HasEffect};
ghost use Rattle.tlv_show.specs.CheckStep.{check_octet_step, check_step, findings_effect};
ghost use Rattle.tlv_show.specs.FinderState.{finder_begin_step, finder_close_step, finder_end_step, finder_open_step};
ghost use Rattle.tlv_show.specs.FinderState.{new_check};
ghost use Rattle.tlv_show.specs.Private.Suits.{Suits};
ghost use Rattle.tlv_show.specs.ShownFindings.{listed_by};

use crate::contents::contents_in;
use crate::finder::Finder;
use crate::finding_lines::{Style, put_findings};
use crate::{Rules, Wanted};
use std::marker::Model;
use tlv_head::{Header, HeaderFields};
use tlv_walk::{Drain, Event, Follow, Go, Out, WriteFault};

/// Lists what violates the rules, a line for each finding: the offset of the element, the code, and the text. A
/// finding comes with the event that shows it: a header, the end of a primitive, or the end of an element that holds
/// others. If `TRACKED` is 0, these are the listed findings; if it is 128, those that are wanted.
#[derive(Drop)]
pub struct Check<const TRACKED: usize> {
    finder: Finder<TRACKED>,
}

impl<const TRACKED: usize> Model for Check<TRACKED> {
    ghost use Rattle.tlv_show.specs.FinderState.{CheckState};

    ghost Value = { CheckState };

    ghost view = { λ c. c.finder.kept };
}

impl Check<0> {
    /// A check of the listed findings by these rules, before the first event.
    #[tactic(auto, unfolding(crate::specs::Private::Suits::Suits))]
    pub fn new(rules: Rules) -> Check<0>
        ensures { result ≡ new_check (listed_by rules) }
    {
        Check::of(Wanted::listed(rules))
    }
}

impl Check<128> {
    /// A check of the findings that are wanted, before the first event.
    #[tactic(auto, unfolding(crate::specs::Private::Suits::Suits))]
    pub fn new_with(wanted: Wanted) -> Check<128>
        ensures { result ≡ new_check wanted }
    {
        Check::of(wanted)
    }
}

impl<const TRACKED: usize> Check<TRACKED> {
    /// A check of the findings that are wanted, with what is tracked for them.
    pub(crate) fn of(wanted: Wanted) -> Check<TRACKED>
        requires { Suits TRACKED wanted }
        ensures { result ≡ new_check wanted }
    {
        Check {
            finder: Finder::new(wanted),
        }
    }

    /// The number of findings listed so far.
    pub fn findings(&self) -> u64
        ensures { result ≡ self.now.finding_count }
    {
        self.finder.finding_count()
    }
}

impl<const TRACKED: usize> Follow for Check<TRACKED> {
    ghost next = { check_step };

    ghost bytes_join = { each_octet-joins check_octet_step };

    ghost bytes_empty = { λ s. refl };

    ghost bytes_go_on = { each_octet-goes_on check_octet_step };

    ghost pad_join = { λ s x y. refl };

    ghost pad_empty = { λ s. refl };

    ghost pad_go_on = { λ s x. refl };

    #[inline(always)]
    fn on<D: Drain>(&mut self, event: &Event<'_>, out: &mut Out<'_, D>) -> Result<Go, WriteFault> {
        self.put_lines(event, out)?;
        Ok(Go::On)
    }

    #[inline(always)]
    fn whole<D: Drain>(
        &mut self,
        header: &Header,
        octets: &[u8],
        _out: &mut Out<'_, D>,
    ) -> Result<bool, WriteFault> {
        Ok(self.finder.passes(header, contents_in(header, octets)))
    }

    #[inline(always)]
    fn open<D: Drain>(
        &mut self,
        fields: &HeaderFields,
        octets: &[u8],
        out: &mut Out<'_, D>,
    ) -> Result<Go, WriteFault> {
        Check::open(self, &Header::new(fields, octets), octets, out)?;
        Ok(Go::On)
    }

    #[inline(always)]
    fn enter<D: Drain>(
        &mut self,
        fields: &HeaderFields,
        octets: &[u8],
        out: &mut Out<'_, D>,
    ) -> Result<Go, WriteFault> {
        Check::open(self, &Header::new(fields, octets), octets, out)?;
        Ok(Go::On)
    }
}

impl<const TRACKED: usize> Check<TRACKED> {
    /// Puts the lines that an event allows.
    #[inline(always)]
    fn put_lines<D: Drain>(
        &mut self,
        event: &Event<'_>,
        out: &mut Out<'_, D>,
    ) -> Result<(), WriteFault>
        ensures { HasEffect D.state (check_step self.old (event_value_of event.now))
            out.old out.new self.new result }
    {
        match event {
            Event::Open(header) => self.open(header, header.raw(), out),
            Event::Enter(header) => self.open_wrapper(header, out),
            Event::Begin(header) => self.begin(header, out),
            Event::Bytes(octets) => {
                self.finder.bytes(octets);
                Ok(())
            }
            Event::End => self.end(out),
            Event::Close(offset) => self.close(offset.is_some(), out),
            Event::Leave => self.close(false, out),
            Event::Unused | Event::Pad(_) => Ok(()),
        }
    }

    /// An element that holds others begins, with a header of these octets.
    #[inline(always)]
    fn open<D: Drain>(
        &mut self,
        header: &Header,
        octets: &[u8],
        out: &mut Out<'_, D>,
    ) -> Result<(), WriteFault>
        requires { octets.now ≡ octets_of header.now }
        ensures { HasEffect D.state (findings_effect (finder_open_step self.old header.now))
            out.old out.new self.new result }
    {
        let may_have_findings = self.finder.open(header, octets);
        put_findings(may_have_findings, Style::Check, &self.finder, out)
    }

    /// A string that holds encodings begins. Separate, so that [`Check::put_lines`] stays small, and is inlined.
    #[inline(never)]
    fn open_wrapper<D: Drain>(
        &mut self,
        header: &Header,
        out: &mut Out<'_, D>,
    ) -> Result<(), WriteFault>
        ensures { HasEffect D.state (findings_effect (finder_open_step self.old header.now))
            out.old out.new self.new result }
    {
        self.open(header, header.raw(), out)
    }

    /// A primitive begins whose octets are not all available, or that may have findings.
    #[inline(never)]
    fn begin<D: Drain>(&mut self, header: &Header, out: &mut Out<'_, D>) -> Result<(), WriteFault>
        ensures { HasEffect D.state (findings_effect (finder_begin_step self.old header.now))
            out.old out.new self.new result }
    {
        self.finder.begin(header);
        put_findings(true, Style::Check, &self.finder, out)
    }

    /// A primitive ends.
    #[inline]
    fn end<D: Drain>(&mut self, out: &mut Out<'_, D>) -> Result<(), WriteFault>
        ensures { HasEffect D.state (findings_effect (finder_end_step self.old))
            out.old out.new self.new result }
    {
        let may_have_findings = self.finder.end();
        put_findings(may_have_findings, Style::Check, &self.finder, out)
    }

    /// An element that holds others ends, with end-of-contents octets or without them.
    #[inline]
    fn close<D: Drain>(
        &mut self,
        has_end_octets: bool,
        out: &mut Out<'_, D>,
    ) -> Result<(), WriteFault>
        ensures { HasEffect D.state (findings_effect (finder_close_step self.old has_end_octets))
            out.old out.new self.new result }
    {
        let may_have_findings = self.finder.close(has_end_octets);
        put_findings(may_have_findings, Style::Check, &self.finder, out)
    }
}
