//! The follower that writes a dump.
ghost use Rattle.std.specs.Prelude.{◌≡◌, ◌≤◌, length, refl};
ghost use Rattle.tlv_head.specs.Header.{octets_of};
ghost use Rattle.tlv_walk.proofs.FollowerLemmas.FollowedEvents.{each_octet-goes_on, each_octet-joins};
ghost use Rattle.tlv_walk.specs.Events.{Begin, Bytes, Close, End, Enter, Open, event_value_of};
ghost use Rattle.tlv_walk.specs.Follow.{HasEffect};
ghost use Rattle.tlv_show.specs.DumpStep.{dump_octet_step, dump_padding_step, dump_step, findings_before, level_in};
ghost use Rattle.tlv_show.specs.DumpStep.{new_dump, new_dump_with};
ghost use Rattle.tlv_show.specs.FinderState.{finder_open_step};
ghost use Rattle.tlv_show.specs.LinesStep.{lines_open_step};
ghost use Rattle.tlv_show.specs.Private.Suits.{Suits};
ghost use Rattle.tlv_show.specs.ShowJob.{top_layout};
ghost use Rattle.tlv_show.specs.WantedJobs.{wanted_in};

use crate::contents::contents_in;
use crate::finder::Finder;
use crate::finding_lines::put_findings;
use crate::lines::Lines;
use crate::{FiniteNames, Options, Scope, Wanted};
use std::marker::Model;
use tlv_head::{Header, HeaderFields};
use tlv_value::Layout;
use tlv_walk::{Drain, Event, Follow, Go, Out, WriteFault};

/// Writes the lines that each event allows. An element that holds others has a line with its header and a line with
/// its end; the lines of a primitive come as [`ValueText`](tlv_value::ValueText) writes them. A finding that the
/// header shows has its line before the first line of its element; any other finding has it after the last line. If
/// `TRACKED` is 0, it shows the listed findings; if it is 128, those that are wanted.
#[derive(Drop)]
pub struct Dump<'n, N: FiniteNames, const TRACKED: usize> {
    lines: Lines<'n, N>,
    /// It also knows how many elements are open, and whether a primitive is.
    finder: Finder<TRACKED>,
}

impl<'n, N: FiniteNames, const TRACKED: usize> Model for Dump<'n, N, TRACKED> {
    ghost use Rattle.std.specs.Coded.{codes};
    ghost use Rattle.std.specs.Option.{is_some};
    ghost use Rattle.tlv_show.specs.DumpStep.{DumpState};
    ghost use Rattle.tlv_show.specs.Private.KeptLines.{lines_if};
    ghost use Rattle.tlv_value.specs.Names.{table_code};

    ghost Value = { DumpState };

    ghost coded = { Prim.hlevel (codes, table_code) };

    ghost view = { λ d. record {
      lines = lines_if (is_some d.finder.kept.open_primitive) d.lines;
      finder = d.finder.kept;
    } };
}

impl<'n, N: FiniteNames> Dump<'n, N, 0> {
    /// A dump that has written nothing yet. It reports the listed findings.
    #[tactic(auto, unfolding(crate::specs::Private::Suits::Suits))]
    pub fn new(options: &Options<'_>, names: &'n N) -> Dump<'n, N, 0>
        ensures { result ≡ new_dump options.now.rules (top_layout options.now) (N.table names.now) }
    {
        Dump::of(options, Scope::Listed, false, names)
    }
}

impl<'n, N: FiniteNames> Dump<'n, N, 128> {
    /// Like `new`, with the findings of this scope, and with text beside pairs of digits if `with_text` is set, as in
    /// [`ValueText::new_with`](tlv_value::ValueText::new_with).
    #[tactic(auto, unfolding(crate::specs::Private::Suits::Suits))]
    pub fn new_with(
        options: &Options<'_>,
        scope: Scope,
        with_text: bool,
        names: &'n N,
    ) -> Dump<'n, N, 128>
        ensures { result ≡ new_dump_with with_text
            (wanted_in scope options.now) (top_layout options.now) (N.table names.now) }
    {
        Dump::of(options, scope, with_text, names)
    }
}

impl<'n, N: FiniteNames, const TRACKED: usize> Dump<'n, N, TRACKED> {
    /// A dump with the findings of this scope, with what is tracked for them.
    pub(crate) fn of(
        options: &Options<'_>,
        scope: Scope,
        with_text: bool,
        names: &'n N,
    ) -> Dump<'n, N, TRACKED>
        requires { Suits TRACKED (wanted_in scope options.now) }
        ensures { result ≡ new_dump_with with_text
            (wanted_in scope options.now) (top_layout options.now) (N.table names.now) }
    {
        let layout = Layout {
            level: 0,
            limit: options.limit,
            pure: options.pure,
        };
        Dump {
            lines: Lines::new(layout, with_text, names),
            finder: Finder::new(Wanted {
                rules: options.rules,
                scope,
            }),
        }
    }

    /// The number of findings so far. A finding counts even if its line is left out.
    pub fn findings(&self) -> u64
        ensures { result ≡ self.now.finder.finding_count }
    {
        self.finder.finding_count()
    }
}

impl<N: FiniteNames, const TRACKED: usize> Follow for Dump<'_, N, TRACKED> {
    ghost next = { dump_step };

    ghost bytes_join = { each_octet-joins dump_octet_step };

    ghost bytes_empty = { λ s. refl };

    ghost bytes_go_on = { each_octet-goes_on dump_octet_step };

    ghost pad_join = { each_octet-joins dump_padding_step };

    ghost pad_empty = { λ s. refl };

    ghost pad_go_on = { each_octet-goes_on dump_padding_step };

    #[inline(always)]
    fn on<D: Drain>(&mut self, event: &Event<'_>, out: &mut Out<'_, D>) -> Result<Go, WriteFault> {
        self.put_lines(event, out)?;
        Ok(Go::On)
    }

    #[inline(always)]
    fn whole<D: Drain>(
        &mut self,
        header: &Header,
        octets: &[u8],
        out: &mut Out<'_, D>,
    ) -> Result<bool, WriteFault> {
        let contents = contents_in(header, octets);
        if !self.finder.passes(header, contents) {
            return Ok(false);
        }
        self.lines
            .whole(self.finder.level(), header, contents, out)?;
        Ok(true)
    }

    #[inline(always)]
    fn open<D: Drain>(
        &mut self,
        fields: &HeaderFields,
        octets: &[u8],
        out: &mut Out<'_, D>,
    ) -> Result<Go, WriteFault> {
        Dump::open(self, &Header::new(fields, octets), octets, b" {", out)?;
        Ok(Go::On)
    }

    #[inline(always)]
    fn enter<D: Drain>(
        &mut self,
        fields: &HeaderFields,
        octets: &[u8],
        out: &mut Out<'_, D>,
    ) -> Result<Go, WriteFault> {
        Dump::open(self, &Header::new(fields, octets), octets, b" wraps {", out)?;
        Ok(Go::On)
    }
}

impl<N: FiniteNames, const TRACKED: usize> Dump<'_, N, TRACKED> {
    /// Puts the lines that an event allows.
    #[inline(always)]
    fn put_lines<D: Drain>(
        &mut self,
        event: &Event<'_>,
        out: &mut Out<'_, D>,
    ) -> Result<(), WriteFault>
        ensures { HasEffect D.state (dump_step self.old (event_value_of event.now))
            out.old out.new self.new result }
    {
        match event {
            Event::Open(header) => self.open_holder(header, out),
            Event::Enter(header) => self.open_wrapper(header, out),
            Event::Begin(header) => self.begin(header, out),
            Event::Bytes(octets) => self.bytes(octets, out),
            Event::End => self.end(out),
            Event::Close(offset) => self.close(*offset, out),
            Event::Leave => self.close(None, out),
            Event::Unused => {
                self.lines.unused();
                Ok(())
            }
            Event::Pad(octets) => self.lines.pad(self.finder.level(), octets, out),
        }
    }

    /// An element that holds others begins: its line ends with this word.
    #[inline(always)]
    fn open<D: Drain>(
        &mut self,
        header: &Header,
        octets: &[u8],
        word: &[u8],
        out: &mut Out<'_, D>,
    ) -> Result<(), WriteFault>
        requires octets { octets.now ≡ octets_of header.now }
        requires short { length word.now ≤ 16 }
        ensures { HasEffect D.state
            (findings_before self.old (finder_open_step self.old.finder header.now)
            (lines_open_step (level_in self.old) self.old.lines header.now word.now))
            out.old out.new self.new result }
    {
        let level = self.finder.level();
        let may_have_findings = self.finder.open(header, octets);
        let style = self.lines.style();
        put_findings(may_have_findings, style, &self.finder, out)?;
        self.lines.open(level, header, word, out)
    }

    /// A constructed element begins whose header is not read at once. Separate: with it [`Dump::put_lines`] would be too
    /// large to be inlined.
    #[inline(never)]
    fn open_holder<D: Drain>(
        &mut self,
        header: &Header,
        out: &mut Out<'_, D>,
    ) -> Result<(), WriteFault>
        ensures { HasEffect D.state (dump_step self.old (Open header.now))
            out.old out.new self.new result }
    {
        self.open(header, header.raw(), b" {", out)
    }

    /// A string that holds encodings begins. Separate: with it [`Dump::put_lines`] would be too large to be inlined.
    #[inline(never)]
    fn open_wrapper<D: Drain>(
        &mut self,
        header: &Header,
        out: &mut Out<'_, D>,
    ) -> Result<(), WriteFault>
        ensures { HasEffect D.state (dump_step self.old (Enter header.now))
            out.old out.new self.new result }
    {
        self.open(header, header.raw(), b" wraps {", out)
    }

    /// A primitive begins whose octets are not all available, or that may have findings.
    #[inline(never)]
    fn begin<D: Drain>(&mut self, header: &Header, out: &mut Out<'_, D>) -> Result<(), WriteFault>
        ensures { HasEffect D.state (dump_step self.old (Begin header.now))
            out.old out.new self.new result }
    {
        self.finder.begin(header);
        let style = self.lines.style();
        put_findings(true, style, &self.finder, out)?;
        self.lines.begin(self.finder.level(), header, out)
    }

    /// Contents of a primitive go on. Separate, as `end` is: with them [`Dump::put_lines`] would be too large to be
    /// inlined.
    #[inline(never)]
    fn bytes<D: Drain>(&mut self, octets: &[u8], out: &mut Out<'_, D>) -> Result<(), WriteFault>
        ensures { HasEffect D.state (dump_step self.old (Bytes octets.now))
            out.old out.new self.new result }
    {
        self.finder.bytes(octets);
        self.lines.bytes(self.finder.is_open(), octets, out)
    }

    /// A primitive ends.
    #[inline(never)]
    fn end<D: Drain>(&mut self, out: &mut Out<'_, D>) -> Result<(), WriteFault>
        ensures { HasEffect D.state (dump_step self.old End) out.old out.new self.new result }
    {
        let was_open = self.finder.is_open();
        let may_have_findings = self.finder.end();
        self.lines.end(was_open, out)?;
        let style = self.lines.style();
        put_findings(may_have_findings, style, &self.finder, out)
    }

    /// An element that holds others ends: `offset` is where its end-of-contents octets are, if it has them.
    #[inline]
    fn close<D: Drain>(
        &mut self,
        offset: Option<u64>,
        out: &mut Out<'_, D>,
    ) -> Result<(), WriteFault>
        ensures { HasEffect D.state (dump_step self.old (Close offset))
            out.old out.new self.new result }
    {
        let may_have_findings = self.finder.close(offset.is_some());
        self.lines.close(self.finder.level(), offset, out)?;
        let style = self.lines.style();
        put_findings(may_have_findings, style, &self.finder, out)
    }
}
