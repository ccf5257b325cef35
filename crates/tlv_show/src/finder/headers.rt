//! The findings of a header.
ghost use Rattle.std.specs.Prelude.{◌≡◌, ◌∷◌, []};
ghost use Rattle.tlv_show.specs.FinderState.{with_header_findings};
ghost use Rattle.tlv_show.specs.KeptConditions.{header_findings_in};
ghost use Rattle.tlv_show.specs.NestingState.{surroundings_in};
ghost use Rattle.tlv_value.specs.declared.finding.Finding.TheVariants.{D01};

use super::Finder;
use crate::header_findings::add_header_findings;
use tlv_head::Header;
use tlv_value::Finding;

impl<const TRACKED: usize> Finder<TRACKED> {
    /// Determines the findings of a header, without a short look.
    #[inline(always)]
    pub(super) fn find_with_header(&mut self, header: &Header)
        ensures { self.new ≡ with_header_findings self.old.kept header.now self.old.kept }
    {
        let level = self.holders.depth();
        self.last.restart(level, header.offset);
        add_header_findings(
            self.wanted,
            self.holders.frame(),
            header,
            &mut self.last.findings,
        );
        self.finding_count = self
            .finding_count
            .saturating_add(self.last.findings.len() as u64);
    }

    /// Takes D01 for the only finding of a header.
    #[inline(always)]
    pub(super) fn find_indefinite(&mut self, header: &Header)
        requires { header_findings_in self.old.kept.wanted (surroundings_in self.old.kept.holders.frame) header.now
            ≡ D01 ∷ [] }
        ensures { self.new ≡ with_header_findings self.old.kept header.now self.old.kept }
    {
        let level = self.holders.depth();
        self.last.restart(level, header.offset);
        self.last.findings.push(Finding::D01);
        self.finding_count = self.finding_count.saturating_add(1);
    }
}
