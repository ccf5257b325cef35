//! How findings are written.
ghost use Rattle.std.specs.Prelude.{◌≡◌, ◌++◌, ◌∷◌, length};
ghost use Rattle.tlv_io.specs.LineTexts.{HasRoomFor};
ghost use Rattle.tlv_io.specs.Out.{Puts};
ghost use Rattle.tlv_show.specs.FindingLines.{check_finding_line, dump_finding_line, last_finding_lines};
ghost use Rattle.tlv_show.specs.FindingLines.{styled_line, styled_lines};
ghost use Rattle.tlv_show.specs.Private.FinderState.{with_findings_if};
ghost use Rattle.tlv_io.specs.OutLimits.{line_room};

use crate::finder::Finder;
use tlv_value::{Finding, Layout, begin_word};
use tlv_walk::{Drain, HeldOctets, Out, WriteFault};

/// How findings are written.
#[derive(Clone, Copy)]
pub(crate) enum Style {
    /// As lines of a check.
    Check,
    /// As lines of a dump; a pure dump has no such lines.
    Dump { pure: bool },
}

/// Puts a line for each finding of the last event, in order, if there may be any.
#[inline(always)]
pub(crate) fn put_findings<const TRACKED: usize, D: Drain>(
    may_have_findings: bool,
    style: Style,
    finder: &Finder<TRACKED>,
    out: &mut Out<'_, D>,
) -> Result<(), WriteFault>
    ensures { Puts D.state out.old out.new
        (last_finding_lines style (with_findings_if may_have_findings finder.now)) result }
{
    if !may_have_findings {
        return Ok(());
    }
    let last = finder.last();
    put_each(
        style,
        last.level,
        last.offset,
        last.findings.as_slice(),
        out,
    )
}

/// Puts a line for each of these findings in the element at this level and offset.
#[inline(never)]
fn put_each<D: Drain>(
    style: Style,
    level: u8,
    offset: u64,
    findings: &[Finding],
    out: &mut Out<'_, D>,
) -> Result<(), WriteFault>
    ensures { Puts D.state out.old out.new (styled_lines style level offset findings.now) result }
{
    for finding in findings {
        put_finding(style, level, offset, *finding, out)?;
    }
    Ok(())
}

/// Puts the line of a finding in the element at this level and offset.
#[inline(always)]
fn put_finding<D: Drain>(
    style: Style,
    level: u8,
    offset: u64,
    finding: Finding,
    out: &mut Out<'_, D>,
) -> Result<(), WriteFault>
    ensures { Puts D.state out.old out.new (styled_line style level offset finding) result }
{
    out.make_room()?;
    write_finding(&mut out.held, style, level, offset, finding);
    Ok(())
}

/// Adds the line of a finding in an element at this level and offset.
fn write_finding(held: &mut HeldOctets, style: Style, level: u8, offset: u64, finding: Finding)
    requires { HasRoomFor held.old line_room }
    ensures { held.new ≡ held.old ++ styled_line style level offset finding }
{
    match style {
        Style::Check => write_check_finding(held, offset, finding),
        Style::Dump { pure } => {
            let layout = Layout {
                level,
                limit: None,
                pure,
            };
            write_dump_finding(held, layout, offset, finding);
        }
    }
}

/// Adds the line of a finding in a check.
fn write_check_finding(held: &mut HeldOctets, offset: u64, finding: Finding)
    requires { HasRoomFor held.old line_room }
    ensures { held.new ≡ held.old ++ check_finding_line offset finding }
{
    let (line, count) = finding.line_block();
    held.number(offset);
    held.add(b" ");
    held.add_prefix(line, count);
}

/// Adds the line of a finding in a dump; adds nothing if first columns are left out.
fn write_dump_finding(held: &mut HeldOctets, layout: Layout, offset: u64, finding: Finding)
    requires { HasRoomFor held.old line_room }
    ensures { held.new ≡ held.old ++ dump_finding_line layout offset finding }
{
    if layout.pure {
        return;
    }
    let (text, count) = finding.text_block();
    begin_word(held, layout, offset, &code_columns(finding.code()));
    held.add_prefix(text, count);
}

/// A code, right-aligned in six places.
fn code_columns(code: &[u8]) -> [u8; 6]
    requires { length code.now ≡ 3 }
    ensures { result ≡ 32 ∷ 32 ∷ 32 ∷ code.now }
{
    let mut word = *b"      ";
    word[3..].copy_from_slice(code);
    word
}
