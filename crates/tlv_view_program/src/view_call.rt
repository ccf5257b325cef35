//! A view of octets in memory.
ghost use Rattle.std.specs.Prelude.{◌≡◌, ◌≤◌, IfOk, OnErr, length, true};
ghost use Rattle.tlv_head.specs.Limits.{input_limit};
ghost use Rattle.tlv_walk.specs.Inside.{are_rising};
ghost use Rattle.tlv_walk.specs.Job.{device_states};
ghost use Rattle.tlv_run.specs.Report.{report_value_of};
ghost use Rattle.tlv_run.specs.RunsAndReports.{RunsAndReports};
ghost use Rattle.tlv_view_program.specs.Reasons.{AreFirstOctets, findings_room};
ghost use Rattle.tlv_view_program.specs.Views.{AreBrokenUnless, AreOpenedUnless, Views, job_of_view};

use arrayvec::ArrayVec;
use std::alloc::{AllocError, Global};
use tlv_open::{BrokenString, Strings, laws, strings_of};
use tlv_run::{BoundedDrain, Report, UnfailingSource, run_check_with, run_dump_with, run_extract};
use tlv_show::{FiniteNames, Options, Rules, Scope, Wanted};
use tlv_walk::{Drain, Framing, Inside, Source};

/// What is shown of octets.
#[derive(Clone, Copy, Debug, PartialEq, Eq)]
pub enum View {
    /// Each element on a line of its own.
    Dump {
        /// The rules by which findings are shown.
        rules: Rules,
        /// The maximum number of rows of a value, or `None` for all.
        limit: Option<u32>,
        /// Whether the first columns and the lines of findings are left out.
        pure: bool,
        /// Whether printable octets are shown beside pairs of digits.
        text: bool,
    },
    /// The findings alone.
    Check {
        /// The rules by which the findings are shown.
        rules: Rules,
    },
    /// The octets of one element.
    Extract {
        /// The offset of its first octet, in octets from the start.
        offset: u64,
        /// Whether only its contents are written.
        contents: bool,
    },
}

/// The result of a view.
#[derive(Debug, Drop)]
pub struct Viewed {
    /// What is reported.
    pub report: Report,
    /// The strings that look like encodings, are not opened, and break when they are read as encodings.
    pub broken: Vec<BrokenString>,
}

/// Writes a view of the octets to the drain, and returns the report and the broken strings. It writes and reports what
/// `run` does for the same command over these octets, with two differences. The strings that hold encodings are named,
/// and all findings are reported, not only the listed ones. A dump may also have text beside pairs of digits. With
/// `closed`, no string is named, and none is looked at. With `padding`, octets `00` are allowed before, between and
/// after the encodings.
///
/// # Errors
///
/// `AllocError` if memory for the lists of strings is refused. In that case nothing is written.
pub fn view_octets<N: FiniteNames, D: Drain>(
    alloc: Global,
    view: &View,
    names: &N,
    closed: bool,
    padding: bool,
    octets: &[u8],
    drain: &mut D,
) -> Result<Viewed, AllocError>
    requires { length octets.now ≤ input_limit }
    ensures views { IfOk result (λ viewed. Views view.now (N.table names.now) closed padding octets.now
        (D.state drain.old) (D.state drain.new) (report_value_of viewed.report)) }
    ensures broken { IfOk result (λ viewed. AreBrokenUnless closed padding octets.now viewed.broken.items) }
    ensures nothing { OnErr result (D.state drain.new ≡ D.state drain.old) }
{
    let strings = strings_unless(alloc, closed, padding, octets)?;
    let Some(inside) = Inside::lent(strings.opened.as_slice()) else {
        unreachable!();
    };
    let framing = Framing { inside, padding };
    let mut source = UnfailingSource::new(octets, &[]);
    let report = run_view(view, framing, names, &mut source, drain);
    Ok(Viewed {
        report,
        broken: strings.broken,
    })
}

/// The number of octets of a check that are kept. Five lines of findings have fewer.
pub(crate) const FINDINGS_ROOM: usize = 1024;

/// The first octets that a check of the octets by these rules writes: as many as there is room for.
///
/// # Errors
///
/// `AllocError` if memory for the lists of strings is refused.
pub(crate) fn first_octets<N: FiniteNames>(
    alloc: Global,
    rules: Rules,
    names: &N,
    closed: bool,
    padding: bool,
    octets: &[u8],
) -> Result<ArrayVec<u8, FINDINGS_ROOM>, AllocError>
    requires { length octets.now ≤ input_limit }
    ensures { IfOk result
        (λ first. AreFirstOctets rules (N.table names.now) closed padding octets.now findings_room first.items) }
{
    let mut drain: BoundedDrain<FINDINGS_ROOM> = BoundedDrain::new();
    let view = View::Check { rules };
    let _viewed = view_octets(alloc, &view, names, closed, padding, octets, &mut drain)?;
    Ok(drain.into_octets())
}

/// The opened strings and the broken strings; none if all are to stay closed.
fn strings_unless(
    alloc: Global,
    closed: bool,
    padding: bool,
    octets: &[u8],
) -> Result<Strings, AllocError>
    requires { length octets.now ≤ input_limit }
    ensures opened { IfOk result (λ strings. AreOpenedUnless closed padding octets.now strings.opened.items) }
    ensures broken { IfOk result (λ strings. AreBrokenUnless closed padding octets.now strings.broken.items) }
    ensures rising { IfOk result (λ strings. are_rising 0 strings.opened.items ≡ true) }
{
    laws::opening_is_safe();
    if closed {
        return Ok(Strings {
            opened: Vec::new(alloc),
            broken: Vec::new(alloc),
        });
    }
    strings_of(alloc, octets, padding)
}

/// Runs the command of a view, over any source.
fn run_view<N: FiniteNames, S: Source, D: Drain>(
    view: &View,
    framing: Framing<'_>,
    names: &N,
    source: &mut S,
    drain: &mut D,
) -> Report
    ensures { RunsAndReports (job_of_view view.now framing.entry (N.table names.now))
        (device_states (S.state source.old) (D.state drain.old))
        (device_states (S.state source.new) (D.state drain.new)) (report_value_of result) }
{
    match *view {
        View::Dump {
            rules,
            limit,
            pure,
            text,
        } => {
            let options = Options {
                rules,
                limit,
                pure,
                framing,
            };
            run_dump_with(&options, Scope::All, text, names, source, drain)
        }
        View::Check { rules } => run_check_with(Wanted::all(rules), &framing, source, drain),
        View::Extract { offset, contents } => {
            run_extract(offset, contents, &framing, source, drain)
        }
    }
}
