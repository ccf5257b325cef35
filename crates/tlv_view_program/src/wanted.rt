//! What follows from the requested output.
ghost use Rattle.std.specs.Prelude.{◌≡◌};
ghost use Rattle.tlv_view_program.specs.ShowsBlock.{has_titles, reports_broken, stays_closed};

use crate::request::Wanted;

/// Whether all strings stay closed.
pub(crate) fn stays_closed(wanted: &Wanted) -> bool
    ensures { result ≡ stays_closed wanted.now }
{
    match wanted {
        Wanted::Dump { closed, .. } => *closed,
        Wanted::Check { closed, .. } => *closed,
        Wanted::Why { closed } => *closed,
        _ => false,
    }
}

/// Whether broken strings are reported: in a dump, in a check, and with the reasons, unless all strings stay closed.
pub(crate) fn reports_broken(wanted: &Wanted) -> bool
    ensures { result ≡ reports_broken wanted.now }
{
    has_titles(wanted) && !stays_closed(wanted)
}

/// Whether each of several blocks has a line before it: in a dump, in a check, and with the
/// reasons.
pub(crate) fn has_titles(wanted: &Wanted) -> bool
    ensures { result ≡ has_titles wanted.now }
{
    matches!(
        wanted,
        Wanted::Dump { .. } | Wanted::Check { .. } | Wanted::Why { .. }
    )
}
