//! The findings that are wanted.
ghost use Rattle.std.specs.Prelude.{◌≡◌};
ghost use Rattle.tlv_show.specs.ShownFindings.{all_by, listed_by};

use crate::{Rules, Scope};

/// The findings that are wanted.
#[derive(Clone, Copy, Debug, PartialEq, Eq)]
pub struct Wanted {
    /// The rules by which findings are reported.
    pub rules: Rules,
    /// Which of the findings by these rules are reported.
    pub scope: Scope,
}

impl Wanted {
    /// The listed findings by these rules.
    pub fn listed(rules: Rules) -> Wanted
        ensures { result ≡ listed_by rules }
    {
        Wanted {
            rules,
            scope: Scope::Listed,
        }
    }

    /// All findings by these rules.
    pub fn all(rules: Rules) -> Wanted
        ensures { result ≡ all_by rules }
    {
        Wanted {
            rules,
            scope: Scope::All,
        }
    }
}
