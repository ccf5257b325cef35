//! How an input is to be read.
ghost use Rattle.std.specs.Prelude.{◌≡◌};
ghost use Rattle.tlv_walk.specs.Inside.{are_rising};

use crate::INPUT_LIMIT;
use arrayvec::ArrayVec;
use std::marker::Model;

/// The offsets that the user names, in octets from the start of the input, rising, each at most 2^40: a string at
/// such an offset holds encodings. An `Inside` stores at most 16 offsets; a longer list belongs to the caller and is
/// borrowed.
#[derive(Clone, Debug, Drop)]
pub struct Inside<'a> {
    offsets: Offsets<'a>,
}

/// Where the named offsets are stored.
#[derive(Clone, Debug, Drop)]
enum Offsets<'a> {
    /// In the `Inside`.
    Kept(ArrayVec<u64, 16>),
    /// In the caller's slice.
    Lent(&'a [u64]),
}

impl<'a> Model for Inside<'a> {
    ghost use Rattle.std.specs.Prelude.{List, ℕ};

    ghost Value = { List ℕ };

    ghost use Rattle.std.specs.Prelude.{◌≡◌, true};
    ghost use Rattle.tlv_walk.specs.Inside.{are_rising};
    ghost use Rattle.tlv_walk.specs.Inside.{offsets_in};

    ghost view = { λ i. offsets_in i.offsets };

    ghost invariant = { λ i. are_rising 0 (offsets_in i.offsets) ≡ true };
}

/// Two are equal if they name the same offsets, wherever these are stored.
impl<'a> PartialEq for Inside<'a> {
    ghost use Rattle.std.specs.Cmp.{partial_equiv_from_equiv};
    ghost use Rattle.std.specs.Cmp.Lexicographic.{nat_list_eq_equiv, pointwise};
    ghost use Rattle.std.specs.Prelude.{nat_eq};

    ghost eq = { λ x y. pointwise nat_eq x y };

    ghost laws = { partial_equiv_from_equiv nat_list_eq_equiv };

    fn eq(&self, other: &Self) -> bool {
        self.as_slice() == other.as_slice()
    }
}

impl<'a> Eq for Inside<'a> {
    ghost use Rattle.std.specs.Cmp.Lexicographic.{nat_list_eq_equiv};

    ghost laws = { nat_list_eq_equiv };
}

/// How an input is to be read.
#[derive(Clone, PartialEq, Eq, Debug, Drop)]
pub struct Framing<'a> {
    /// The named offsets.
    pub inside: Inside<'a>,
    /// Whether padding is allowed: octets `00` at the top level, before, between and after encodings.
    pub padding: bool,
}

impl<'a> Inside<'a> {
    ghost use Rattle.std.specs.Prelude.{MatchOption, [], false, true};
    ghost use Rattle.tlv_walk.specs.Inside.{can_name};

    /// An `Inside` with a copy of the offsets. Returns `None` unless there are at most 16, each larger than the one
    /// before and at most 2^40. The list may be empty.
    pub fn new(offsets: &[u64]) -> Option<Inside<'a>>
        ensures { MatchOption result (can_name offsets.now ≡ false)
            (λ inside. (inside ≡ offsets.now) × (can_name offsets.now ≡ true)) }
    {
        if offsets.len() > 16 || !are_rising(offsets) {
            return None;
        }
        let mut kept = ArrayVec::new();
        let _ = kept.try_extend_from_slice(offsets);
        Some(Inside {
            offsets: Offsets::Kept(kept),
        })
    }

    /// An `Inside` that borrows the offsets, however many there are. Returns `None` unless each is larger than the
    /// one before and at most 2^40. The list may be empty.
    pub fn lent(offsets: &'a [u64]) -> Option<Inside<'a>>
        ensures { MatchOption result (are_rising 0 offsets.now ≡ false)
            (λ inside. (inside ≡ offsets.now) × (are_rising 0 offsets.now ≡ true)) }
    {
        if !are_rising(offsets) {
            return None;
        }
        Some(Inside {
            offsets: Offsets::Lent(offsets),
        })
    }

    /// No named offsets.
    pub fn none() -> Inside<'a>
        ensures { result ≡ [] }
    {
        Inside {
            offsets: Offsets::Lent(&[]),
        }
    }

    /// The named offsets.
    pub(crate) fn as_slice(&self) -> &[u64]
        ensures offsets { result.now ≡ self.now }
        ensures rising { are_rising 0 result.now ≡ true }
    {
        match &self.offsets {
            Offsets::Kept(kept) => kept.as_slice(),
            Offsets::Lent(lent) => lent,
        }
    }
}

impl<'a> Framing<'a> {
    ghost use Rattle.tlv_walk.specs.Framing.{plain_framing};

    /// No string is read as encodings, and there is no padding.
    pub fn plain() -> Framing<'a>
        ensures { result ≡ plain_framing }
    {
        Framing {
            inside: Inside::none(),
            padding: false,
        }
    }
}

/// Whether each offset is larger than the one before and at most 2^40.
fn are_rising(offsets: &[u64]) -> bool
    ensures { result ≡ are_rising 0 offsets.now }
{
    let mut least = 0;
    for &offset in offsets {
        if offset < least || offset > INPUT_LIMIT {
            return false;
        }
        least = offset + 1;
    }
    true
}
