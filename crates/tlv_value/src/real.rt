//! The contents of a REAL (8.5): whether they are of a form, and canonical (11.3), in whatever pieces they come.
ghost use Rattle.std.specs.List.{list_all};
ghost use Rattle.std.specs.Prelude.{◌≡◌, ◌==◌, ◌&&◌, ◌∷◌, [], IsTrue, not};
ghost use Rattle.tlv_head.specs.UniversalTypes.{real};
ghost use Rattle.tlv_value.specs.AllChecks.{type_findings};
ghost use Rattle.tlv_value.specs.ContentsOctets.{is_padded_integer};
ghost use Rattle.tlv_value.specs.Real.{has_size_octet};
ghost use Rattle.tlv_value.specs.RealState.{begin_binary, begin_decimal, begin_real, ends_canonical, ends_form};
ghost use Rattle.tlv_value.specs.RealState.{is_canonical, is_of_form, may_be_canonical, new_real_check, next_part};
ghost use Rattle.tlv_value.specs.RealState.{is_number_end, is_zero, may_be_zero, real_check_after, real_check_next};

mod canonical_place;
mod decimal_place;

use crate::value_check::last_octet;
pub use canonical_place::CanonicalPlace;
use canonical_place::{is_whole_canonical, next_canonical_place};
pub use decimal_place::{DecimalPlace, NumberForm};
use decimal_place::{in_exponent, is_whole_number, next_place};

/// What has come last of the contents of a REAL.
#[derive(Clone, Copy)]
pub enum RealPart {
    /// Nothing: plus zero.
    Nothing,
    /// The only octet of a special value.
    Special,
    /// The first octet of a binary value, which says that the number of exponent octets follows.
    ExponentSize,
    /// The octets before the exponent, which has one octet and then `later` more.
    Exponent {
        has_size: bool,
        later: u8,
    },
    /// The first exponent octet. One more follows, and then `later` more.
    SecondExponent {
        has_size: bool,
        first: u8,
        later: u8,
    },
    /// An exponent octet. `left` more follow.
    BeforeMantissa {
        left: u8,
    },
    /// This octet of the mantissa.
    Mantissa {
        last: u8,
    },
    /// A part of a decimal value.
    Decimal {
        form: NumberForm,
        place: DecimalPlace,
        canonical: CanonicalPlace,
    },
    /// Octets that no form has.
    Formless,
}

/// What is known of the contents so far.
#[derive(Clone, Copy)]
pub struct RealCheck {
    pub(crate) part: RealPart,
    /// Whether the octets so far may begin canonical contents. Of a decimal value its place says it.
    pub(crate) is_canonical_so_far: bool,
    /// Whether the number may be zero, as far as the octets so far say.
    pub(crate) is_zero_so_far: bool,
}

impl RealCheck {
    /// The check before the first octet.
    #[inline(always)]
    pub(crate) fn new() -> RealCheck
        ensures { result ≡ new_real_check }
    {
        RealCheck {
            part: RealPart::Nothing,
            is_canonical_so_far: true,
            is_zero_so_far: true,
        }
    }

    /// The check after more octets.
    #[inline(never)]
    pub(crate) fn after(self, octets: &[u8]) -> RealCheck
        ensures { result ≡ real_check_after self octets.now }
    {
        let mut check = self;
        let mut rest = octets;
        while let [octet, more @ ..] = rest {
            // Of a mantissa that has begun only the last octet counts, and whether all are zero.
            if let RealPart::Mantissa { last } = check.part {
                return RealCheck {
                    part: RealPart::Mantissa {
                        last: last_octet(last, rest),
                    },
                    is_canonical_so_far: check.is_canonical_so_far,
                    is_zero_so_far: is_zero_with(check.is_zero_so_far, rest),
                };
            }
            check = check.next(*octet);
            rest = more;
        }
        check
    }

    /// The check after one octet more.
    #[inline(always)]
    fn next(self, octet: u8) -> RealCheck
        ensures { result ≡ real_check_next self octet }
    {
        RealCheck {
            part: next_part(self.part, octet),
            is_canonical_so_far: self.is_canonical_so_far && may_be_canonical(self.part, octet),
            is_zero_so_far: self.is_zero_so_far && may_be_zero(self.part, octet),
        }
    }

    /// Whether the octets so far are the contents of a REAL (8.5).
    pub(crate) fn is_of_form(self) -> bool
        ensures { result ≡ is_of_form self }
    {
        ends_form(self.part)
    }

    /// Whether they are canonical (11.3).
    pub(crate) fn is_canonical(self) -> bool
        ensures { result ≡ is_canonical self }
    {
        self.is_canonical_so_far && ends_canonical(self.part)
    }

    /// Whether they are a number in binary or decimal that is zero (8.5.2).
    pub(crate) fn is_zero(self) -> bool
        ensures { result ≡ is_zero self }
    {
        self.is_zero_so_far && is_number_end(self.part)
    }

    /// Whether they are of a form, canonical, and no number that is zero.
    fn is_clear(self) -> bool
        ensures { result ≡ (is_of_form self && is_canonical self && not (is_zero self)) }
    {
        self.is_of_form() && self.is_canonical() && !self.is_zero()
    }
}

/// Whether nothing is found on all contents of a REAL: they are of a form (8.5), canonical (11.3), and no number that
/// is zero (8.5.2).
#[inline(never)]
pub(crate) fn is_clear_real(contents: &[u8]) -> bool
    ensures { IsTrue result → type_findings real contents.now ≡ [] }
{
    RealCheck::new().after(contents).is_clear()
}

/// Whether all octets are 0, if those before may be.
fn is_zero_with(is_zero_so_far: bool, octets: &[u8]) -> bool
    ensures { result ≡ (is_zero_so_far && list_all (λ octet. octet == 0) octets.now) }
{
    is_zero_so_far && are_zeros(octets)
}

/// Whether all octets are 0.
fn are_zeros(octets: &[u8]) -> bool
    ensures { result ≡ list_all (λ octet. octet == 0) octets.now }
{
    for octet in octets {
        if *octet != 0 {
            return false;
        }
    }
    true
}

/// The part after one octet more.
fn next_part(part: RealPart, octet: u8) -> RealPart
    ensures { result ≡ next_part part octet }
{
    match part {
        RealPart::Nothing => begin_real(octet),
        RealPart::Special => RealPart::Formless,
        RealPart::ExponentSize => {
            if octet == 0 {
                RealPart::Formless
            } else {
                RealPart::Exponent {
                    has_size: true,
                    later: octet - 1,
                }
            }
        }
        RealPart::Exponent { has_size, later } => {
            if later == 0 {
                RealPart::BeforeMantissa { left: 0 }
            } else {
                RealPart::SecondExponent {
                    has_size,
                    first: octet,
                    later: later - 1,
                }
            }
        }
        RealPart::SecondExponent {
            has_size,
            first,
            later,
        } => {
            if has_size && is_padded(first, octet) {
                RealPart::Formless
            } else {
                RealPart::BeforeMantissa { left: later }
            }
        }
        RealPart::BeforeMantissa { left } => {
            if left == 0 {
                RealPart::Mantissa { last: octet }
            } else {
                RealPart::BeforeMantissa { left: left - 1 }
            }
        }
        RealPart::Mantissa { .. } => RealPart::Mantissa { last: octet },
        RealPart::Decimal {
            form,
            place,
            canonical,
        } => RealPart::Decimal {
            form,
            place: next_place(form, place, octet),
            canonical: next_canonical_place(canonical, octet),
        },
        RealPart::Formless => RealPart::Formless,
    }
}

/// Whether the contents may still be canonical with one octet more (11.3.1). Of a decimal value its place says it.
fn may_be_canonical(part: RealPart, octet: u8) -> bool
    ensures { result ≡ may_be_canonical part octet }
{
    match part {
        RealPart::Nothing => octet < 0x80 || (octet / 16 % 4 == 0 && octet / 4 % 4 == 0),
        RealPart::ExponentSize => octet > 3,
        RealPart::SecondExponent { first, .. } => !is_padded(first, octet),
        RealPart::BeforeMantissa { left } => left != 0 || octet != 0,
        _ => true,
    }
}

/// Whether the number may still be zero with one octet more (8.5.2).
fn may_be_zero(part: RealPart, octet: u8) -> bool
    ensures { result ≡ may_be_zero part octet }
{
    match part {
        RealPart::BeforeMantissa { left } => left != 0 || octet == 0,
        RealPart::Mantissa { .. } => octet == 0,
        RealPart::Decimal { place, .. } => in_exponent(place) || !matches!(octet, b'1'..=b'9'),
        _ => true,
    }
}

/// The part after the first octet (8.5.6).
fn begin_real(octet: u8) -> RealPart
    ensures { result ≡ begin_real octet }
{
    match octet {
        0x80..=0xff => begin_binary(octet),
        0x40..=0x43 => RealPart::Special,
        0x44..=0x7f => RealPart::Formless,
        _ => begin_decimal(octet),
    }
}

/// The part after the first octet of a binary value (8.5.7).
fn begin_binary(octet: u8) -> RealPart
    ensures { result ≡ begin_binary octet }
{
    if octet / 16 % 4 == 3 {
        RealPart::Formless
    } else if octet % 4 == 3 {
        RealPart::ExponentSize
    } else {
        RealPart::Exponent {
            has_size: false,
            later: octet % 4,
        }
    }
}

/// The part after the first octet of a decimal value (8.5.8).
fn begin_decimal(octet: u8) -> RealPart
    ensures { result ≡ begin_decimal octet }
{
    match octet {
        1 => decimal(NumberForm::Nr1, CanonicalPlace::Other),
        2 => decimal(NumberForm::Nr2, CanonicalPlace::Other),
        3 => decimal(NumberForm::Nr3, CanonicalPlace::Begin),
        _ => RealPart::Formless,
    }
}

fn decimal(form: NumberForm, canonical: CanonicalPlace) -> RealPart
    ensures { result ≡ RealPart.Decimal form DecimalPlace.Spaces canonical }
{
    RealPart::Decimal {
        form,
        place: DecimalPlace::Spaces,
        canonical,
    }
}

/// Whether the first nine bits of an exponent are all equal (8.5.7.4).
fn is_padded(first: u8, second: u8) -> bool
    ensures { result ≡ is_padded_integer (first ∷ second ∷ []) }
{
    match first {
        0 => second < 128,
        255 => second >= 128,
        _ => false,
    }
}

/// Whether the contents may end here.
fn ends_form(part: RealPart) -> bool
    ensures { result ≡ ends_form part }
{
    match part {
        RealPart::Nothing => true,
        RealPart::Special => true,
        RealPart::Mantissa { .. } => true,
        RealPart::Decimal { form, place, .. } => is_whole_number(form, place),
        _ => false,
    }
}

/// Whether a number in binary or decimal may end here.
fn is_number_end(part: RealPart) -> bool
    ensures { result ≡ is_number_end part }
{
    match part {
        RealPart::Mantissa { .. } => true,
        RealPart::Decimal { form, place, .. } => is_whole_number(form, place),
        _ => false,
    }
}

/// Whether canonical contents may end here.
fn ends_canonical(part: RealPart) -> bool
    ensures { result ≡ ends_canonical part }
{
    match part {
        RealPart::Nothing => true,
        RealPart::Special => true,
        RealPart::Mantissa { last } => last % 2 == 1,
        RealPart::Decimal { canonical, .. } => is_whole_canonical(canonical),
        _ => false,
    }
}
