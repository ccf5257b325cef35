//! How far a canonical decimal number has come (11.3.2).
ghost use Rattle.std.specs.Prelude.{◌≡◌};
ghost use Rattle.tlv_value.specs.RealState.{begin_exponent, begin_mantissa, is_whole_canonical, next_canonical_place};

/// What has come last of a canonical number.
#[derive(Clone, Copy)]
pub enum CanonicalPlace {
    /// Nothing.
    Begin,
    /// The sign.
    Minus,
    /// A digit of the mantissa that is not 0.
    NonzeroDigit,
    /// A digit 0 of the mantissa.
    ZeroDigit,
    /// The point.
    Point,
    /// `E`.
    Scale,
    /// The plus of the exponent.
    ScalePlus,
    /// The minus of the exponent.
    ScaleMinus,
    /// The 0 of the exponent `+0`.
    ScaleZero,
    /// A digit of another exponent.
    ScaleDigits,
    /// An octet that a canonical number does not have there.
    Other,
}

/// The place after one octet more.
pub(super) fn next_canonical_place(place: CanonicalPlace, octet: u8) -> CanonicalPlace
    ensures { result ≡ next_canonical_place place octet }
{
    match place {
        CanonicalPlace::Begin => match octet {
            b'-' => CanonicalPlace::Minus,
            _ => begin_mantissa(octet),
        },
        CanonicalPlace::Minus => begin_mantissa(octet),
        CanonicalPlace::NonzeroDigit => match octet {
            b'1'..=b'9' => CanonicalPlace::NonzeroDigit,
            b'0' => CanonicalPlace::ZeroDigit,
            b'.' => CanonicalPlace::Point,
            _ => CanonicalPlace::Other,
        },
        CanonicalPlace::ZeroDigit => match octet {
            b'1'..=b'9' => CanonicalPlace::NonzeroDigit,
            b'0' => CanonicalPlace::ZeroDigit,
            _ => CanonicalPlace::Other,
        },
        CanonicalPlace::Point => match octet {
            b'E' => CanonicalPlace::Scale,
            _ => CanonicalPlace::Other,
        },
        CanonicalPlace::Scale => match octet {
            b'+' => CanonicalPlace::ScalePlus,
            b'-' => CanonicalPlace::ScaleMinus,
            _ => begin_exponent(octet),
        },
        CanonicalPlace::ScalePlus => match octet {
            b'0' => CanonicalPlace::ScaleZero,
            _ => CanonicalPlace::Other,
        },
        CanonicalPlace::ScaleMinus => begin_exponent(octet),
        CanonicalPlace::ScaleZero => CanonicalPlace::Other,
        CanonicalPlace::ScaleDigits => match octet {
            b'0'..=b'9' => CanonicalPlace::ScaleDigits,
            _ => CanonicalPlace::Other,
        },
        CanonicalPlace::Other => CanonicalPlace::Other,
    }
}

/// The place after the first digit of the mantissa.
fn begin_mantissa(octet: u8) -> CanonicalPlace
    ensures { result ≡ begin_mantissa octet }
{
    match octet {
        b'1'..=b'9' => CanonicalPlace::NonzeroDigit,
        _ => CanonicalPlace::Other,
    }
}

/// The place after the first digit of an exponent that is not 0.
fn begin_exponent(octet: u8) -> CanonicalPlace
    ensures { result ≡ begin_exponent octet }
{
    match octet {
        b'1'..=b'9' => CanonicalPlace::ScaleDigits,
        _ => CanonicalPlace::Other,
    }
}

/// Whether a canonical number may end here.
pub(super) fn is_whole_canonical(place: CanonicalPlace) -> bool
    ensures { result ≡ is_whole_canonical place }
{
    matches!(
        place,
        CanonicalPlace::ScaleZero | CanonicalPlace::ScaleDigits
    )
}
