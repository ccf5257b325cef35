//! How far a decimal number of ISO 6093 has come (8.5.8).
ghost use Rattle.std.specs.Char.{is_ascii_digit};
ghost use Rattle.std.specs.Prelude.{◌≡◌};
ghost use Rattle.tlv_value.specs.RealState.{after_digits, after_fraction, begin_number, exponent_digit, in_exponent};
ghost use Rattle.tlv_value.specs.RealState.{is_decimal_mark, is_exponent_mark, is_sign, is_whole_number, next_place};

/// The forms of ISO 6093.
#[derive(Clone, Copy)]
pub enum NumberForm {
    /// A whole number.
    Nr1,
    /// A number with a decimal mark.
    Nr2,
    /// A number with an exponent.
    Nr3,
}

/// What has come last of a number.
#[derive(Clone, Copy)]
pub enum DecimalPlace {
    /// A space, or nothing.
    Spaces,
    /// The sign.
    Sign,
    /// A digit, and no mark before it.
    Digits,
    /// The mark, and no digit before it.
    Mark,
    /// The mark after digits, or a digit after the mark.
    Fraction,
    /// `E` or `e`.
    ExponentMark,
    /// The sign of the exponent.
    ExponentSign,
    /// A digit of the exponent.
    ExponentDigits,
    /// An octet that a number of the form does not have there.
    Nowhere,
}

/// The place after one octet more.
pub(super) fn next_place(form: NumberForm, place: DecimalPlace, octet: u8) -> DecimalPlace
    ensures { result ≡ next_place form place octet }
{
    match place {
        DecimalPlace::Spaces => match octet {
            b' ' => DecimalPlace::Spaces,
            b'+' | b'-' => DecimalPlace::Sign,
            _ => begin_number(form, octet),
        },
        DecimalPlace::Sign => begin_number(form, octet),
        DecimalPlace::Digits => after_digits(form, octet),
        DecimalPlace::Mark => match octet {
            b'0'..=b'9' => DecimalPlace::Fraction,
            _ => DecimalPlace::Nowhere,
        },
        DecimalPlace::Fraction => after_fraction(form, octet),
        DecimalPlace::ExponentMark => match octet {
            b'+' | b'-' => DecimalPlace::ExponentSign,
            _ => exponent_digit(octet),
        },
        DecimalPlace::ExponentSign => exponent_digit(octet),
        DecimalPlace::ExponentDigits => exponent_digit(octet),
        DecimalPlace::Nowhere => DecimalPlace::Nowhere,
    }
}

/// The place after the first octet that is no space and no sign.
fn begin_number(form: NumberForm, octet: u8) -> DecimalPlace
    ensures { result ≡ begin_number form octet }
{
    match form {
        NumberForm::Nr1 => match octet {
            b'0'..=b'9' => DecimalPlace::Digits,
            _ => DecimalPlace::Nowhere,
        },
        NumberForm::Nr2 | NumberForm::Nr3 => match octet {
            b'0'..=b'9' => DecimalPlace::Digits,
            b'.' | b',' => DecimalPlace::Mark,
            _ => DecimalPlace::Nowhere,
        },
    }
}

/// The place after one octet more behind digits.
fn after_digits(form: NumberForm, octet: u8) -> DecimalPlace
    ensures { result ≡ after_digits form octet }
{
    match form {
        NumberForm::Nr1 => match octet {
            b'0'..=b'9' => DecimalPlace::Digits,
            _ => DecimalPlace::Nowhere,
        },
        NumberForm::Nr2 => match octet {
            b'0'..=b'9' => DecimalPlace::Digits,
            b'.' | b',' => DecimalPlace::Fraction,
            _ => DecimalPlace::Nowhere,
        },
        NumberForm::Nr3 => match octet {
            b'0'..=b'9' => DecimalPlace::Digits,
            b'.' | b',' => DecimalPlace::Fraction,
            b'E' | b'e' => DecimalPlace::ExponentMark,
            _ => DecimalPlace::Nowhere,
        },
    }
}

/// The place after one octet more behind a mark and a digit.
fn after_fraction(form: NumberForm, octet: u8) -> DecimalPlace
    ensures { result ≡ after_fraction form octet }
{
    match form {
        NumberForm::Nr1 => DecimalPlace::Nowhere,
        NumberForm::Nr2 => match octet {
            b'0'..=b'9' => DecimalPlace::Fraction,
            _ => DecimalPlace::Nowhere,
        },
        NumberForm::Nr3 => match octet {
            b'0'..=b'9' => DecimalPlace::Fraction,
            b'E' | b'e' => DecimalPlace::ExponentMark,
            _ => DecimalPlace::Nowhere,
        },
    }
}

/// The place after a digit of the exponent.
fn exponent_digit(octet: u8) -> DecimalPlace
    ensures { result ≡ exponent_digit octet }
{
    match octet {
        b'0'..=b'9' => DecimalPlace::ExponentDigits,
        _ => DecimalPlace::Nowhere,
    }
}

/// Whether the exponent has begun.
pub(super) fn in_exponent(place: DecimalPlace) -> bool
    ensures { result ≡ in_exponent place }
{
    matches!(
        place,
        DecimalPlace::ExponentMark | DecimalPlace::ExponentSign | DecimalPlace::ExponentDigits
    )
}

/// Whether a number of the form may end here.
pub(super) fn is_whole_number(form: NumberForm, place: DecimalPlace) -> bool
    ensures { result ≡ is_whole_number form place }
{
    match form {
        NumberForm::Nr1 => matches!(place, DecimalPlace::Digits),
        NumberForm::Nr2 => matches!(place, DecimalPlace::Fraction),
        NumberForm::Nr3 => matches!(place, DecimalPlace::ExponentDigits),
    }
}
