//! How the contents of a primitive are shown, in few instructions.
ghost use Rattle.std.specs.Prelude.{◌≡◌};
ghost use Rattle.tlv_head.specs.Kind.{kind_of};

use tlv_head::{Class, Kind, kind_of};

/// How the contents of each type whose tag has one octet are shown, by the number of the type.
static KINDS: [Kind; 31] = [
    Kind::Octets,
    Kind::Boolean,
    Kind::Integer,
    Kind::Bits,
    Kind::Octets,
    Kind::Octets,
    Kind::Object,
    Kind::Text,
    Kind::Octets,
    Kind::Octets,
    Kind::Integer,
    Kind::Octets,
    Kind::Utf8,
    Kind::Relative,
    Kind::Octets,
    Kind::Octets,
    Kind::Octets,
    Kind::Octets,
    Kind::Text,
    Kind::Text,
    Kind::Text,
    Kind::Text,
    Kind::Text,
    Kind::Text,
    Kind::Text,
    Kind::Text,
    Kind::Text,
    Kind::Text,
    Kind::Ucs4,
    Kind::Octets,
    Kind::Ucs2,
];

/// How the contents of a primitive with this tag are shown, by the table of types. This is called for each element.
/// Most tags have one octet, and one look-up is enough for their numbers.
#[inline(always)]
pub(crate) fn quick_kind(class: Class, number: u64) -> Kind
    ensures { result ≡ kind_of class number }
{
    match class {
        Class::Universal if number <= 30 => KINDS[number as usize],
        Class::Universal => late_kind(number),
        _ => Kind::Octets,
    }
}

/// How the contents of a primitive with this universal tag are shown. It is separate, since it is seldom called.
#[inline(never)]
fn late_kind(number: u64) -> Kind
    ensures { result ≡ kind_of Class.Universal number }
{
    kind_of(Class::Universal, number)
}
