//! How the contents of a primitive are shown.
ghost use Rattle.std.specs.Prelude.{◌≡◌};
ghost use Rattle.tlv_head.specs.Kind.{kind_of};

use crate::{Class, type_at};

/// How the contents of a primitive are shown.
#[derive(Clone, Copy, Debug, PartialEq, Eq)]
pub enum Kind {
    /// Octets of unknown meaning.
    Octets,
    /// 8.2.
    Boolean,
    /// 8.3, 8.4.
    Integer,
    /// 8.6.
    Bits,
    /// 8.19.
    Object,
    /// 8.20: an object identifier without its first arcs.
    Relative,
    /// Characters of one octet each.
    Text,
    /// 8.23.10: characters in UTF-8.
    Utf8,
    /// 8.23.8: characters of two octets each.
    Ucs2,
    /// 8.23.7: characters of four octets each.
    Ucs4,
}

/// How the contents of a primitive with this tag are shown.
#[inline(always)]
pub fn kind_of(class: Class, number: u64) -> Kind
    ensures { result ≡ kind_of class number }
{
    if matches!(class, Class::Universal)
        && let Some(found) = type_at(number)
    {
        found.kind
    } else {
        Kind::Octets
    }
}
