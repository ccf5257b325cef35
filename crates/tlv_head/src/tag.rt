//! The texts of tags.
ghost use Rattle.std.specs.Prelude.{◌≡◌, ◌≤◌, IfSome, length, take};
ghost use Rattle.std.specs.Option.{option_copied, option_map};
ghost use Rattle.tlv_head.specs.Tag.{tag_text};
ghost use Rattle.tlv_head.specs.TypeTable.{type_at};

use crate::{Class, universal};
use arrayvec::ArrayVec;
use itoa::Buffer;

/// The name of a universal type (X.680, table 1), in ASCII, such as `INTEGER`: at most 17 octets. `None` if no type
/// has the number.
pub fn type_name(number: u64) -> Option<&'static [u8]>
    ensures name { option_copied result ≡ option_map (λ t. t.name) (type_at number) }
    ensures short { IfSome result (λ name. length name.now ≤ 17) }
{
    let (name, size) = type_name_block(number)?;
    Some(&name[..size])
}

/// A block that begins with the name of a universal type, followed by spaces, so that the name can be copied at once;
/// and the number of octets of the name.
/// `None` if no type has the number.
#[inline(always)]
pub fn type_name_block(number: u64) -> Option<(&'static [u8; 32], usize)>
    ensures name { option_map (λ (block, size). take size block.now) result
        ≡ option_map (λ t. t.name) (type_at number) }
    ensures within { IfSome result (λ (block, size). size ≤ 17) }
{
    Some(match number {
        universal::BOOLEAN => (b"BOOLEAN                         ", 7),
        universal::INTEGER => (b"INTEGER                         ", 7),
        universal::BIT_STRING => (b"BIT STRING                      ", 10),
        universal::OCTET_STRING => (b"OCTET STRING                    ", 12),
        universal::NULL => (b"NULL                            ", 4),
        universal::OBJECT_IDENTIFIER => (b"OBJECT IDENTIFIER               ", 17),
        universal::OBJECT_DESCRIPTOR => (b"ObjectDescriptor                ", 16),
        universal::EXTERNAL => (b"EXTERNAL                        ", 8),
        universal::REAL => (b"REAL                            ", 4),
        universal::ENUMERATED => (b"ENUMERATED                      ", 10),
        universal::EMBEDDED_PDV => (b"EMBEDDED PDV                    ", 12),
        universal::UTF8_STRING => (b"UTF8String                      ", 10),
        universal::RELATIVE_OID => (b"RELATIVE-OID                    ", 12),
        universal::TIME => (b"TIME                            ", 4),
        universal::SEQUENCE => (b"SEQUENCE                        ", 8),
        universal::SET => (b"SET                             ", 3),
        universal::NUMERIC_STRING => (b"NumericString                   ", 13),
        universal::PRINTABLE_STRING => (b"PrintableString                 ", 15),
        universal::TELETEX_STRING => (b"TeletexString                   ", 13),
        universal::VIDEOTEX_STRING => (b"VideotexString                  ", 14),
        universal::IA5_STRING => (b"IA5String                       ", 9),
        universal::UTC_TIME => (b"UTCTime                         ", 7),
        universal::GENERALIZED_TIME => (b"GeneralizedTime                 ", 15),
        universal::GRAPHIC_STRING => (b"GraphicString                   ", 13),
        universal::VISIBLE_STRING => (b"VisibleString                   ", 13),
        universal::GENERAL_STRING => (b"GeneralString                   ", 13),
        universal::UNIVERSAL_STRING => (b"UniversalString                 ", 15),
        universal::CHARACTER_STRING => (b"CHARACTER STRING                ", 16),
        universal::BMP_STRING => (b"BMPString                       ", 9),
        universal::DATE => (b"DATE                            ", 4),
        universal::TIME_OF_DAY => (b"TIME-OF-DAY                     ", 11),
        universal::DATE_TIME => (b"DATE-TIME                       ", 9),
        universal::DURATION => (b"DURATION                        ", 8),
        universal::OID_IRI => (b"OID-IRI                         ", 7),
        universal::RELATIVE_OID_IRI => (b"RELATIVE-OID-IRI                ", 16),
        _ => return None,
    })
}

/// The text of a tag, in ASCII: the name of a universal type, such as `INTEGER`; otherwise the class and the number,
/// such as `[UNIVERSAL 15]`, `[APPLICATION 31]`, `[0]` or `[PRIVATE 7]`.
pub fn tag_text(class: Class, number: u64) -> ArrayVec<u8, 40>
    ensures { result.items ≡ tag_text class number }
{
    let mut text = ArrayVec::new();
    let prefix: &[u8] = match class {
        Class::Universal => {
            if let Some(name) = type_name(number) {
                let _ = text.try_extend_from_slice(name);
                return text;
            }
            b"[UNIVERSAL "
        }
        Class::Application => b"[APPLICATION ",
        Class::Context => b"[",
        Class::Private => b"[PRIVATE ",
    };
    let mut digits = Buffer::new();
    let _ = text.try_extend_from_slice(prefix);
    let _ = text.try_extend_from_slice(digits.format(number).as_bytes());
    text.push(b']');
    text
}
