//! The findings on contents, from what was noted of them.
ghost use Rattle.std.specs.Prelude.{◌≡◌, ◌<◌, ◌≤◌, ◌%◌, ◌^◌, ◌++◌, ◌∷◌, [], eqb, length, not};
ghost use Rattle.tlv_head.specs.UniversalTypes.{bit_string, boolean, generalized_time, real, utc_time, utf8_string};
ghost use Rattle.tlv_value.specs.Checks.{findings_by};
ghost use Rattle.tlv_value.specs.Private.TimeFindings.{time_findings};
ghost use Rattle.tlv_value.specs.Types.{tested_string_types};
ghost use Rattle.tlv_head.specs.Lists.{is_among};
ghost use Rattle.tlv_value.specs.ValueCheckState.{finding_if, findings_in, is_allowed, is_kept_date, is_kept_iri};
ghost use Rattle.tlv_value.specs.ValueCheckState.{begins_kept_iri, kept_conditions};

use super::{ValueCheck, both, is_utf8};
use crate::Finding;
use crate::dates::{is_date_or_time, month_has_day, month_has_day_in_some_century};
use crate::time::{general_canonical, general_ok, utc_canonical, utc_ok};
use arrayvec::ArrayVec;
use tlv_head::universal;

impl ValueCheck {
    /// The findings on the contents, from what was noted of them.
    pub(super) fn findings(&self) -> ArrayVec<Finding, 16>
        ensures { result.items ≡ findings_in self.now }
    {
        let mut found = ArrayVec::new();
        match self.number {
            universal::BOOLEAN => self.add_boolean_findings(&mut found),
            universal::INTEGER | universal::ENUMERATED => {
                add_if(self.size == 0, Finding::B07, &mut found);
                add_if(self.is_padded_integer(), Finding::B08, &mut found);
            }
            universal::BIT_STRING => self.add_bit_string_findings(&mut found),
            universal::NULL => add_if(self.size != 0, Finding::B09, &mut found),
            universal::OBJECT_IDENTIFIER => {
                add_if(self.size == 0, Finding::B10, &mut found);
                add_if(self.is_padded, Finding::B11, &mut found);
                add_if(self.last >= 128, Finding::B12, &mut found);
            }
            universal::RELATIVE_OID => {
                add_if(self.is_padded, Finding::B11, &mut found);
                add_if(self.last >= 128, Finding::B12, &mut found);
                add_if(self.size == 0, Finding::B24, &mut found);
            }
            universal::REAL => self.add_real_findings(&mut found),
            universal::UTC_TIME => self.add_utc_time_findings(&mut found),
            universal::GENERALIZED_TIME => self.add_generalized_time_findings(&mut found),
            universal::DATE | universal::TIME_OF_DAY | universal::DATE_TIME => {
                add_if(!self.is_date_or_time(), Finding::B21, &mut found);
            }
            universal::OID_IRI | universal::RELATIVE_OID_IRI => {
                add_if(!self.is_iri(), Finding::B23, &mut found);
            }
            universal::UNIVERSAL_STRING | universal::BMP_STRING => {
                add_if(!self.is_allowed(), Finding::B18, &mut found);
                add_if(!self.are_characters, Finding::B25, &mut found);
            }
            number if is_tested_string_type(number) => {
                add_if(!self.is_allowed(), Finding::B18, &mut found);
            }
            _ => {}
        }
        found
    }

    /// Whether the type allows the characters of the contents.
    #[inline(always)]
    fn is_allowed(&self) -> bool
        ensures { result ≡ is_allowed self.now }
    {
        let all = match self.number {
            universal::UTF8_STRING => both(self.are_full_rows_utf8, is_utf8(self.row.as_slice())),
            universal::BMP_STRING => self.size % 2 == 0,
            universal::UNIVERSAL_STRING => self.size % 4 == 0,
            _ => true,
        };
        both(all, self.are_octets_allowed)
    }

    /// Whether the contents of an OID-IRI or RELATIVE-OID-IRI are UTF-8, and made of labels (8.21, 8.22).
    fn is_iri(&self) -> bool
        ensures { result ≡ is_kept_iri self.now.number self.now }
    {
        let is_utf8 = both(self.are_full_rows_utf8, is_utf8(self.row.as_slice()));
        let ends = !self.has_empty_label && self.last != b'/';
        both(is_utf8, both(self.begins_iri(), ends))
    }

    /// Whether an OID-IRI begins with `/`, or a RELATIVE-OID-IRI with another octet.
    fn begins_iri(&self) -> bool
        ensures { result ≡ begins_kept_iri self.now.number self.now }
    {
        let has_solidus = self.known != 0 && self.first == b'/';
        if self.number == universal::OID_IRI {
            has_solidus
        } else {
            self.size != 0 && !has_solidus
        }
    }

    /// Whether the contents are those of a DATE, TIME-OF-DAY or DATE-TIME, the type that the check is of (8.26).
    fn is_date_or_time(&self) -> bool
        ensures { result ≡ is_kept_date self.now.number self.now }
    {
        self.size <= 64 && is_date_or_time(self.number, self.time.as_slice())
    }

    /// Adds the findings on the contents of a BOOLEAN.
    fn add_boolean_findings(&self, found: &mut ArrayVec<Finding, 16>)
        requires { found.old.items ≡ [] }
        ensures { found.new.items ≡ findings_by (kept_conditions boolean self.now) }
    {
        let first = self.first_octet();
        add_if(self.size != 1, Finding::B06, found);
        add_if(
            self.size == 1 && first != 0 && first != 255,
            Finding::S02,
            found,
        );
    }

    /// Adds the findings on the contents of a REAL.
    fn add_real_findings(&self, found: &mut ArrayVec<Finding, 16>)
        requires { found.old.items ≡ [] }
        ensures { found.new.items ≡ findings_by (kept_conditions real self.now) }
    {
        let is_of_form = self.real.is_of_form();
        let is_canonical = self.real.is_canonical();
        add_if(!is_of_form, Finding::B20, found);
        add_if(self.real.is_zero(), Finding::B29, found);
        add_if(is_of_form && !is_canonical, Finding::S06, found);
    }

    /// Adds the findings on the contents of a UTCTime.
    fn add_utc_time_findings(&self, found: &mut ArrayVec<Finding, 16>)
        requires { found.old.items ≡ [] }
        ensures { found.new.items ≡ findings_by (kept_conditions utc_time self.now) }
    {
        if self.size <= 64 {
            let time = self.time.as_slice();
            let has_day = month_has_day_in_some_century(time);
            add_time_findings(utc_ok(time), has_day, utc_canonical(time), found);
        }
    }

    /// Adds the findings on the contents of a GeneralizedTime.
    fn add_generalized_time_findings(&self, found: &mut ArrayVec<Finding, 16>)
        requires { found.old.items ≡ [] }
        ensures { found.new.items ≡ findings_by (kept_conditions generalized_time self.now) }
    {
        if self.size <= 64 {
            let time = self.time.as_slice();
            let has_day = month_has_day(time);
            add_time_findings(general_ok(time), has_day, general_canonical(time), found);
        }
    }

    /// Adds the findings on the contents of a BIT STRING.
    fn add_bit_string_findings(&self, found: &mut ArrayVec<Finding, 16>)
        requires { found.old.items ≡ [] }
        ensures { found.new.items ≡ findings_by (kept_conditions bit_string self.now) }
    {
        let first = self.first_octet();
        add_if(self.size == 0, Finding::B13, found);
        add_if(first > 7, Finding::B14, found);
        add_if(
            self.size == 1 && first >= 1 && first <= 7,
            Finding::B15,
            found,
        );
        add_if(
            self.size >= 2 && first <= 7 && is_any_set(first, self.last),
            Finding::S03,
            found,
        );
    }
}

/// Whether the type with this number is a string of characters of one octet, or UTF8String.
fn is_tested_string_type(number: u64) -> bool
    ensures { result ≡ is_among number (utf8_string ∷ tested_string_types) }
{
    matches!(
        number,
        universal::UTF8_STRING
            | universal::NUMERIC_STRING
            | universal::PRINTABLE_STRING
            | universal::IA5_STRING
            | universal::VISIBLE_STRING
    )
}

/// Adds a finding if `there` is set.
fn add_if(there: bool, finding: Finding, found: &mut ArrayVec<Finding, 16>)
    requires { length found.old.items < 16 }
    ensures { found.new.items ≡ found.old.items ++ finding_if there finding }
{
    if there {
        found.push(finding);
    }
}

/// Adds the findings on a time.
fn add_time_findings(
    of_grammar: bool,
    has_day: bool,
    is_canonical: bool,
    found: &mut ArrayVec<Finding, 16>,
)
    requires { length found.old.items < 15 }
    ensures { found.new.items ≡ found.old.items ++ time_findings of_grammar has_day is_canonical }
{
    if of_grammar {
        add_if(!has_day, Finding::B26, found);
        add_if(!is_canonical, Finding::S04, found);
    } else {
        found.push(Finding::B19);
    }
}

/// Whether any of the last `bits` bits of an octet is 1.
pub(crate) fn is_any_set(bits: u8, octet: u8) -> bool
    requires { bits ≤ 7 }
    ensures { result ≡ not (eqb (octet % 2 ^ bits) 0) }
{
    let power = match bits {
        0 => 1,
        1 => 2,
        2 => 4,
        3 => 8,
        4 => 16,
        5 => 32,
        6 => 64,
        _ => 128,
    };
    octet % power != 0
}
