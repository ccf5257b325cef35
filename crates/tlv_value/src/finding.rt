//! The findings on an element.

/// A rule of X.690 or X.680 that an element breaks. The letter of the code says where the rule applies: `B` in all
/// encodings (clause 8, and X.680), `S` in both CER and DER (clauses 9 to 11), `D` in DER alone (10), `C` in CER
/// alone (9).
#[derive(Clone, Copy, Debug, Default, PartialEq, Eq)]
pub enum Finding {
    /// The high form for a number below 31 (8.1.2.2).
    #[default]
    B01,
    /// The high form with leading zero bits (8.1.2.4.2 c).
    B02,
    /// A universal number that is not assigned (X.680, table 1).
    B03,
    /// A constructed element of a type that is primitive (8.2.1 and others).
    B04,
    /// A primitive element of a type that is constructed (8.9.1 and others).
    B05,
    /// A BOOLEAN whose contents are not one octet (8.2.1).
    B06,
    /// An INTEGER or ENUMERATED without contents (8.3.1).
    B07,
    /// An INTEGER or ENUMERATED whose first nine bits are equal (8.3.2).
    B08,
    /// A NULL with contents (8.8.2).
    B09,
    /// An OBJECT IDENTIFIER without contents (8.19.2).
    B10,
    /// A subidentifier that begins with `80` (8.19.2, 8.20.2).
    B11,
    /// A last subidentifier that lacks octets (8.19.2, 8.20.2).
    B12,
    /// A BIT STRING without its first octet (8.6.2).
    B13,
    /// More than 7 unused bits (8.6.2.2).
    B14,
    /// Unused bits although there is no octet for them (8.6.2.3).
    B15,
    /// A segment after one with unused bits (8.6.4).
    B16,
    /// A segment whose tag is not the tag that the segments of its string have (8.6.4, 8.7.3).
    B17,
    /// Characters that the type does not allow (X.680 41).
    B18,
    /// A time that does not follow the grammar of its type (X.680 46, 47).
    B19,
    /// A REAL of no form (8.5.6 to 8.5.9).
    B20,
    /// A DATE, TIME-OF-DAY or DATE-TIME that is not written as it has to be, or whose day or time does not exist
    /// (8.26).
    B21,
    /// A constructed time or internationalized resource identifier (8.21, 8.22, 8.26).
    B22,
    /// An OID-IRI or RELATIVE-OID-IRI that does not follow its grammar (8.21, 8.22).
    B23,
    /// A RELATIVE-OID without contents (8.20.2).
    B24,
    /// A surrogate, or a number above 10ffff, in a BMPString or UniversalString (8.23).
    B25,
    /// A UTCTime or GeneralizedTime with a day that its month does not have (X.680 46, 47).
    B26,
    /// An EXTERNAL, EMBEDDED PDV or CHARACTER STRING that holds no element (8.17, 8.18, 8.24).
    B27,
    /// A string whose segments have characters that the type does not allow (8.23, X.680 41).
    B28,
    /// A REAL that is zero and has contents (8.5.2, 8.5.3).
    B29,
    /// An element of an EXTERNAL, EMBEDDED PDV or CHARACTER STRING whose tag no component has (8.17, 8.18, 8.24).
    B30,
    /// A length that is not the shortest (9.1, 10.1).
    S01,
    /// TRUE that is not `ff` (11.1).
    S02,
    /// Unused bits that are set (11.2.1).
    S03,
    /// A time that is not in the canonical form (11.7, 11.8).
    S04,
    /// An element of a SET that is out of order (9.3, 10.3, 11.6).
    S05,
    /// A REAL that is not in the canonical form (11.3).
    S06,
    /// The indefinite length (10.1).
    D01,
    /// A constructed string (10.2).
    D02,
    /// A constructed element with a definite length (9.1).
    C01,
    /// A primitive string of more than 1000 contents octets (9.2).
    C02,
    /// A segment that is constructed (9.2).
    C03,
    /// A segment after one that is not a primitive of 1000 contents octets (9.2).
    C04,
    /// A constructed string that fits in 1000 contents octets (9.2).
    C05,
    /// A last segment without contents (9.2).
    C06,
}

impl Finding {
    ghost use Rattle.std.specs.Prelude.{◌≡◌, ◌≤◌, ◌++◌, ◌∷◌, [], take};
    ghost use Rattle.tlv_value.specs.AllChecks.{is_listed};
    ghost use Rattle.tlv_value.specs.Finding.{finding_code, finding_text, finding_wording};

    /// The three-character code of the finding, such as `B01`.
    pub fn code(self) -> &'static [u8]
        ensures { result.now ≡ finding_code self }
    {
        let (line, _) = self.line_block();
        &line[..3]
    }

    /// Whether the finding is listed: `tlvdump` reports the listed ones, and `tlvdump-show` all.
    pub fn is_listed(self) -> bool
        ensures { result ≡ is_listed self }
    {
        !matches!(
            self,
            Finding::B20
                | Finding::B21
                | Finding::B22
                | Finding::B23
                | Finding::B24
                | Finding::B25
                | Finding::B26
                | Finding::B27
                | Finding::B28
                | Finding::B29
                | Finding::B30
                | Finding::S05
                | Finding::S06
        )
    }

    /// The description of the finding, in ASCII.
    pub fn text(self) -> &'static [u8]
        ensures { result.now ≡ finding_text self }
    {
        let (line, count) = self.line_block();
        &line[4..count - 1]
    }

    /// A block of the text and a line feed, filled up with spaces so that it can be copied at once; and the number of
    /// octets before these spaces.
    #[inline]
    pub fn text_block(self) -> (&'static [u8; 44], usize)
        ensures text { take result.1 result.0.now ≡ finding_text self ++ 10 ∷ [] }
        ensures count { result.1 ≤ 41 }
    {
        let (line, count) = self.line_block();
        match line.last_chunk() {
            Some(text) => (text, count - 4),
            None => unreachable!(),
        }
    }

    /// A block of the code, a space, the text and a line feed, filled up with spaces so that it can be copied at once;
    /// and the number of octets before these spaces.
    pub fn line_block(self) -> (&'static [u8; 48], usize)
        ensures line { take result.1 result.0.now ≡ finding_wording self ++ 10 ∷ [] }

        // Code and space are 4 octets, and no text has more than 40.
        ensures count { (5 ≤ result.1) × (result.1 ≤ 45) }
    {
        match self {
            Finding::B01 => (b"B01 high form for a number below 31\n            ", 36),
            Finding::B02 => (b"B02 tag number begins with zero bits\n           ", 37),
            Finding::B03 => (b"B03 unassigned universal number\n                ", 32),
            Finding::B04 => (b"B04 type must be primitive\n                     ", 27),
            Finding::B05 => (b"B05 type must be constructed\n                   ", 29),
            Finding::B06 => (b"B06 BOOLEAN is not one octet\n                   ", 29),
            Finding::B07 => (b"B07 no contents of an integer\n                  ", 30),
            Finding::B08 => (b"B08 integer is padded\n                          ", 22),
            Finding::B09 => (b"B09 NULL has contents\n                          ", 22),
            Finding::B10 => (b"B10 no contents of an object identifier\n        ", 40),
            Finding::B11 => (b"B11 subidentifier is padded\n                    ", 28),
            Finding::B12 => (b"B12 last subidentifier is unfinished\n           ", 37),
            Finding::B13 => (b"B13 no first octet of a bit string\n             ", 35),
            Finding::B14 => (b"B14 more than 7 unused bits\n                    ", 28),
            Finding::B15 => (b"B15 unused bits of no octet\n                    ", 28),
            Finding::B16 => (b"B16 segment follows unused bits\n                ", 32),
            Finding::B17 => (b"B17 segment has another tag\n                    ", 28),
            Finding::B18 => (b"B18 characters not of the type\n                 ", 31),
            Finding::B19 => (b"B19 time not of its grammar\n                    ", 28),
            Finding::B20 => (b"B20 REAL of no form\n                            ", 20),
            Finding::B21 => (b"B21 no such date or time\n                       ", 25),
            Finding::B22 => (b"B22 time or IRI must be primitive\n              ", 34),
            Finding::B23 => (b"B23 IRI not of its grammar\n                     ", 27),
            Finding::B24 => (b"B24 no contents of a relative identifier\n       ", 41),
            Finding::B25 => (b"B25 surrogate, or number above 10ffff\n          ", 38),
            Finding::B26 => (b"B26 month has no such day\n                      ", 26),
            Finding::B27 => (b"B27 components are missing\n                     ", 27),
            Finding::B28 => (b"B28 segments have characters not of the type\n   ", 45),
            Finding::B29 => (b"B29 REAL zero with contents\n                    ", 28),
            Finding::B30 => (b"B30 element is no component of it\n              ", 34),
            Finding::S01 => (b"S01 length is not the shortest\n                 ", 31),
            Finding::S02 => (b"S02 TRUE is not ff\n                             ", 19),
            Finding::S03 => (b"S03 unused bits are set\n                        ", 24),
            Finding::S04 => (b"S04 time is not canonical\n                      ", 26),
            Finding::S05 => (b"S05 element of a SET is out of order\n           ", 37),
            Finding::S06 => (b"S06 REAL is not canonical\n                      ", 26),
            Finding::D01 => (b"D01 indefinite length\n                          ", 22),
            Finding::D02 => (b"D02 constructed string\n                         ", 23),
            Finding::C01 => (b"C01 definite length of a constructed element\n   ", 45),
            Finding::C02 => (b"C02 primitive string above 1000 octets\n         ", 39),
            Finding::C03 => (b"C03 segment is constructed\n                     ", 27),
            Finding::C04 => (b"C04 segment follows one not of 1000 octets\n     ", 43),
            Finding::C05 => (b"C05 constructed string fits in 1000 octets\n     ", 43),
            Finding::C06 => (b"C06 last segment is empty\n                      ", 26),
        }
    }
}
