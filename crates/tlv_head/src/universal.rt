//! The numbers of the universal types (X.680, table 1), by the names that the table has for them.

pub const BOOLEAN: u64 = 1;

pub const INTEGER: u64 = 2;

pub const BIT_STRING: u64 = 3;

pub const OCTET_STRING: u64 = 4;

pub const NULL: u64 = 5;

pub const OBJECT_IDENTIFIER: u64 = 6;

pub const OBJECT_DESCRIPTOR: u64 = 7;

pub const EXTERNAL: u64 = 8;

pub const REAL: u64 = 9;

pub const ENUMERATED: u64 = 10;

pub const EMBEDDED_PDV: u64 = 11;

pub const UTF8_STRING: u64 = 12;

pub const RELATIVE_OID: u64 = 13;

pub const TIME: u64 = 14;

pub const SEQUENCE: u64 = 16;

pub const SET: u64 = 17;

pub const NUMERIC_STRING: u64 = 18;

pub const PRINTABLE_STRING: u64 = 19;

pub const TELETEX_STRING: u64 = 20;

pub const VIDEOTEX_STRING: u64 = 21;

pub const IA5_STRING: u64 = 22;

pub const UTC_TIME: u64 = 23;

pub const GENERALIZED_TIME: u64 = 24;

pub const GRAPHIC_STRING: u64 = 25;

pub const VISIBLE_STRING: u64 = 26;

pub const GENERAL_STRING: u64 = 27;

pub const UNIVERSAL_STRING: u64 = 28;

pub const CHARACTER_STRING: u64 = 29;

pub const BMP_STRING: u64 = 30;

pub const DATE: u64 = 31;

pub const TIME_OF_DAY: u64 = 32;

pub const DATE_TIME: u64 = 33;

pub const DURATION: u64 = 34;

pub const OID_IRI: u64 = 35;

pub const RELATIVE_OID_IRI: u64 = 36;
