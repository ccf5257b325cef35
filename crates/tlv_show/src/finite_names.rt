//! The tables of names that a dump uses.
ghost use Rattle.std.specs.FinMap as finite;
ghost use Rattle.std.specs.Prelude.{◌≡◌, refl};
ghost use Rattle.tlv_value.specs.Names.{NamesValue};

use tlv_value::{NameTable, Names};

/// A table of names for finitely many object identifiers.
pub trait FiniteNames: NameTable {
    /// The names, by dotted texts.
    ghost table: { Self → NamesValue };

    /// `get` returns these names.
    ghost has_table: { (names : Self) → Self.name_of names ≡ finite.get (table names) };
}

impl FiniteNames for Names {
    ghost table = { λ names. names };

    ghost has_table = { λ names. refl };
}
