//! A table without names, which holds no memory.
ghost use Rattle.std.specs.FinMap as finite;
ghost use Rattle.std.specs.Prelude.{refl};
ghost use Rattle.tlv_value.specs.Names.{NamesValue};

use tlv_show::FiniteNames;
use tlv_value::NameTable;

/// No object identifier has a name.
#[derive(Clone, Copy)]
pub struct NoNames;

impl NameTable for NoNames {
    ghost name_of = { λ _. let none : NamesValue = finite.empty in finite.get none };

    fn get(&self, _dotted: &[u8]) -> Option<&[u8]> {
        None
    }
}

impl FiniteNames for NoNames {
    ghost table = { λ _. finite.empty };

    ghost has_table = { λ _. refl };
}
