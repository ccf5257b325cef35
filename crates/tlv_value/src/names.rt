//! Names for object identifiers, read from a file.
ghost use Rattle.std.specs.Prelude.{◌≡◌};
ghost use Rattle.std.specs.Option.{option_copied};
ghost use Rattle.std.specs.FinMap as finite;
ghost use Rattle.tlv_value.specs.NamesReading.{ReadsFrom};

mod arcs;
mod fault;
mod names_line;
mod reading;
mod table;

use crate::NameTable;
pub use fault::NamesFault;
use reading::read_in;
use std::alloc::{Allocator, Global};
use std::marker::Model;
use std::str;
use table::Table;
use tlv_io::Source;

/// Names for object identifiers: a map from dotted text to name.
#[derive(Drop)]
pub struct Names<A: Allocator = Global> {
    table: Option<Table<A>>,
}

impl<A: Allocator> Model for Names<A> {
    ghost use Rattle.tlv_value.specs.Names.{NamesValue, table_code};
    ghost use Rattle.tlv_value.specs.NamesFields.{names_in};

    ghost Value = { NamesValue };

    ghost coded = { table_code };

    ghost view = { λ names. names_in names.table };
}

impl Names {
    /// No names.
    pub fn empty() -> Names
        ensures { result ≡ finite.empty }
    {
        Names { table: None }
    }
}

impl<A: Allocator> Names<A> {
    /// Reads a names file to its end, and then checks its lines in order. Does not read again after the end.
    ///
    /// A line is the octets up to an LF or the end, without a CR at its end and then without the spaces and tabs at
    /// both ends. A line that is then empty or begins with `#` is ignored. Any other line has the dotted text of an
    /// object identifier, then spaces or tabs, then its name, which consists of octets from `20` to `7e`.
    ///
    /// # Errors
    ///
    /// `ReadFailed` if and only if a read failed. `TooLarge` once the source gave more than 1,048,576 octets; nothing
    /// more is read then. Of the lines, the first one refused decides: `TooLarge` for a line of more than 400 octets,
    /// its CR included, `BadOid` and `BadName` for its parts, `Repeated` if an earlier line has its dotted text, and
    /// `TooLarge` for an entry after the first 65,536. `Memory` at any time, if memory is refused.
    pub fn read<S: Source>(alloc: A, source: &mut S) -> Result<Names<A>, NamesFault>
    where
        A: Copy,
        ensures { ReadsFrom (S.state source.old) (S.state source.new) result }
    {
        let table = read_in(alloc, source)?;
        Ok(Names { table: Some(table) })
    }

    /// The name of the object identifier with this dotted text.
    pub fn get(&self, dotted: &[u8]) -> Option<&[u8]>
        ensures { option_copied result ≡ finite.get self.now dotted.now }
    {
        let Some(table) = &self.table else {
            return None;
        };
        let Ok(text) = str::from_utf8(dotted) else {
            // Keys are UTF-8, so this text is not a key.
            return None;
        };
        match table.get(text) {
            None => None,
            Some(name) => Some(name.as_slice()),
        }
    }
}

impl<A: Allocator> NameTable for Names<A> {
    ghost use Rattle.std.specs.FinMap as finite;

    ghost name_of = { λ names dotted. finite.get names dotted };

    fn get(&self, dotted: &[u8]) -> Option<&[u8]> {
        Names::get(self, dotted)
    }
}
