//! The table of a names file.
ghost use Rattle.std.specs.Prelude.{◌≤◌, length};
ghost use Rattle.tlv_value.specs.Names.{names_line};
ghost use Rattle.tlv_value.specs.NamesReading.{file_limit};
ghost use Rattle.tlv_value.specs.NamesFields.{texts_in};
ghost use Rattle.tlv_value.specs.Private.NamesSteps.{Adds, AddsLine, IsTableOf};

use super::NamesFault;
use super::names_line::{end_before, entry_or_refusal, rest_after};
use std::alloc::Allocator;
use std::collections::HashMap;
use std::hash::{BuildHasherDefault, FoldHasher};

/// A map from dotted texts to names.
pub(super) type Table<A> = HashMap<String<A>, Vec<u8, A>, BuildHasherDefault<FoldHasher>, A>;

/// The largest number of entries in a table.
const ENTRY_LIMIT: usize = 65_536;

/// The table of all lines, or the first refusal.
pub(super) fn names_of<A: Allocator + Copy>(alloc: A, octets: &[u8]) -> Result<Table<A>, NamesFault>
    requires { length octets.now ≤ file_limit }
    ensures { IsTableOf octets.now result }
{
    let mut table = HashMap::new(alloc);
    let mut rest = octets;
    let mut number = 0;
    while !rest.is_empty() {
        let end = end_before(rest, b'\n');
        number += 1;
        add_line(alloc, &mut table, &rest[..end], number)?;
        rest = rest_after(rest, end);
    }
    Ok(table)
}

/// Adds to the table what a line says.
fn add_line<A: Allocator + Copy>(
    alloc: A,
    table: &mut Table<A>,
    line: &[u8],
    number: u32,
) -> Result<(), NamesFault>
    ensures { AddsLine number (names_line line.now) (texts_in table.old)
        (texts_in table.new) result }
{
    match entry_or_refusal(line, number) {
        Ok(None) => Ok(()),
        Ok(Some((dotted, name))) => add(alloc, table, dotted, name, number),
        Err(fault) => Err(fault),
    }
}

/// Adds an entry to the table. `number` is the number of its line.
fn add<A: Allocator + Copy>(
    alloc: A,
    table: &mut Table<A>,
    dotted: &str,
    name: &[u8],
    number: u32,
) -> Result<(), NamesFault>
    ensures { Adds number dotted.now name.now (texts_in table.old) (texts_in table.new) result }
{
    if table.contains_key(dotted) {
        return Err(NamesFault::Repeated(number));
    }
    if table.len() >= ENTRY_LIMIT {
        return Err(NamesFault::TooLarge);
    }
    let Ok(key) = String::from_str(alloc, dotted) else {
        return Err(NamesFault::Memory);
    };
    let Ok(value) = Vec::from_slice(alloc, name) else {
        return Err(NamesFault::Memory);
    };
    match table.insert(key, value) {
        Ok(_) => Ok(()),
        Err(_) => Err(NamesFault::Memory),
    }
}
