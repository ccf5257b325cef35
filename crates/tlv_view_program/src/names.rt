//! The names of object identifiers that are shown.
ghost use Rattle.std.specs.FinMap as finite;
ghost use Rattle.std.specs.Option.{is_none};
ghost use Rattle.std.specs.Prelude.{◌≡◌, option_map};
ghost use Rattle.tlv_view_program.specs.Private.Tables.{OpensNames, OpensOrNot, is_noted, result_without_file, table_result};
ghost use Rattle.tlv_view_program.specs.ShowsAll.{GetsTable, OpensFirst};

use crate::file_names::FileNames;
use crate::request::Wanted;
use std::alloc::Global;
use tlv_program::System;
use tlv_run::Text;
use tlv_value::{Names, NamesFault};

/// The names for what is wanted, and whether to note that no names file was found.
#[derive(Drop)]
pub(crate) struct Table {
    pub names: Names,
    pub is_missing: bool,
}

/// The names for what is wanted: from the names file that the words name, or else from the first of these files that
/// opens.
pub(crate) fn table_for<S: System>(
    alloc: Global,
    wanted: &Wanted,
    places: &FileNames,
    system: &mut S,
) -> Result<Table, NamesFault>
    ensures { GetsTable S.allows wanted.now places.now system.old system.new (is_noted result) (table_result result) }
{
    let name = match wanted {
        Wanted::Dump { names, .. } => names,
        Wanted::Check { .. } => return Ok(no_table(false)),
        Wanted::Extract { .. } => return Ok(no_table(false)),
        Wanted::Offsets => return Ok(no_table(false)),
        Wanted::Raw => return Ok(no_table(false)),
        Wanted::Why { .. } => return Ok(no_table(false)),
    };
    let Some(mut file) = open_names(name, places, system) else {
        return table_without_file(name);
    };
    let names = Names::read(alloc, &mut file);
    system.close(file);
    match names {
        Ok(names) => Ok(Table {
            names,
            is_missing: false,
        }),
        Err(fault) => Err(fault),
    }
}

/// The names if no file opens: none, and a note of that, unless a file was named.
fn table_without_file(name: &Option<Text>) -> Result<Table, NamesFault>
    ensures result { table_result result ≡ result_without_file name.now }
    ensures noted { is_noted result ≡ is_none name.now }
{
    match name {
        Some(_) => Err(NamesFault::ReadFailed),
        None => Ok(no_table(true)),
    }
}

/// No names.
fn no_table(is_missing: bool) -> Table
    ensures names { result.names ≡ finite.empty }
    ensures noted { result.is_missing ≡ is_missing }
{
    Table {
        names: Names::empty(),
        is_missing,
    }
}

/// Opens the file of this name, or else the first of these that opens.
fn open_names<S: System>(name: &Option<Text>, places: &FileNames, system: &mut S) -> Option<S::File>
    ensures { OpensNames S.allows name.now places.now system.old system.new (option_map S.File.state result) }
{
    match name {
        Some(name) => open_or_not(name.as_str(), system),
        None => open_first(places, system),
    }
}

/// Opens the file of this name, if it opens.
fn open_or_not<S: System>(name: &str, system: &mut S) -> Option<S::File>
    ensures { OpensOrNot S.allows name.now system.old system.new (option_map S.File.state result) }
{
    match system.open(name) {
        Ok(file) => Some(file),
        Err(_) => None,
    }
}

/// Opens the first of these files that opens.
fn open_first<S: System>(places: &FileNames, system: &mut S) -> Option<S::File>
    ensures { OpensFirst S.allows places.now system.old system.new (option_map S.File.state result) }
{
    for place in places.as_slice() {
        if let Some(file) = open_or_not(place.as_str(), system) {
            return Some(file);
        }
    }
    None
}
