//! The rows of tests/rows, file by file. `tests/make-rows` writes this file and those beside it.
mod characters;
mod each_finding;
mod elements;
mod extract;
mod faults;
mod findings;
mod indef;
mod indef_kept;
mod inside;
mod layouts;
mod padding;
mod times;
mod values;

/// The rows, a text for each file, with a line for each row.
pub(crate) fn tables() -> [&'static str; 13] {
    [
        characters::CHARACTERS,
        each_finding::EACH_FINDING,
        elements::ELEMENTS,
        extract::EXTRACT,
        faults::FAULTS,
        findings::FINDINGS,
        indef::INDEF,
        indef_kept::INDEF_KEPT,
        inside::INSIDE,
        layouts::LAYOUTS,
        padding::PADDING,
        times::TIMES,
        values::VALUES,
    ]
}
