//! What the contents of a primitive mean (ITU-T X.690, clauses 8, 9 and 11): the lines that show a value, and the
//! findings on it, in whatever pieces its octets come.
#![tactic(auto)]

mod dates;
mod decimal;
mod dotted_texts;
mod finding;
mod known_texts;
pub mod laws;
mod layout;
mod line_starts;
mod name_table;
mod names;
mod pairs;
mod primitive;
mod quick_kind;
mod real;
mod row_form;
mod row_sizes;
mod short_look;
mod time;
mod units;
mod value;
mod value_check;
mod value_lines;
mod value_text;
mod whole_lines;

pub use decimal::decimal_of;
pub use dotted_texts::dotted_of;
pub use finding::Finding;
pub use known_texts::KnownTexts;
pub use layout::Layout;
pub use line_starts::{begin_blank, begin_sized, begin_word, write_tag};
pub use name_table::NameTable;
pub use names::{Names, NamesFault};
pub use short_look::is_clear;
pub use time::{general_canonical, general_ok, utc_canonical, utc_ok};
pub use value_check::{ValueCheck, are_allowed};
pub use value_text::ValueText;
pub use whole_lines::{put_whole, put_whole_with};
