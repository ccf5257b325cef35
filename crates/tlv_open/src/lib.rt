//! Which OCTET STRINGs and BIT STRINGs of an input hold encodings, so that they can be opened (ITU-T X.690, 8.6 and
//! 8.7), and which look like encodings but break.
#![tactic(auto)]

mod adding;
mod breaking;
mod elements;
mod extent;
mod finder;
mod held;
pub mod laws;
mod reading;
mod spot;
mod strings;

pub use finder::{opened, strings_of};
pub use held::holds_encodings;
pub use reading::ending_of;
pub use strings::{BrokenString, Strings, Suspicion, broken_line};
