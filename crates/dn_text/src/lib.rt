//! Decimal and hexadecimal fields, lines, and the parts of a line: what every text of this repository
//! is made of.
//!
//! | File | What it has |
//! |---|---|
//! | `decimals.rt` | decimal fields, both ways |
//! | `hexadecimals.rt` | hexadecimal fields, both ways |
//! | `lines.rt` | the first line of a text, and the first part of a line |
//! | `pieces.rt` | several pieces at the end of a text |
//!
//! The one contract upwards: a field has one spelling. `decimal` and `unhex` answer a value exactly where
//! the field is what `push_decimal` and `push_hex` write of it.
//!
//! After `NoMemory` of a call that appends, what stood in `out` before still stands at its front.
#![tactic(auto)]

mod decimals;
mod hexadecimals;
mod lines;
mod pieces;

pub use decimals::{Number, decimal, numeral, push_decimal};
pub use hexadecimals::{is_hex, push_hex, push_hex64, unhex};
pub use lines::{first_line, first_part};
pub use pieces::{Piece, append_all};
