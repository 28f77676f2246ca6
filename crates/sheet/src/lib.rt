// The whole sheet (document 01, "Call file and sheet"), of the answers of a file and the book that it leaves: how long it is, and its
// writing into a lent buffer. Both are one walk over the lines, which writes them or only counts
// them; the tally says how far it has come.
#![tactic(auto)]

mod answers;
mod charges;
mod one;
mod open;
mod refused;
mod whole;

pub use refused::{put_refused, refused_width};
pub use whole::{put_sheet, sheet_width};
