// The lines of the sheet (document 01, "Call file and sheet"): a line written into a lent buffer, with a tally.
#![tactic(auto)]

mod calls;
mod counting;

pub use calls::{line_part, put_counted, write_line};
pub use counting::count_line;
