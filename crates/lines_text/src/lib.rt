// The text of a line of the sheet (document 01, "Call file and sheet"): its head, its figures in decimals, a newline; measured, and written at a
// place of a lent buffer.
#![tactic(auto)]

mod decimals;
mod figures;
mod texts;
mod wording;

pub use texts::{line_width, put_line};

// A number on the sheet: its sign and its size.
#[derive(Clone, Copy)]
pub(crate) struct Figure {
    pub minus: bool,
    pub size: u64,
}

// A line of any kind: the first letter of its head, and its first `count` figures. (No heap: room for the five of the longest line.)
#[derive(Clone, Copy)]
pub(crate) struct Words {
    pub head: u8,
    pub count: usize,
    pub figures: [Figure; 5],
}
