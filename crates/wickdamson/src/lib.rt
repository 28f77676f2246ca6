// The public calls of the base for programs in other languages (include/wickdamson.h declares them): numbers and lent
// slices only. A slice is a pointer and a length there, and a lent number a pointer. None requires anything of its caller, and
// each is promised in full, as the call that it stands for: the answer, each figure that is written, every byte of what is lent.
#![tactic(auto)]

mod creation;
mod files;
mod holdings;
mod marked;
mod prices;
mod settlement;
mod sheet_lines;
mod trades;
mod wide;

pub use creation::{wick_book_bytes, wick_create, wick_sound, wick_version};
pub use files::{wick_play, wick_record, wick_sheet};
pub use holdings::{wick_deposit, wick_withdraw};
pub use marked::wick_marks;
pub use prices::wick_price;
pub use settlement::{wick_roll, wick_run};
pub use sheet_lines::{
    wick_line_charge, wick_line_day, wick_line_end, wick_line_open, wick_line_place,
    wick_line_refusal,
};
pub use trades::{wick_amend, wick_enter, wick_exclude};
