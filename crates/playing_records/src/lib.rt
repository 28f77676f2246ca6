// The records of a call file, one by one (document 01, "Call file and sheet"): where the next one stands, its call on the book, its answer.
#![tactic(auto)]

mod again;
mod applying;
mod walking;

pub use again::{apply_again, refused_behind};
pub use applying::{Answer, put_answer};
pub use walking::{count_answers, next_place};
