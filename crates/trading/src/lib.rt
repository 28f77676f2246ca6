// Entry, amendment and exclusion of trades (document 01, "From trades to positions" and "Refusal numbers"): what a sound
// book in bytes answers, and the list that an accepted call leaves.
#![tactic(auto)]

mod entry;
mod list;
mod refusals;

pub use entry::{put_amended, put_entered, put_excluded};
pub use refusals::{may_amend, may_enter, may_exclude};
