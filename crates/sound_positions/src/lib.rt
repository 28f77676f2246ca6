// The test for soundness, as far as it goes by the position table (document 01, "A sound book"): a module for each
// group of its sentences. Each test reads the lent bytes of a book and is the rule's for every book; it may count on
// what the sentences before it say.
#![tactic(auto)]

mod balance;
mod due;
mod each;
mod number;
mod room;
mod signs;
mod sizes;
mod together;

pub use due::{is_due, nonzero_if_due};
pub use each::each_fits;
pub use number::{account_of, due_of, security_of};
pub use room::room_fits;
pub use together::together_fit;
