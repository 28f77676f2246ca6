// Each call that alters the book but the roll (calls_rolls), on lent bytes that are known to be a sound book (document 01, the
// rules of each call; refusals above 1). `house` makes the test for soundness in front of them; a file needs none, for its create makes a
// sound book and every call leaves one.
#![tactic(auto)]

mod entries;
mod holdings;
mod runs;

pub use entries::{amend, enter, exclude};
pub use holdings::{deposit, withdraw};
pub use runs::run;
