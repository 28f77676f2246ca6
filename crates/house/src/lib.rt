// The public calls over lent bytes (document 01, "Refusal numbers" and the rules of each call). None requires anything
// of its caller: every input is answered, and a refused call leaves each byte as it was.
#![tactic(auto)]

mod creation;
mod holdings;
mod marked;
mod settlement;
mod trades;

pub use creation::create;
pub use holdings::{deposit, withdraw};
pub use marked::marks;
pub use marking_prices::price;
use rules::Refusal;
pub use settlement::{roll, run};
pub use trades::{amend, enter, exclude};

// 1: book not sound. Every call on a book asks this before all else.
pub(crate) const UNSOUND: Refusal = Refusal::NotSound;
