// What a settlement run counts (document 01, "Settlement run"): what a record owes, wants and can give, the deliverable shares, and what the
// receivers want together.
#![tactic(auto)]

mod counts;
mod sides;

pub use counts::{deliverable_of, wanted_of};
pub use sides::{gives_of, holding_place, smaller, wants_of};
