// Money that is rounded (document 01, "From trades to positions" and "Marks"): the part of a position, and what a sum of marks counts in the
// base currency.
#![tactic(auto)]

mod conversion;
mod parts;

pub use conversion::{favourable, unfavourable};
pub use parts::part;
