// The sums of marks (document 01, "Marks"): the marks of an account's records, summed per currency, and what the sums count in
// the base currency.
#![tactic(auto)]

mod conversion;
mod marks;

pub use conversion::{Side, converted_total};
pub use marks::{PerCurrency, sums_of};
