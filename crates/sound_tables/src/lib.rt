// The test for soundness (document 01, "A sound book"): all but the order and the signs of the position table.
// Each test is a sentence of that section, read off the lent bytes of a book, and equals its definition for every book
// that has passed those before it.
#![tactic(auto)]

mod codes;
mod day;
mod faults;
mod holdings;
mod money;
mod numbers;
mod trades;
mod unlisted;

pub use codes::{codes_fit, is_code};
pub use day::day_fits;
pub use faults::{bad_accounts, bad_price, bad_quantity, bad_security, same_account};
pub use holdings::{holdings_fit, total_fits};
pub use money::money_fits;
pub use trades::trades_fit;
pub use unlisted::records_listed;
