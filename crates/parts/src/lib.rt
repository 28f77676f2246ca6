// What roll and run have in common (document 01, "From trades to positions", "Settlement run"): a part is taken from a
// record, its money is charged, and records at 0 shares go.
#![tactic(auto)]

mod packing;
mod places;
mod taking;

pub use packing::pack;
pub use places::place_of;
pub use taking::{rest_of, with_part};
