// The last step of the day roll (document 01, "From trades to positions"): due positions are offset, the newly due of
// the day against the older ones, and records at 0 shares go.
#![tactic(auto)]

mod borders;
mod rows;
mod walk;

pub use walk::offset_due;
