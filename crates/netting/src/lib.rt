// The day roll up to its offsetting (document 01, "From trades to positions"): "charges are set to zero; today's nets become
// positions due in two days; the list is emptied; the day goes up by one".
#![tactic(auto)]

mod nets;
mod steps;

pub use nets::with_nets;
use rules::Position;
pub use steps::before_offset;

// The position table with today's nets behind the open positions, and how many records that makes.
// No heap: the table has room for all, `count` says how much of it is used.
#[derive(Drop)]
pub struct Netted {
    pub count: u16,
    pub positions: [Position; 1024],
}
