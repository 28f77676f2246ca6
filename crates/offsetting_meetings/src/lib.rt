// One meeting of a newly due record and an older one (document 01, "From trades to positions", the last step of the roll).
#![tactic(auto)]

mod meetings;

pub use meetings::{Met, meeting, same_pair, with_whole};
