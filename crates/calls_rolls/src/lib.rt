// The day roll on lent bytes that are known to be a sound book (document 01, "From trades to positions"; refusals 10 and 14).
#![tactic(auto)]

mod quiet;
mod rolls;

pub use rolls::roll;
