// The whole call file as one call (document 01, "Call file and sheet").
#![tactic(auto)]

mod whole;

pub use whole::{play, play_records};
