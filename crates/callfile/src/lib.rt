// One record of a call file as a call of its own (document 01, "Call file and sheet").
#![tactic(auto)]

mod record;

pub use record::play_record;
