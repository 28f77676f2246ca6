// The format of the call file (document 01, "Call file and sheet"): how it is framed, and what stands at a place of it.
#![tactic(auto)]

mod framing;
mod reading;

pub use framing::{next_of, other_version, past_end};
pub use reading::{Read, record_at};
