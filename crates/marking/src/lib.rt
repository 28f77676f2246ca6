// Marks (document 01, "Marks"): the tests in their order, and the answer.
#![tactic(auto)]

mod answer;
mod terms;
mod unpriced;

pub use answer::marks_of;
