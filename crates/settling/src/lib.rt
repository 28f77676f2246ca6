// The settlement run (document 01, "Settlement run" and "Refusal numbers"): what a sound book answers, and the book that
// an accepted run leaves.
#![tactic(auto)]

mod moving;
mod run;
mod walk;

pub use run::{may_run, with_run};
