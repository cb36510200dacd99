// Sorted runs side by side: which of two runs gives the next version, and what a walk over a run shows or keeps.
#![tactic(auto)]

mod choice;
mod laws;
mod stream;

pub use choice::{Next, choose};
pub use laws::{choice_merges, key_held, walk_keeps, walk_newest, walk_shows};
pub use stream::Passed;

#[cfg(test)]
mod tests;
