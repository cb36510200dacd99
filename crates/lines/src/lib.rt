// How a line is split into words.
#![tactic(auto)]

mod flaw;
mod line;

pub use flaw::Flaw;
pub use line::{is_comment, split, without_newline};
