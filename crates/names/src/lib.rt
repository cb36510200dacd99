// The names of the shell's commands, and what can be wrong with the words of a line.
#![tactic(auto)]

mod flaw;
mod name;

pub use flaw::Flaw;
pub use name::{Name, name_of};
