// What a line asks for: something of the store, or of the shell itself.
#![tactic(auto)]

mod order;

pub use order::{Cut, Order, Part, parse};
