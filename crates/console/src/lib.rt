// A store at a keyboard, over a file of pages: one command to a line, for any machine.
#![tactic(auto)]

mod answer;
mod called;
mod device;
mod session;
mod talk;
mod trouble;

pub use talk::run;
