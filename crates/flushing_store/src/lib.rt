// The store as a machine: one step at a time, it is told an event and answers with an act.
#![tactic(auto)]

mod control;
mod entry;
mod flush;
mod get;
mod give;
mod heads;
mod laws;
mod look;
mod octets;
mod power;
mod put;
mod round;
mod stage;
mod target;
mod turn;
mod words;
mod write;

pub use control::MEMORY;
pub use entry::step;
pub use laws::own_is_whole;
