// How the machine is told what was said to it and what came of its acts, and what is noted of a command.
#![tactic(auto)]

mod event;
mod machine;
mod notes;
mod on_pages;

pub use event::{Event, Reply, forget, tell};
pub use machine::Machine;
pub use notes::{Acts, counts, late_after, shows};
pub use on_pages::OnPages;
