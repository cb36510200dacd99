// The store as a machine: one step at a time, it is told an event and answers with an act.
#![tactic(auto)]

mod bytes;
mod checks;
mod control;
mod entry;
mod event;
mod get;
mod laws;
mod regions;
mod shown;
mod told;
mod write;

pub use bytes::{Bytes, read_key, read_value};
pub use checks::{
    key_size, not_earlier, proper_moment, roomy, unwritten, value_size, within_pages,
};
pub use control::{MEMORY, ROW};
pub use entry::step;
pub use event::Event;
pub use laws::{nothing_new, own_is_whole, settled_stays, steps_suffice, stop_twice, worked_out};
pub use regions::{ARENA, ARENA_END, INDEX, find, put_in_table};
pub use shown::{write_row, write_shown};
pub use told::{NoRefusal, Refusal, Told};
