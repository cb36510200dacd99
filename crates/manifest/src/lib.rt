// Which tables there are: the list of tables on pages 0 and 1, where tables lie, and how the list changes at once.
#![tactic(auto)]

mod choice;
mod fields;
mod laws;
mod page;
mod places;
#[cfg(test)]
mod tests;

pub use choice::{Found, is_whole, later, read_list};
pub use fields::{Half, Layout, Manifest, Moments, Table, Weight};
pub use laws::{
    blank_is_empty, choice_right, free_half_apart, halves_apart, list_apart, page_reads_back,
    settled_is_next, stop_keeps_list, torn_again, torn_told,
};
pub use page::decode;
pub use places::{half_pages, half_start, other_half, slot};
