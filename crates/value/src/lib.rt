// Versions of keys: their order, their bytes and words, and the laws of one list of versions, in the order in which they came and in the order of a table.
#![tactic(auto)]

mod count;
mod key;
mod laws;
mod number;
mod version;

pub use count::smaller_of;
pub use key::order;
pub use laws::{
    encoding_sound, later_first, lists_read_back, lookup_is_latest, merge_sorts, not_missed,
    numbers_read_back, parse_reads_encode, push_sorts, range_right, sort_orders, sort_weighs,
    stream_forgets, stream_shows, streams_agree, streams_differ, twice_once, write_seen,
};
pub use number::{byte, padded, part_of, read_u16, read_u32, read_u64, rest};
pub use version::{Place, Version, encode, key_of, order_versions, parse, value_of, version_of};
