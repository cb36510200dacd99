// What is in memory: versions of keys in two lent rows of words, an arena in the order in which they came and an index in the order of a table.
#![tactic(auto)]

mod arena;
mod index;
mod laws;
mod memtable;
mod words;

pub use arena::{
    append, has_room, is_gone, key_byte, key_into, key_len, moment_at, order_at, value_byte,
    value_into, value_len,
};
pub use index::{enter, place_at};
pub use laws::{
    append_keeps, empty_holds_none, enter_keeps, find_is_latest, insert_holds_more, insert_keeps,
    refused_same, room_is_weight, seek_parts, sizes_suffice, walk_is_sorted, written_is_any,
};
pub use memtable::{ARENA_WORDS, INDEX_WORDS, LIMIT, Memtable, empty};
