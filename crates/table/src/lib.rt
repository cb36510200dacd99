// Tables on pages: payloads and checksums, blocks of versions and their positions, a writer that goes a page at a time, the search, and a cursor.
#![tactic(auto)]

mod block;
mod cursor;
mod laws;
mod load;
mod lookup;
mod page;
mod row;
mod search;
mod span;
mod sum;
mod writer;

pub use block::{bound, find, first, head_key, next};
pub use cursor::{Cursor, Want, block_into};
pub use laws::{
    blank_unsound, block_finds, block_read, block_reads, block_stands, blocks_hold, blocks_short,
    cursor_right, damage_found, entries_are_blocks, entry_read, head_reads, heads_rise,
    lies_elsewhere, load_goes_on, lookup_right, pages_sound, search_ends, search_narrows,
    span_read, spans_short, stream_back, stream_is_blocks, table_fits, writer_begins, writer_ends,
    writer_gives, writer_puts, writer_takes,
};
pub use load::Load;
pub use lookup::{Entry, Extent, Lookup, Stage, begin};
pub use page::{fill, payload};
pub use row::{octets, place_payload, read_octets};
pub use search::{Search, is_ahead};
pub use span::{Span, span_at};
pub use sum::{page_sum, seal, sound};
pub use writer::{Due, Filling, Hand, Open, Writer};
