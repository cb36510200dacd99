// Looking in a table for what a reading of a key at a moment wants, a page at a time: binary search over the heads of the blocks, and then the one block that decides.
// A probe reads a block's entry and its head; the entry of the last block found ahead is kept, so that the block that decides is read at once.
ghost use Rattle.std.specs.Prelude.{◌≡◌};
ghost use Rattle.table.specs.Stages.{stage_of, stage_number};
ghost use Rattle.table.specs.Lookup.{entry_in, probed, begun, entered, loaded, narrowed_by, found_by};

use crate::block::{bound, find, head_key};
use crate::load::Load;
use crate::search::{Search, is_ahead};
use crate::span::span_at;
use value::{Place, part_of, read_u32};

// Where a table lies: the first page of its positions, the first page of its data, and how many blocks it has.
#[derive(Clone, Copy)]
pub struct Extent {
    pub start: u64,
    pub data_at: u64,
    pub blocks: u64,
}

// Where a block begins in the stream, and its length.
#[derive(Clone, Copy)]
pub struct Entry {
    pub begin: u64,
    pub len: u64,
}

// What is being read.
#[derive(Clone, Copy, Debug, PartialEq, Eq)]
pub enum Stage {
    Entry,
    Head,
    Block,
}

// The stage that a number in memory stands for: any number but 1 and 2 is the first.
impl From<u64> for Stage {
    ghost from_gives = { λ n stage. stage ≡ stage_of n };

    fn from(n: u64) -> Stage {
        match n {
            1 => Stage::Head,
            2 => Stage::Block,
            _ => Stage::Entry,
        }
    }
}

// The number that stands for a stage in memory.
impl From<Stage> for u64 {
    ghost from_gives = { λ stage n. n ≡ stage_number stage };

    fn from(stage: Stage) -> u64 {
        stage as u64
    }
}

#[derive(Clone, Copy)]
pub struct Lookup {
    pub stage: Stage,
    pub search: Search,
    // The block that is looked at.
    pub entry: Entry,
    // The last block that was found ahead.
    pub ahead: Entry,
    pub load: Load,
}

// The entry at a place of a row.
fn entry_at(row: &[u8], at: usize) -> Entry
    ensures { result ≡ entry_in row.now at }
{
    Entry {
        begin: u64::from(read_u32(row, at)),
        len: u64::from(read_u32(row, at.saturating_add(4))),
    }
}

// What to read next: the entry in the middle of what is left, or the block that decides; none where no block is ahead.
fn probe(extent: Extent, search: Search, ahead: Entry) -> Option<Lookup>
    ensures { result ≡ probed extent search ahead }
{
    if search.low < search.high {
        let at = search.middle().wrapping_mul(8);
        return Some(Lookup {
            stage: Stage::Entry,
            search,
            entry: ahead,
            ahead,
            load: Load {
                span: span_at(extent.start, at, 8),
                got: 0,
            },
        });
    }
    if search.low == 0 {
        return None;
    }
    Some(Lookup {
        stage: Stage::Block,
        search,
        entry: ahead,
        ahead,
        load: Load {
            span: span_at(extent.data_at, ahead.begin, ahead.len),
            got: 0,
        },
    })
}

// Begins; none where the table has no block.
pub fn begin(extent: Extent) -> Option<Lookup>
    ensures { result ≡ begun extent }
{
    let search = Search {
        low: 0,
        high: extent.blocks,
    };
    probe(extent, search, Entry { begin: 0, len: 0 })
}

impl Lookup {
    // The bytes that were wanted, of a row with all their pages.
    pub fn loaded(self, row: &[u8]) -> &[u8]
        ensures { result.now ≡ loaded self row.now }
    {
        part_of(
            row,
            self.load.span.skip as usize,
            self.load.span.len as usize,
        )
    }

    // The entry is read: its block's head is next.
    pub fn enter(self, extent: Extent, row: &[u8]) -> Lookup
        ensures { result ≡ entered self extent row.now }
    {
        let entry = entry_at(row, self.load.span.skip as usize);
        Lookup {
            stage: Stage::Head,
            search: self.search,
            entry,
            ahead: self.ahead,
            load: Load {
                span: span_at(extent.data_at, entry.begin, entry.len.min(278)),
                got: 0,
            },
        }
    }

    // The head is read: half of what was left to look at is left.
    pub fn narrow(self, extent: Extent, row: &[u8], key: &[u8], moment: u64) -> Option<Lookup>
        ensures { result ≡ narrowed_by self extent row.now key.now moment }
    {
        let head = self.loaded(row);
        if is_ahead(bound(head), head_key(head), key, moment) {
            return probe(extent, self.search.narrow(true), self.entry);
        }
        probe(extent, self.search.narrow(false), self.ahead)
    }

    // The block that decides is read: where in it the version lies.
    pub fn find(self, row: &[u8], key: &[u8], moment: u64) -> Option<Place>
        ensures { result ≡ found_by self row.now key.now moment }
    {
        find(self.loaded(row), key, moment)
    }
}
