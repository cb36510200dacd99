// What the machine knows between steps.
use manifest::Manifest;
use memtable::Memtable;
use table::{Cursor, Lookup, Writer};

// How many numbers the machine's memory has.
pub const MEMORY: usize = 152520;

// Behind the memtable's arena lie the version that a command under way is about,
pub const STAGE: usize = 147520;

// the pages of data that were read,
pub const RING: usize = 147682;

// the page of positions that was read,
pub const LIST: usize = 149698;

// the bytes in a writer's hand,
pub const HAND: usize = 150202;

// its page of data,
pub const DATA: usize = 151512;

// and its page of positions.
pub const ENTRIES: usize = 152016;

// What is under way between two events.
#[derive(Clone, Copy)]
pub enum Phase {
    // Nothing: a command may come.
    Idle = 0,
    // The row that a get shows was told.
    Shown = 1,
    // Power is there, and page 0 was asked for.
    FirstList = 2,
    // So was page 1; the list on page 0 is whole.
    AfterWhole = 3,
    // The same, but the list on page 0 is torn.
    AfterTorn = 4,
    // The table is looked through for a get.
    Getting = 5,
    // The same for a write, whose key may have been written at its moment.
    Writing = 6,
    // Table and memory are merged into the free half.
    Merging = 7,
    // The last page of data was put.
    Closed = 8,
    // The last page of positions was put.
    Placed = 9,
    // The new table is settled.
    Settled = 10,
    // The new list was put.
    Listed = 11,
    // It is settled.
    Committed = 12,
}

// The number of pages, the moment of the last write, and what is in memory.
#[derive(Clone, Copy)]
pub struct Base {
    pub phase: Phase,
    pub pages: u64,
    pub last: u64,
    pub table: Memtable,
}

// A merge of the table with what is in memory: how many versions in memory were handed over, and how many pages wait.
#[derive(Clone, Copy)]
pub struct Merging {
    pub cursor: Cursor,
    pub writer: Writer,
    pub walked: u64,
    pub waiting: u64,
}

#[derive(Clone, Copy)]
pub struct Control {
    pub base: Base,
    // The list of tables that holds.
    pub manifest: Manifest,
    pub lookup: Lookup,
    pub merging: Merging,
}
