// A cursor that walks over a table's versions in order, a page at a time, and reads each page of the table once.
// Pages lie in lent words, a byte a word: the last four of data in a ring, where byte number o of the stream is at word o % 2016; and the last of positions in a list.
ghost use Rattle.std.specs.Prelude.{◌≡◌, min, length};
ghost use Rattle.table.specs.Cursor.{new_cursor, listed_entry, wanted, took_positions, list_with, took_data, ring_with, block_with, head_place, advanced};

use crate::lookup::{Entry, Extent};
use crate::page::PAYLOAD;
use crate::row::{octet, payload_words, place_payload, read_number};
use value::{Place, parse};

#[derive(Clone, Copy)]
pub struct Cursor {
    // The block that is walked over.
    pub block: u64,
    // Where in it the version at the head begins.
    pub at: u64,
    // How many pages of positions have come.
    pub listed: u64,
    // How many pages of data have come.
    pub read: u64,
}

// Four cases, of which two have a page: an option of a two-way enum would say less.
// What a cursor waits for: a page of positions, a page of data, nothing since the head is there, or nothing since no version is left.
#[derive(Clone, Copy)]
pub enum Want {
    Positions(u64),
    Data(u64),
    Head,
    End,
}

// The block's bytes over the front of a row, as far as the row goes; and how many they are.
pub fn block_into(entry: Entry, ring: &[u64], block: &mut [u8]) -> usize
    ensures len { result ≡ min entry.len (length block.old) }
    ensures bytes { block.new ≡ block_with entry ring.now block.old }
{
    let begin = (entry.begin % 2016) as usize;
    let len = (entry.len as usize).min(block.len());
    for (i, b) in block[..len].iter_mut().enumerate() {
        *b = octet(ring, (begin + i % 2016) % 2016);
    }
    len
}

impl Cursor {
    // Before the first version.
    pub fn new() -> Cursor
        ensures { result ≡ new_cursor }
    {
        Cursor {
            block: 0,
            at: 8,
            listed: 0,
            read: 0,
        }
    }

    // The entry of the block that is walked over, of a list with its page.
    pub fn entry(self, list: &[u64]) -> Entry
        ensures { result ≡ listed_entry self list.now }
    {
        let at = (self.block % 63) as usize * 8;
        Entry {
            begin: u64::from(read_number(list, at)),
            len: u64::from(read_number(list, at + 4)),
        }
    }

    pub fn wants(self, extent: Extent, list: &[u64]) -> Want
        ensures { result ≡ wanted self extent list.now }
    {
        if self.block >= extent.blocks {
            return Want::End;
        }
        if self.listed <= self.block / 63 {
            return Want::Positions(extent.start.wrapping_add(self.listed));
        }
        let entry = self.entry(list);
        if self.read < (entry.begin + entry.len).div_ceil(504) {
            return Want::Data(extent.data_at.wrapping_add(self.read));
        }
        Want::Head
    }

    // The next page of positions has come.
    pub fn take_positions(self, page: &[u8], list: &mut [u64]) -> Cursor
        ensures state { result ≡ took_positions self }
        ensures list { list.new ≡ list_with page.now list.old }
    {
        if list.len() == PAYLOAD {
            list.copy_from_slice(&payload_words(page));
        }
        Cursor {
            listed: self.listed.wrapping_add(1),
            ..self
        }
    }

    // The next page of data has come: it takes the place of the fourth before it.
    pub fn take_data(self, page: &[u8], ring: &mut [u64]) -> Cursor
        ensures state { result ≡ took_data self }
        ensures ring { ring.new ≡ ring_with self page.now ring.old }
    {
        place_payload(self.read % 4, page, ring);
        Cursor {
            read: self.read.wrapping_add(1),
            ..self
        }
    }

    // Where the version at the head lies in its block.
    pub fn head(self, block: &[u8]) -> Option<Place>
        ensures { result ≡ head_place self block.now }
    {
        parse(block, self.at as usize)
    }

    // Behind a version of the block: to the next in it, or to the first of the next block.
    pub fn advance(self, entry: Entry, place: Place) -> Cursor
        ensures { result ≡ advanced self entry place }
    {
        let end = place.value_at.saturating_add(place.value_len) as u64;
        if end >= entry.len {
            return Cursor {
                block: self.block.wrapping_add(1),
                at: 8,
                ..self
            };
        }
        Cursor { at: end, ..self }
    }
}
