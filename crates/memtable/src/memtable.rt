// The memtable: versions of keys in two lent rows of words, found by binary search. Whatever the words are, each function answers, and ends.
ghost use Rattle.std.specs.Prelude.{◌≡◌, ◌≤◌};
ghost use Rattle.value.specs.Said.{said};
ghost use Rattle.memtable.specs.Memtable.{none, accepts, Countable, one_more, after_one, entries, ahead_at, seek_place, found, written_at, table_after, index_after, arena_after};

use crate::arena::{append, has_room, moment_at, order_at};
use crate::index::{enter, place_at};
use crate::words::words_of;
use value::Version;

// All that is held weighs at most so much.
pub const LIMIT: u64 = 1048576;

// So many words of index and of arena have room for all of it.
pub const INDEX_WORDS: u64 = 16384;

pub const ARENA_WORDS: u64 = 131072;

// How many versions there are, how many words of the arena they take, and what they weigh.
#[derive(Clone, Copy, Default)]
pub struct Memtable {
    pub versions: u64,
    pub used: u64,
    pub weight: u64,
}

// A memtable without versions.
pub fn empty() -> Memtable
    ensures { result ≡ none }
{
    Memtable::default()
}

// Does a version come before a key at a moment: has it a lower key, or this key and this moment or a later one?
fn is_ahead(index: &[u64], arena: &[u64], key: &[u8], moment: u64, i: u64) -> bool
    ensures { result ≡ ahead_at index.now arena.now key.now moment i }
{
    let place = place_at(index, i);
    order_at(arena, place, key)
        .then(moment.cmp(&moment_at(arena, place)))
        .is_le()
}

// A version more, where all counts are small.
fn one_more(t: Memtable, k: u64, v: u64) -> Memtable
    requires { Countable t k v }
    ensures { result ≡ one_more t k v }
{
    Memtable {
        versions: t.versions + 1,
        used: t.used + (2 + words_of(k) + words_of(v)),
        weight: t.weight + (64 + k + v),
    }
}

// Index and arena are lent anew with each call, and each of append, enter and place_at takes but one of them: a struct of the two would only be taken apart again.
impl Memtable {
    // Has it room for a version with a key of k bytes and a value of v, in so many words of index and arena?
    pub fn accepts(self, index: u64, arena: u64, k: u64, v: u64) -> bool
        ensures { result ≡ accepts self index arena k v }
    {
        has_room(arena, self.used, k, v)
            && self.versions < index
            && 64 + k + v <= LIMIT.saturating_sub(self.weight)
    }

    // The memtable with such a version more; the same if it has no room.
    pub fn with_one(self, index: u64, arena: u64, k: u64, v: u64) -> Memtable
        ensures { result ≡ after_one self index arena k v }
    {
        if self.accepts(index, arena, k, v) {
            one_more(self, k, v)
        } else {
            self
        }
    }

    // The first place of the index at or behind a key at a moment, in the order of a table; the number of versions if there is none.
    pub fn seek(self, index: &[u64], arena: &[u64], key: &[u8], moment: u64) -> u64
        ensures is { result ≡ seek_place self index.now arena.now key.now moment }
        ensures within { result ≤ entries self index.now }
    {
        // The library's partition_point promises nothing of words that are in no order; this answers for any.
        let mut low = 0;
        let mut high = self.versions.min(index.len() as u64);
        'search: while low < high {
            let middle = low + (high - low) / 2;
            if is_ahead(index, arena, key, moment, middle) {
                low = middle + 1;
            } else {
                high = middle;
            }
        }
        low
    }

    // The place in the arena of the newest version of a key whose moment is below a moment.
    pub fn find(self, index: &[u64], arena: &[u64], key: &[u8], moment: u64) -> Option<u64>
        ensures { result ≡ found self index.now arena.now key.now moment }
    {
        let i = self.seek(index, arena, key, moment);
        if i >= self.versions.min(index.len() as u64) {
            return None;
        }
        let place = place_at(index, i);
        order_at(arena, place, key).is_eq().then_some(place)
    }

    // Was this key written at this moment?
    pub fn written_at(self, index: &[u64], arena: &[u64], key: &[u8], moment: u64) -> bool
        ensures { result ≡ written_at self index.now arena.now key.now moment }
    {
        let Some(last) = self.seek(index, arena, key, moment).checked_sub(1) else {
            return false;
        };
        let place = place_at(index, last);
        order_at(arena, place, key).is_eq() && moment_at(arena, place) == moment
    }

    // Takes a version in, the newest of its key. If there is no room for it or its key or value is not allowed, nothing is changed and the same memtable comes back.
    pub fn insert(self, index: &mut [u64], arena: &mut [u64], version: Version<'_>) -> Memtable
        ensures table { result ≡ table_after self index.old arena.old (said version.entry) }
        ensures index { index.new ≡ index_after self index.old arena.old (said version.entry) }
        ensures arena { arena.new ≡ arena_after self index.old arena.old (said version.entry) }
    {
        let i = index.len() as u64;
        let a = arena.len() as u64;
        let k = version.key.len() as u64;
        let v = version.value.len() as u64;
        if !self.accepts(i, a, k, v) {
            return self;
        }
        let at = self.seek(index, arena, version.key, version.moment);
        append(arena, self.used, version);
        enter(index, self.versions, at, self.used);
        self.with_one(i, a, k, v)
    }
}
