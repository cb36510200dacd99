// A memtable with its two rows of words, filled in an order of keys that jumps about.
ghost use Rattle.std.specs.Prelude.{◌≡◌};

use memtable::{ARENA_WORDS, INDEX_WORDS, Memtable, empty};
use std::alloc::{AllocError, Global};
use value::Version;

#[derive(Drop)]
pub struct Filled {
    index: Vec<u64>,
    arena: Vec<u64>,
    table: Memtable,
}

// The key of a number: its digits are mixed, so that keys do not come in order.
fn key(i: u64) -> [u8; 16] {
    let mixed = i.wrapping_mul(0x9e37_79b9_7f4a_7c15);
    (u128::from(mixed) << 64 | u128::from(i)).to_be_bytes()
}

impl Filled {
    pub fn new(heap: Global) -> Result<Filled, AllocError> {
        let index = vec![in heap; 0u64; INDEX_WORDS as usize]?;
        let arena = vec![in heap; 0u64; ARENA_WORDS as usize]?;
        Ok(Filled {
            index,
            arena,
            table: empty(),
        })
    }

    // Inserts n versions, each of a key of its own, at rising moments.
    pub fn fill(&mut self, n: u64) {
        // By number: a key is made of each, and it is the moment too.
        for moment in 0..n {
            let key = key(moment);
            let version = Version {
                key: &key,
                moment,
                gone: false,
                value: &key,
            };
            self.table = self.table.insert(&mut self.index, &mut self.arena, version);
        }
    }

    // How many of the n keys are found, as of the moment after the last.
    pub fn find_all(&self, n: u64) -> usize {
        (0..n)
            .filter(|i| {
                self.table
                    .find(&self.index, &self.arena, &key(*i), n)
                    .is_some()
            })
            .count()
    }

    pub fn versions(&self) -> u64
        ensures { result ≡ self.now.table.versions }
    {
        self.table.versions
    }

    pub fn weight(&self) -> u64
        ensures { result ≡ self.now.table.weight }
    {
        self.table.weight
    }
}
