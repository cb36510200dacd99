// Bytes at the front of a row of a fixed length, as a version in memory is read into them.
ghost use Rattle.std.specs.Prelude.{◌≡◌, take};
ghost use Rattle.memtable.specs.Arena.{key_at, value_at};

use memtable::{key_into, key_len, value_into, value_len};
use value::part_of;

// The first `len` bytes of a row count.
#[derive(Drop)]
pub struct Bytes<const N: usize> {
    pub row: [u8; N],
    pub len: usize,
}

impl<const N: usize> Bytes<N> {
    // The bytes that count.
    pub fn as_slice(&self) -> &[u8]
        ensures { result.now ≡ take self.now.len self.now.row }
    {
        part_of(&self.row, 0, self.len)
    }
}

// The key of the version at a place of an arena.
pub fn read_key(arena: &[u64], place: u64) -> Bytes<255>
    ensures { take result.len result.row ≡ key_at arena.now place }
{
    let mut row = [0; 255];
    key_into(arena, place, &mut row);
    Bytes {
        row,
        len: key_len(arena, place) as usize,
    }
}

// Its value, of which no more than N bytes are wanted.
pub fn read_value<const N: usize>(arena: &[u64], place: u64) -> Bytes<N>
    ensures { take result.len result.row ≡ take N (value_at arena.now place) }
{
    let mut row = [0; N];
    value_into(arena, place, &mut row);
    Bytes {
        row,
        len: value_len(arena, place) as usize,
    }
}
