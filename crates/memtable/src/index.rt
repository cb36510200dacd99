// The index: the places of the versions in the arena, in the order of a table.
ghost use Rattle.std.specs.Prelude.{◌≡◌, slice_index};
ghost use Rattle.memtable.specs.Index.{entered};

use crate::words::peek;

// The place in the arena of the version that is number i in order.
pub fn place_at(index: &[u64], i: u64) -> u64
    ensures { result ≡ slice_index index.now i }
{
    peek(index, i)
}

// Puts a place in at `at`, in an index of n places, and moves those from there on by one. If `at` is not one of them or there is no room, nothing is changed.
pub fn enter(index: &mut [u64], n: u64, at: u64, place: u64)
    ensures { index.new ≡ entered index.old n at place }
{
    if at <= n && n < index.len() as u64 {
        index.copy_within(at as usize..n as usize, at as usize + 1);
        index[at as usize] = place;
    }
}
