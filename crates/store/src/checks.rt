// What is checked before a version is written. Each check hands on its value, or none.
ghost use Rattle.std.specs.Prelude.{◌≡◌, ◌≤◌, length};
ghost use Rattle.store.specs.Checks.{key_size, value_size, proper_moment, not_earlier, unwritten as unwritten_in, roomy as roomy_for, within_pages};

use crate::regions::{ARENA, ARENA_END, INDEX};
use memtable::Memtable;

// The length of a key that may be written.
pub fn key_size(key: &[u8]) -> Option<u64>
    ensures { result ≡ key_size key.now }
{
    let n = key.len();
    if n < 1 || n > 255 {
        None
    } else {
        Some(n as u64)
    }
}

// The length of a value that may be written.
pub fn value_size(value: &[u8]) -> Option<u64>
    ensures { result ≡ value_size value.now }
{
    if value.len() > 1024 {
        None
    } else {
        Some(value.len() as u64)
    }
}

// A moment at which may be written.
pub fn proper_moment(moment: u64) -> Option<u64>
    ensures { result ≡ proper_moment moment }
{
    if moment < 0x8000_0000_0000_0000 {
        Some(moment)
    } else {
        None
    }
}

// A moment that is not below the last write's.
pub fn not_earlier(last: u64, moment: u64) -> Option<u64>
    ensures { result ≡ not_earlier last moment }
{
    if moment < last { None } else { Some(moment) }
}

// Where a version goes in the index, if its key was not written at this moment, as far as memory knows.
#[tactic(auto, unfolding(crate::specs::Checks::unwritten, crate::specs::Regions::region))]
pub fn unwritten(table: Memtable, memory: &[u64], key: &[u8], moment: u64) -> Option<u64>
    requires { 147520 ≤ length memory.now }
    ensures { result ≡ unwritten_in table memory.now key.now moment }
{
    let index = &memory[INDEX..ARENA];
    let arena = &memory[ARENA..ARENA_END];
    if table.written_at(index, arena, key, moment) {
        return None;
    }
    Some(table.seek(index, arena, key, moment))
}

// The memtable with a version more, if what is not safe does not weigh too much then.
#[tactic(auto, unfolding(memtable::specs::Memtable::after_one))]
pub fn roomy(table: Memtable, key: u64, value: u64) -> Option<Memtable>
    ensures { result ≡ roomy_for table key value }
{
    if !table.accepts(16384, 131072, key, value) {
        return None;
    }
    Some(table.with_one(16384, 131072, key, value))
}

// What has to be kept, if it is no more than a quarter of the pages' bytes.
pub fn within_pages(pages: u64, weight: u64) -> Option<u64>
    ensures { result ≡ within_pages pages weight }
{
    if weight > pages.saturating_mul(128) {
        None
    } else {
        Some(weight)
    }
}
