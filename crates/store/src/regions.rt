// Where the memtable lies in a machine's memory: its index and its arena.
ghost use Rattle.std.specs.Prelude.{◌≡◌, ◌≤◌, length};
ghost use Rattle.value.specs.Said.{said};
ghost use Rattle.store.specs.Regions.{in_arena, in_index, sought};

use memtable::{Memtable, append, enter};
use value::Version;

pub const INDEX: usize = 64;

pub const ARENA: usize = 16448;

pub const ARENA_END: usize = 147520;

// The memories of the machines are of other lengths, and begin with these words: so a slice that is long enough is asked for, and no array.

// The place in the arena of the version that a reading wants.
#[tactic(auto, unfolding(crate::specs::Regions::sought, crate::specs::Regions::region))]
pub fn find(table: Memtable, memory: &[u64], key: &[u8], moment: u64) -> Option<u64>
    requires { 147520 ≤ length memory.now }
    ensures { result ≡ sought table memory.now key.now moment }
{
    let index = &memory[INDEX..ARENA];
    let arena = &memory[ARENA..ARENA_END];
    table.find(index, arena, key, moment)
}

// Writes a version behind the words that a memtable uses, and its place into the index.
pub fn put_in_table(memory: &mut [u64], table: Memtable, place: u64, version: Version<'_>)
    requires { 147520 ≤ length memory.old }
    ensures { memory.new ≡ in_index table place (in_arena table.used (said version.entry) memory.old) }
{
    append(&mut memory[ARENA..ARENA_END], table.used, version);
    enter(&mut memory[INDEX..ARENA], table.versions, place, table.used);
}
