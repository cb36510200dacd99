// The heads of the two runs of a merge, what is in memory and the table: which comes first, and how it is handed over.
ghost use Rattle.std.specs.Prelude.{◌≡◌, Bool, length};
ghost use Rattle.flushing_store.specs.Round.{memory_head, leads, memory_turn, table_turn};

use crate::control::{Control, HAND, LIST, MEMORY, Merging};
use crate::give::give;
use crate::turn::Turn;
use memtable::{is_gone, moment_at, place_at};
use merge::{Next, choose};
use store::{ARENA, ARENA_END, INDEX, read_key, read_value};
use value::{Place, Version, key_of, version_of};

// Where the next version in memory stands.
#[tactic(auto, unfolding(store::specs::Regions::region))]
pub fn memory_head(memory: &[u64; MEMORY], control: Control) -> Option<u64>
    ensures { result ≡ memory_head control memory.now }
{
    if control.merging.walked < control.base.table.versions {
        Some(place_at(&memory[INDEX..ARENA], control.merging.walked))
    } else {
        None
    }
}

// Does the version in memory come before the one in the block?
pub fn memory_leads(memory: &[u64; MEMORY], at: u64, block: &[u8], place: Place) -> bool
    ensures { result ≡ leads memory.now at block.now place }
{
    let key = read_key(&memory[ARENA..ARENA_END], at);
    match choose(Some(key.as_slice()), Some(key_of(block, place))) {
        Next::Later => true,
        Next::Earlier => false,
        Next::End => false,
    }
}

// Hands over the version in memory.
pub fn give_memory(memory: &mut [u64; MEMORY], control: Control, at: u64) -> Turn
    ensures turn { result ≡ (memory_turn control memory.old at).turn }
    ensures memory { memory.new ≡ (memory_turn control memory.old at).memory }
{
    let arena = &memory[ARENA..ARENA_END];
    let key = read_key(arena, at);
    let value = read_value::<1024>(arena, at);
    let moment = moment_at(arena, at);
    let gone = is_gone(arena, at);
    let Some(writer) = give(
        memory,
        control.merging.writer,
        Version {
            key: key.as_slice(),
            moment,
            gone,
            value: value.as_slice(),
        },
    ) else {
        return Turn {
            control,
            deed: None,
        };
    };
    let merging = Merging {
        writer,
        walked: control.merging.walked.wrapping_add(1),
        ..control.merging
    };
    Turn {
        control: Control { merging, ..control },
        deed: None,
    }
}

// Hands over the version in the block. What it walks on with is not what `give_memory` does; the frame of the two is one test.
pub fn give_table(memory: &mut [u64; MEMORY], control: Control, block: &[u8], place: Place) -> Turn
    ensures turn { result ≡ (table_turn control memory.old block.now place).turn }
    ensures memory { memory.new ≡ (table_turn control memory.old block.now place).memory }
{
    let entry = control.merging.cursor.entry(&memory[LIST..HAND]);
    let Some(writer) = give(memory, control.merging.writer, version_of(block, place)) else {
        return Turn {
            control,
            deed: None,
        };
    };
    let merging = Merging {
        writer,
        cursor: control.merging.cursor.advance(entry, place),
        ..control.merging
    };
    Turn {
        control: Control { merging, ..control },
        deed: None,
    }
}
