// Getting: what is seen of a key at a moment, looked up in memory and told as one row.
ghost use Rattle.store.specs.Acts.{Does};
ghost use Rattle.store.specs.Get.{got};

use crate::control::{Control, MEMORY, Phase, ROW, save};
use crate::regions::{ARENA, ARENA_END, find};
use crate::shown::write_row;
use crate::told::Told;
use memtable::is_gone;

pub fn get(
    memory: &mut [u64; MEMORY],
    control: Control,
    key: &[u8],
    moment: u64,
    out: &mut [u64; ROW],
) -> Told
    ensures { Does (got control memory.old key.now moment) result out.old memory.new out.new }
{
    let Some(place) = find(control.table, memory, key, moment) else {
        return Told::Done;
    };
    if is_gone(&memory[ARENA..ARENA_END], place) {
        return Told::Done;
    }
    let len = write_row(&memory[ARENA..ARENA_END], place, out);
    save(
        memory,
        Control {
            phase: Phase::Shown,
            ..control
        },
    );
    Told::Tells(len)
}
