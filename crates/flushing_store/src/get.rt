// Getting: what is seen of a key at a moment, looked up in memory, and where that does not decide in the table; told as one row.
ghost use Rattle.std.specs.Prelude.{◌≡◌, ◌<◌, ◌≤◌, ◌++◌, length};
ghost use Rattle.store.specs.Acts.{Does, Quiet};
ghost use Rattle.flushing_store.specs.Get.{got, got_below, got_by, got_on};
ghost use Rattle.store.specs.Regions.{sought};

use crate::control::{Base, Control, LIST, MEMORY, Phase, RING, STAGE};
use crate::look::{Looked, ask, extent_of, look_staged, take_page};
use crate::stage::stage;
use crate::words::turn_to;
use memtable::{is_gone, moment_at};
use store::{ARENA, ARENA_END, ROW, Told, find, write_row, write_shown};
use table::{Lookup, begin, octets};
use value::{Version, key_of, value_of};

// Memory does not decide: the table is looked through, unless no key there can be this one.
fn get_below(memory: &mut [u64; MEMORY], control: Control, key: &[u8], moment: u64) -> Told
    ensures { Quiet (got_below control memory.old key.now moment) result memory.new }
{
    if key.len() < 1 || key.len() > 255 {
        return Told::Done;
    }
    let Some(lookup) = begin(extent_of(control.manifest)) else {
        return Told::Done;
    };
    stage(
        memory,
        Version {
            key,
            moment,
            gone: false,
            value: &[],
        },
    );
    let base = Base {
        phase: Phase::Getting,
        ..control.base
    };
    ask(memory, Control { base, ..control }, lookup)
}

pub fn get(
    memory: &mut [u64; MEMORY],
    control: Control,
    key: &[u8],
    moment: u64,
    out: &mut [u64; ROW],
) -> Told
    ensures { Does (got control memory.old key.now moment) result out.old memory.new out.new }
{
    let Some(place) = find(control.base.table, memory, key, moment) else {
        return get_below(memory, control, key, moment);
    };
    if is_gone(&memory[ARENA..ARENA_END], place) {
        return Told::Done;
    }
    let len = write_row(&memory[ARENA..ARENA_END], place, out);
    turn_to(memory, control, Phase::Shown);
    Told::Tells(len)
}

// All pages came that were wanted: the version is shown, or there is none, or more is wanted.
fn end_get(
    memory: &mut [u64; MEMORY],
    control: Control,
    lookup: Lookup,
    out: &mut [u64; ROW],
) -> Told
    ensures { Does (got_by control memory.old lookup) result out.old memory.new out.new }
{
    let row: [u8; 2016] = octets(&memory[RING..LIST]);
    let moment = moment_at(&memory[STAGE..RING], 0);
    let extent = extent_of(control.manifest);
    match look_staged(memory, lookup, extent, &row, moment) {
        Looked::On(next) => ask(memory, control, next),
        Looked::Missing => {
            turn_to(memory, control, Phase::Idle);
            Told::Done
        }
        Looked::Found(place) => {
            if place.gone {
                turn_to(memory, control, Phase::Idle);
                return Told::Done;
            }
            let block = lookup.loaded(&row);
            let len = write_shown(key_of(block, place), value_of(block, place), out);
            turn_to(memory, control, Phase::Shown);
            Told::Tells(len)
        }
    }
}

// A page came for a get. `write_on` begins alike; a closure for what follows would need a contract that is longer than these lines.
pub fn get_on(
    memory: &mut [u64; MEMORY],
    control: Control,
    page: &[u8],
    out: &mut [u64; ROW],
) -> Told
    ensures { Does (got_on control memory.old page.now) result out.old memory.new out.new }
{
    let lookup = take_page(memory, control.lookup, page);
    if lookup.load.got < lookup.load.span.pages {
        return ask(memory, control, lookup);
    }
    end_get(memory, control, lookup, out)
}
