// Writing and erasing: the checks in their order, each of which hands on its value or leaves with its number; then the version goes into memory.
ghost use Rattle.std.specs.Prelude.{◌≡◌, length};
ghost use Rattle.value.specs.Said.{said};
ghost use Rattle.store.specs.Acts.{Quiet};
ghost use Rattle.flushing_store.specs.Stage.{staged_version};
ghost use Rattle.flushing_store.specs.Write.{put_in, sought_below, accepted, wrote, finished, wrote_by, wrote_on};
ghost use Rattle.store.specs.Regions.{in_arena, in_index};
ghost use Rattle.store.specs.Checks.{key_size, value_size, proper_moment, not_earlier, unwritten as unwritten_at, roomy as roomy_for, within_pages};

use crate::control::{Base, Control, LIST, MEMORY, Phase, RING, STAGE};
use crate::look::{Looked, ask, extent_of, look_staged, take_page};
use crate::stage::stage;
use crate::words::{save, turn_to};
use memtable::{Memtable, is_gone, moment_at};
use store::{
    Refusal, Told, key_size, not_earlier, proper_moment, put_in_table, read_key, read_value, roomy,
    unwritten, value_size, within_pages,
};
use table::{Lookup, begin, octets};
use value::Version;

#[tactic(auto, unfolding(crate::specs::Write::put_in))]
fn put_version(
    memory: &mut [u64; MEMORY],
    control: Control,
    place: u64,
    table: Memtable,
    version: Version<'_>,
)
    ensures { memory.new ≡ put_in control place table (said version.entry) memory.old }
{
    put_in_table(memory, control.base.table, place, version);
    let base = Base {
        phase: Phase::Idle,
        pages: control.base.pages,
        last: version.moment,
        table,
    };
    save(memory, Control { base, ..control });
}

// The table is known not to have the key at this moment: the checks that are left.
fn accept(memory: &mut [u64; MEMORY], control: Control, version: Version<'_>) -> Told
    ensures { Quiet (accepted control memory.old (said version.entry)) result memory.new }
{
    let Some(place) = unwritten(control.base.table, memory, version.key, version.moment) else {
        return Told::No(Refusal::Moment as u64);
    };
    let Some(table) = roomy(
        control.base.table,
        version.key.len() as u64,
        version.value.len() as u64,
    ) else {
        return Told::No(Refusal::Unsafe as u64);
    };
    let all = control.manifest.weight.all.wrapping_add(table.weight);
    let Some(_) = within_pages(control.base.pages, all) else {
        return Told::No(Refusal::Full as u64);
    };
    put_version(memory, control, place, table, version);
    Told::Done
}

// How to look whether the table has a version of this moment; none where all of its moments are below it.
fn seek_below(control: Control, moment: u64) -> Option<Lookup>
    ensures { result ≡ sought_below control moment }
{
    if control.manifest.moments.last < moment {
        return None;
    }
    begin(extent_of(control.manifest))
}

// Writes a version into memory, or says why not: each check hands on its value or leaves with its number, which is a rule of the project.
pub fn write(memory: &mut [u64; MEMORY], control: Control, version: Version<'_>) -> Told
    ensures { Quiet (wrote control memory.old (said version.entry)) result memory.new }
{
    let Some(_) = key_size(version.key) else {
        return Told::No(Refusal::Limits as u64);
    };
    let Some(_) = value_size(version.value) else {
        return Told::No(Refusal::Limits as u64);
    };
    let Some(moment) = proper_moment(version.moment) else {
        return Told::No(Refusal::Limits as u64);
    };
    let Some(moment) = not_earlier(control.base.last, moment) else {
        return Told::No(Refusal::Moment as u64);
    };
    let Some(lookup) = seek_below(control, moment) else {
        return accept(memory, control, Version { moment, ..version });
    };
    stage(memory, Version { moment, ..version });
    let base = Base {
        phase: Phase::Writing,
        ..control.base
    };
    ask(memory, Control { base, ..control }, lookup)
}

// The table does not have the key at this moment: the write goes on with the version that was staged.
fn finish(memory: &mut [u64; MEMORY], control: Control) -> Told
    ensures { Quiet (finished control memory.old) result memory.new }
{
    turn_to(memory, control, Phase::Idle);
    let stage = &memory[STAGE..RING];
    let key = read_key(stage, 0);
    let value = read_value::<1024>(stage, 0);
    let moment = moment_at(stage, 0);
    let gone = is_gone(stage, 0);
    let base = Base {
        phase: Phase::Idle,
        ..control.base
    };
    accept(
        memory,
        Control { base, ..control },
        Version {
            key: key.as_slice(),
            moment,
            gone,
            value: value.as_slice(),
        },
    )
}

// The like for a get goes on with other functions and the lent row: what the two share is their first four lines.
// All pages came that were wanted: the key was written at this moment, or it was not, or more is wanted.
fn end_look(memory: &mut [u64; MEMORY], control: Control, lookup: Lookup) -> Told
    ensures { Quiet (wrote_by control memory.old lookup) result memory.new }
{
    let row: [u8; 2016] = octets(&memory[RING..LIST]);
    let moment = moment_at(&memory[STAGE..RING], 0);
    let extent = extent_of(control.manifest);
    match look_staged(memory, lookup, extent, &row, moment.wrapping_add(1)) {
        Looked::On(next) => ask(memory, control, next),
        Looked::Missing => finish(memory, control),
        Looked::Found(place) => {
            if place.moment == moment {
                turn_to(memory, control, Phase::Idle);
                return Told::No(Refusal::Moment as u64);
            }
            finish(memory, control)
        }
    }
}

// A page came for a write.
pub fn write_on(memory: &mut [u64; MEMORY], control: Control, page: &[u8]) -> Told
    ensures { Quiet (wrote_on control memory.old page.now) result memory.new }
{
    let lookup = take_page(memory, control.lookup, page);
    if lookup.load.got < lookup.load.span.pages {
        return ask(memory, control, lookup);
    }
    end_look(memory, control, lookup)
}
