// Writing and erasing: the checks in their order, each of which hands on its value or leaves with its number; then the version goes into memory.
ghost use Rattle.std.specs.Prelude.{◌≡◌};
ghost use Rattle.value.specs.Said.{said};
ghost use Rattle.store.specs.Acts.{Quiet};
ghost use Rattle.store.specs.Write.{put_in, wrote};

use crate::checks::{
    key_size, not_earlier, proper_moment, roomy, unwritten, value_size, within_pages,
};
use crate::control::{Control, MEMORY, Phase, save};
use crate::regions::put_in_table;
use crate::told::{Refusal, Told};
use memtable::Memtable;
use value::Version;

#[tactic(auto, unfolding(crate::specs::Write::put_in))]
fn put_version(
    memory: &mut [u64; MEMORY],
    control: Control,
    place: u64,
    table: Memtable,
    version: Version<'_>,
)
    ensures { memory.new ≡ put_in control place table (said version.entry) memory.old }
{
    put_in_table(memory, control.table, place, version);
    save(
        memory,
        Control {
            phase: Phase::Idle,
            last: version.moment,
            table,
            ..control
        },
    );
}

// Writes a version into memory, or says why not: each check hands on its value or leaves with its number, which is a rule of the project.
pub fn write(memory: &mut [u64; MEMORY], control: Control, version: Version<'_>) -> Told
    ensures { Quiet (wrote control memory.old (said version.entry)) result memory.new }
{
    let Some(key_len) = key_size(version.key) else {
        return Told::No(Refusal::Limits as u64);
    };
    let Some(value_len) = value_size(version.value) else {
        return Told::No(Refusal::Limits as u64);
    };
    let Some(moment) = proper_moment(version.moment) else {
        return Told::No(Refusal::Limits as u64);
    };
    let Some(moment) = not_earlier(control.last, moment) else {
        return Told::No(Refusal::Moment as u64);
    };
    let Some(place) = unwritten(control.table, memory, version.key, moment) else {
        return Told::No(Refusal::Moment as u64);
    };
    let Some(table) = roomy(control.table, key_len, value_len) else {
        return Told::No(Refusal::Unsafe as u64);
    };
    let Some(_) = within_pages(control.pages, table.weight) else {
        return Told::No(Refusal::Full as u64);
    };
    put_version(memory, control, place, table, Version { moment, ..version });
    Told::Done
}
