// One step of the machine, as the world outside calls it: events by number, acts by an enum and a lent row.
ghost use Rattle.std.specs.Prelude.{◌≡◌, ◌≤◌, length};
ghost use Rattle.store.specs.Acts.{Does};
ghost use Rattle.flushing_store.specs.Own.{went_on, paged, turned, own};
ghost use Rattle.store.specs.Event.{meaning};
ghost use Rattle.store.specs.Entry.{StepSays, step_fits};

use crate::control::{Control, MEMORY, Phase};
use crate::flush::{commit, flush, merge_on, merge_page, put_last, put_new_list};
use crate::get::{get, get_on};
use crate::power::{first_list, power, second_list};
use crate::words::{load, turn_to};
use crate::write::{write, write_on};
use store::{Event, ROW, Refusal, Told};
use value::{Version, padded};

// Goes on with what is under way.
fn go_on(memory: &mut [u64; MEMORY], control: Control, out: &mut [u64; ROW]) -> Told
    ensures { Does (went_on control memory.old control.base.phase) result out.old memory.new out.new }
{
    match control.base.phase {
        Phase::Shown => {
            turn_to(memory, control, Phase::Idle);
            Told::Done
        }
        Phase::Merging => merge_on(memory, control, out),
        Phase::Closed => put_last(memory, control, out),
        Phase::Placed => {
            turn_to(memory, control, Phase::Settled);
            Told::Settle
        }
        Phase::Settled => put_new_list(memory, control, out),
        Phase::Listed => {
            turn_to(memory, control, Phase::Committed);
            Told::Settle
        }
        Phase::Committed => commit(memory, control),
        _ => Told::No(Refusal::Unknown as u64),
    }
}

// A page came that was asked for.
fn take_page(
    memory: &mut [u64; MEMORY],
    control: Control,
    bytes: &[u8],
    out: &mut [u64; ROW],
) -> Told
    ensures { Does (paged control memory.old bytes.now control.base.phase) result out.old memory.new out.new }
{
    let page = padded::<512>(bytes);
    match control.base.phase {
        Phase::FirstList => first_list(memory, control, &page),
        Phase::AfterWhole => second_list(memory, control, true, &page),
        Phase::AfterTorn => second_list(memory, control, false, &page),
        Phase::Getting => get_on(memory, control, &page, out),
        Phase::Writing => write_on(memory, control, &page),
        Phase::Merging => merge_page(memory, control, &page, out),
        _ => Told::No(Refusal::Unknown as u64),
    }
}

fn take_turn(
    memory: &mut [u64; MEMORY],
    control: Control,
    event: Event<'_>,
    out: &mut [u64; ROW],
) -> Told
    ensures whole { length out.new ≡ length out.old }
    ensures says { Does (turned control memory.old (meaning event.entry)) result out.old memory.new out.new }
{
    match event {
        Event::On(pages) => power(memory, control, pages),
        Event::Write(key, moment, value) => write(
            memory,
            control,
            Version {
                key,
                moment,
                gone: false,
                value,
            },
        ),
        Event::Erase(key, moment) => write(
            memory,
            control,
            Version {
                key,
                moment,
                gone: true,
                value: &[],
            },
        ),
        Event::Get(key, moment) => get(memory, control, key, moment, out),
        Event::Flush => flush(memory, control, out),
        Event::Page(bytes) => take_page(memory, control, bytes, out),
        Event::Next => go_on(memory, control, out),
        _ => Told::No(Refusal::Unknown as u64),
    }
}

// The like of it stands in the other machine: one over a trait would need an array as long as the trait's constant, which there is not.
pub fn step(memory: &mut [u64], kind: u64, n: u64, one: &[u8], two: &[u8], out: &mut [u64]) -> Told
    ensures { StepSays own memory.old kind n one.now two.now out.old (step_fits own memory.old kind one.now two.now out.old) result memory.new out.new }
{
    let Some(memory) = memory.as_mut_array::<MEMORY>() else {
        return Told::No(Refusal::Misfit as u64);
    };
    let Some(out) = out.first_chunk_mut::<ROW>() else {
        return Told::No(Refusal::Misfit as u64);
    };
    let Some(event) = Event::numbered(kind, n, one, two) else {
        return Told::No(Refusal::Misfit as u64);
    };
    let control = load(memory);
    take_turn(memory, control, event, out)
}
