// One step of the machine, as the world outside calls it: events by number, acts by an enum and a lent row.
ghost use Rattle.std.specs.Prelude.{◌≡◌, ℕ, List, length};
ghost use Rattle.store.specs.Acts.{Does, Quiet};
ghost use Rattle.store.specs.Event.{meaning};
ghost use Rattle.store.specs.Own.{powered, went_on, turned, own};
ghost use Rattle.store.specs.Entry.{StepSays, step_fits};

use crate::control::{Control, MEMORY, Phase, ROW, load, save};
use crate::event::Event;
use crate::get::get;
use crate::told::{Refusal, Told};
use crate::write::write;
use memtable::empty;
use value::Version;

// Power is there: nothing is kept yet.
#[tactic(auto, unfolding(crate::specs::Own::powered, crate::specs::Acts::ActTold))]
fn power(memory: &mut [u64; MEMORY], pages: u64) -> Told
    ensures { Quiet (powered memory.old pages) result memory.new }
{
    save(
        memory,
        Control {
            phase: Phase::Idle,
            pages,
            last: 0,
            table: empty(),
        },
    );
    Told::Done
}

// Goes on with what is under way.
#[tactic(auto, unfolding(crate::specs::Own::went_on, crate::specs::Acts::ActTold))]
fn go_on(memory: &mut [u64; MEMORY], control: Control) -> Told
    ensures { Quiet (went_on control memory.old control.phase) result memory.new }
{
    match control.phase {
        Phase::Shown => {
            save(
                memory,
                Control {
                    phase: Phase::Idle,
                    ..control
                },
            );
            Told::Done
        }
        Phase::Idle => Told::No(Refusal::Unknown as u64),
    }
}

#[tactic(auto, using(crate::proofs::EntryLaws::other_turn), unfolding(crate::specs::Own::turned, crate::specs::Own::heard))]
fn take_turn(
    memory: &mut [u64; MEMORY],
    control: Control,
    event: Event<'_>,
    out: &mut [u64; ROW],
) -> Told
    ensures whole { length out.new ≡ length out.old }
    ensures says { Does (turned control memory.old (meaning event.entry)) result out.old memory.new out.new }
{
    match event {
        Event::On(pages) => power(memory, pages),
        Event::Write(key, moment, value) => write(
            memory,
            control,
            Version {
                key,
                moment,
                gone: false,
                value,
            },
        ),
        Event::Erase(key, moment) => write(
            memory,
            control,
            Version {
                key,
                moment,
                gone: true,
                value: &[],
            },
        ),
        Event::Get(key, moment) => get(memory, control, key, moment, out),
        Event::Next => go_on(memory, control),
        _ => Told::No(Refusal::Unknown as u64),
    }
}

// The like of it stands in the other machine: one over a trait would need an array as long as the trait's constant, which there is not.
pub fn step(memory: &mut [u64], kind: u64, n: u64, one: &[u8], two: &[u8], out: &mut [u64]) -> Told
    ensures { StepSays own memory.old kind n one.now two.now out.old (step_fits own memory.old kind one.now two.now out.old) result memory.new out.new }
{
    let Some(memory) = memory.as_mut_array::<MEMORY>() else {
        return Told::No(Refusal::Misfit as u64);
    };
    let Some(out) = out.first_chunk_mut::<ROW>() else {
        return Told::No(Refusal::Misfit as u64);
    };
    let Some(event) = Event::numbered(kind, n, one, two) else {
        return Told::No(Refusal::Misfit as u64);
    };
    let control = load(memory);
    take_turn(memory, control, event, out)
}
