// How a command, and what came of an act, is told to the machine: by the number of its event.
ghost use Rattle.std.specs.Prelude.{◌≡◌, ℕ, ◌<◌, length, slice_index};
ghost use Rattle.events.specs.Events.{taken, said_by, told_by, Tells};

use crate::machine::Machine;
use commands::Command;
use store::Told;

// What came of an act.
#[derive(Clone, Copy)]
pub enum Reply {
    // A page was read. It is lent beside this: a reply that held it would hold the reader too.
    Page,
    // The page that was asked for is not there.
    NoPage,
    Next,
}

#[derive(Clone, Copy)]
pub enum Event<'a> {
    // Power comes to a device of so many pages.
    On(u64),
    Say(Command<'a>),
    Back(Reply),
}

// What a step takes: the number of an event, a number, and two rows of bytes.
#[derive(Clone, Copy)]
struct Taken<'a> {
    kind: u64,
    number: u64,
    one: &'a [u8],
    two: &'a [u8],
}

fn takes<'a>(kind: u64, number: u64, one: &'a [u8], two: &'a [u8]) -> Taken<'a>
    ensures { taken result ≡ (kind, number, one.now, two.now) }
{
    Taken {
        kind,
        number,
        one,
        two,
    }
}

fn say<'a>(command: Command<'a>) -> Taken<'a>
    ensures { taken result ≡ said_by command.entry }
{
    match command {
        Command::Write(key, moment, value) => takes(1, moment, key, value),
        Command::Erase(key, moment) => takes(2, moment, key, &[]),
        Command::Get(key, moment) => takes(3, moment, key, &[]),
        Command::Range(from, None, moment) => takes(4, moment, from, &[]),
        Command::Range(from, Some(to), moment) => takes(5, moment, from, to),
        Command::First(moment) => takes(6, moment, &[], &[]),
        Command::Last(moment) => takes(7, moment, &[], &[]),
        Command::Count(moment) => takes(8, moment, &[], &[]),
        Command::Flush => takes(9, 0, &[], &[]),
        Command::Compact(moment) => takes(10, moment, &[], &[]),
    }
}

fn taken_for<'a>(event: Event<'a>, page: &'a [u8]) -> Taken<'a>
    ensures { taken result ≡ told_by event.entry page.now }
{
    match event {
        Event::On(pages) => takes(0, pages, &[], &[]),
        Event::Say(command) => say(command),
        Event::Back(Reply::Page) => takes(11, 0, &[], page),
        Event::Back(Reply::NoPage) => takes(11, 0, &[], &[]),
        Event::Back(Reply::Next) => takes(12, 0, &[], &[]),
    }
}

// Tells a machine an event; `page` is what was read last.
pub fn tell<'a, M: Machine>(
    memory: &mut [u64],
    event: Event<'a>,
    page: &'a [u8],
    out: &mut [u64],
) -> Told
    ensures { Tells M.Steps memory.old event.entry page.now out.old result memory.new out.new }
{
    let taken = taken_for(event, page);
    M::step(memory, taken.kind, taken.number, taken.one, taken.two, out)
}

// Power goes: of what stood in memory nothing is left.
pub fn forget(memory: &mut [u64])
    ensures { (k : ℕ) → k < length memory.new → slice_index memory.new k ≡ 0 }
{
    memory.fill(0);
}
