// What a line asks for, read from its words.
ghost use Rattle.std.specs.Prelude.{◌≡◌, ◌⊎◌, map, Ok, Err, MatchResult};
ghost use Rattle.commands.specs.Commands.{none_of};
ghost use Rattle.orders.specs.Orders.{part_number, part_of, parts_of, power_after_of, power_of, meant_order, if_alone, asked_of, order_of, Asks};
ghost use Rattle.spelling.specs.Spelling.{numeral_of};
ghost use Rattle.spelling.specs.Word.{spelled};

use commands::{Command, nothing_more};
use names::{Flaw, Name, name_of};
use spelling::{Word, is_plain, numeral};
use std::alloc::Global;

// How much of a waiting page a stop leaves.
#[derive(Clone, Copy, Debug, PartialEq, Eq)]
pub enum Part {
    Nothing,
    All,
    Half,
}

// Power goes after so many acts, and this much is left of each page that waits then.
#[derive(Drop)]
pub struct Cut {
    pub acts: u64,
    pub left: Vec<Part>,
}

#[derive(Drop)]
pub enum Order<'a> {
    // An empty line, or a comment.
    Pass,
    Say(Command<'a>),
    Power,
    PowerAfter(Cut),
    Help,
    Quit,
}

impl TryFrom<u64> for Part {
    type Error = Flaw;

    ghost try_from_gives = { λ n r. r ≡ part_number n };

    fn try_from(n: u64) -> Result<Part, Flaw> {
        match n {
            0 => Ok(Part::Nothing),
            1 => Ok(Part::All),
            2 => Ok(Part::Half),
            _ => Err(Flaw::NoPart),
        }
    }
}

fn part_left(word: &Word) -> Result<Part, Flaw>
    ensures { result ≡ part_of (numeral_of (spelled word.now)) }
{
    Part::try_from(numeral(word).ok_or(Flaw::NoPart)?)
}

#[tactic(auto, unfolding(crate::specs::Orders::parts_from))]
fn parts(heap: Global, rest: &[Word]) -> Result<Vec<Part>, Flaw>
    ensures { MatchResult result (λ v. parts_of (map spelled rest.now) ≡ Ok v.items) (λ e. (e ≡ Flaw.NoMemory) ⊎ (parts_of (map spelled rest.now) ≡ Err e)) }
{
    let mut left = Vec::new(heap);
    for word in rest {
        left.push(part_left(word)?)?;
    }
    Ok(left)
}

fn power_after<'a>(heap: Global, acts: &Word, rest: &[Word]) -> Result<Order<'a>, Flaw>
    ensures { Asks result (power_after_of (numeral_of (spelled acts.now)) (parts_of (map spelled rest.now))) }
{
    let acts = numeral(acts).ok_or(Flaw::NoActs)?;
    let left = parts(heap, rest)?;
    Ok(Order::PowerAfter(Cut { acts, left }))
}

fn power<'a>(heap: Global, rest: &[Word]) -> Result<Order<'a>, Flaw>
    ensures { Asks result (power_of (map spelled rest.now)) }
{
    match rest {
        [] => Ok(Order::Power),
        [first, acts, left @ ..] if is_plain(first, b"after") => power_after(heap, acts, left),
        _ => Err(Flaw::Form(Name::Power)),
    }
}

// What a name asks for that takes no words.
fn alone<'a>(called: Name, rest: &[Word], order: Order<'a>) -> Result<Order<'a>, Flaw>
    ensures { Asks result (if_alone (none_of called (map spelled rest.now)) (meant_order order.entry)) }
{
    nothing_more(called, rest)?;
    Ok(order)
}

fn asked<'a>(heap: Global, called: Name, rest: &'a [Word]) -> Result<Order<'a>, Flaw>
    ensures { Asks result (asked_of called (map spelled rest.now)) }
{
    match called {
        Name::Write => commands::write(rest).map(Order::Say),
        Name::Erase => commands::erase(rest).map(Order::Say),
        Name::Get => commands::get(rest).map(Order::Say),
        Name::Range => commands::range(rest).map(Order::Say),
        Name::First => commands::first(rest).map(Order::Say),
        Name::Last => commands::last(rest).map(Order::Say),
        Name::Count => commands::count(rest).map(Order::Say),
        Name::Flush => commands::flush(rest).map(Order::Say),
        Name::Compact => commands::compact(rest).map(Order::Say),
        Name::Power => power(heap, rest),
        Name::Help => alone(called, rest, Order::Help),
        Name::Quit => alone(called, rest, Order::Quit),
    }
}

// What a line of these words asks for, or what is wrong with it.
pub fn parse<'a>(heap: Global, words: &'a [Word]) -> Result<Order<'a>, Flaw>
    ensures { Asks result (order_of (map spelled words.now)) }
{
    let [first, rest @ ..] = words else {
        return Ok(Order::Pass);
    };
    if first.quoted {
        return Err(Flaw::NoSuchCommand);
    }
    let called = name_of(&first.bytes).ok_or(Flaw::NoSuchCommand)?;
    asked(heap, called, rest)
}
