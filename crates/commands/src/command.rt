// What can be said to the store, read from the words behind a command's name.
ghost use Rattle.std.specs.Prelude.{◌≡◌, map};
ghost use Rattle.commands.specs.Commands.{moment_of, end_of, meant_by, none_of, write_of, erase_of, get_of, range_of, first_of, last_of, count_of, flush_of, compact_of, only_moment};
ghost use Rattle.spelling.specs.Word.{spelled};
ghost use Rattle.std.specs.Option.{option_map};

use names::{Flaw, Name};
use spelling::{Word, is_plain, numeral};

// What is said to the store.
#[derive(Clone, Copy)]
pub enum Command<'a> {
    Write(&'a [u8], u64, &'a [u8]),
    Erase(&'a [u8], u64),
    Get(&'a [u8], u64),
    // From a key on, before another if one is given.
    Range(&'a [u8], Option<&'a [u8]>, u64),
    First(u64),
    Last(u64),
    Count(u64),
    Flush,
    Compact(u64),
}

fn moment(word: &Word) -> Result<u64, Flaw>
    ensures { result ≡ moment_of (spelled word.now) }
{
    numeral(word).ok_or(Flaw::NoMoment)
}

// `none` without quotes is no end.
fn end_of<'a>(word: &'a Word) -> Option<&'a [u8]>
    ensures { option_map (λ x. x.now) result ≡ end_of (spelled word.now) }
{
    if is_plain(word, b"none") {
        None
    } else {
        Some(word.bytes.as_slice())
    }
}

pub fn write<'a>(rest: &'a [Word]) -> Result<Command<'a>, Flaw>
    ensures { meant_by result ≡ write_of (map spelled rest.now) }
{
    let [key, at, value] = rest else {
        return Err(Flaw::Form(Name::Write));
    };
    Ok(Command::Write(&key.bytes, moment(at)?, &value.bytes))
}

// `erase` and `get` differ in a name alone: what they share would need a definition of its own, and save a line.
pub fn erase<'a>(rest: &'a [Word]) -> Result<Command<'a>, Flaw>
    ensures { meant_by result ≡ erase_of (map spelled rest.now) }
{
    let [key, at] = rest else {
        return Err(Flaw::Form(Name::Erase));
    };
    Ok(Command::Erase(&key.bytes, moment(at)?))
}

pub fn get<'a>(rest: &'a [Word]) -> Result<Command<'a>, Flaw>
    ensures { meant_by result ≡ get_of (map spelled rest.now) }
{
    let [key, at] = rest else {
        return Err(Flaw::Form(Name::Get));
    };
    Ok(Command::Get(&key.bytes, moment(at)?))
}

pub fn range<'a>(rest: &'a [Word]) -> Result<Command<'a>, Flaw>
    ensures { meant_by result ≡ range_of (map spelled rest.now) }
{
    let [from, to, at] = rest else {
        return Err(Flaw::Form(Name::Range));
    };
    Ok(Command::Range(&from.bytes, end_of(to), moment(at)?))
}

// The one moment that stands behind a name.
fn only_moment(called: Name, rest: &[Word]) -> Result<u64, Flaw>
    ensures { result ≡ only_moment called (map spelled rest.now) }
{
    let [at] = rest else {
        return Err(Flaw::Form(called));
    };
    moment(at)
}

pub fn nothing_more(called: Name, rest: &[Word]) -> Result<(), Flaw>
    ensures { result ≡ none_of called (map spelled rest.now) }
{
    match rest {
        [] => Ok(()),
        _ => Err(Flaw::Form(called)),
    }
}

// The next four differ in a name alone, and are a line each over `only_moment`.
pub fn first<'a>(rest: &'a [Word]) -> Result<Command<'a>, Flaw>
    ensures { meant_by result ≡ first_of (map spelled rest.now) }
{
    Ok(Command::First(only_moment(Name::First, rest)?))
}

pub fn last<'a>(rest: &'a [Word]) -> Result<Command<'a>, Flaw>
    ensures { meant_by result ≡ last_of (map spelled rest.now) }
{
    Ok(Command::Last(only_moment(Name::Last, rest)?))
}

pub fn count<'a>(rest: &'a [Word]) -> Result<Command<'a>, Flaw>
    ensures { meant_by result ≡ count_of (map spelled rest.now) }
{
    Ok(Command::Count(only_moment(Name::Count, rest)?))
}

pub fn compact<'a>(rest: &'a [Word]) -> Result<Command<'a>, Flaw>
    ensures { meant_by result ≡ compact_of (map spelled rest.now) }
{
    Ok(Command::Compact(only_moment(Name::Compact, rest)?))
}

pub fn flush<'a>(rest: &'a [Word]) -> Result<Command<'a>, Flaw>
    ensures { meant_by result ≡ flush_of (map spelled rest.now) }
{
    nothing_more(Name::Flush, rest)?;
    Ok(Command::Flush)
}
