// Splits a line into words: a word stands as it is, or in double quotes, where \" \\ \n \t and \xNN are escapes.
ghost use Rattle.std.specs.Prelude.{◌≡◌, ◌⊎◌, map, Ok, Err, MatchResult, OnOk};
ghost use Rattle.lines.specs.Words.{before_newline, comment, blank, hex_value, escape_at, high_step, low_step, quoted_at, between_at, plain_at, closed_at, turn_at, end_at, in_hand, so_far, words_of};
ghost use Rattle.spelling.specs.Word.{spelled};

use crate::flaw::Flaw;
use spelling::Word;
use std::alloc::{AllocError, Global};
use std::mem;

// Where in a line the splitter stands.
#[derive(Clone, Copy)]
pub enum Place {
    Between,
    Plain,
    Quoted,
    Escape,
    HighDigit,
    LowDigit(u8),
    Closed,
}

// What a byte of the line does.
#[derive(Clone, Copy)]
pub enum Deed {
    Pass,
    Take(u8),
    // A word ends, which stood in quotes or not.
    End(bool),
}

// A line as it was typed, without the end of the line.
pub fn without_newline(line: &[u8]) -> &[u8]
    ensures { result.now ≡ before_newline line.now }
{
    match line {
        [rest @ .., b'\n'] => rest,
        _ => line,
    }
}

fn is_blank(b: u8) -> bool
    ensures { result ≡ blank b }
{
    matches!(b, b' ' | b'\t' | b'\r')
}

// Does the line begin with #?
#[tactic(auto, unfolding(crate::specs::Words::comment))]
pub fn is_comment(line: &[u8]) -> bool
    ensures { result ≡ comment line.now }
{
    for b in line {
        if !is_blank(*b) {
            return *b == b'#';
        }
    }
    false
}

fn hex_digit(b: u8) -> Option<u8>
    ensures { result ≡ hex_value b }
{
    char::from(b).to_digit(16).map(|d| d as u8)
}

fn escaped(b: u8) -> Result<(Place, Deed), Flaw>
    ensures { result ≡ escape_at b }
{
    match b {
        b'"' => Ok((Place::Quoted, Deed::Take(b'"'))),
        b'\\' => Ok((Place::Quoted, Deed::Take(b'\\'))),
        b'n' => Ok((Place::Quoted, Deed::Take(b'\n'))),
        b't' => Ok((Place::Quoted, Deed::Take(b'\t'))),
        b'x' => Ok((Place::HighDigit, Deed::Pass)),
        _ => Err(Flaw::NoEscape),
    }
}

fn after_high(b: u8) -> Result<(Place, Deed), Flaw>
    ensures { result ≡ high_step (hex_value b) }
{
    let high = hex_digit(b).ok_or(Flaw::NoHexDigit)?;
    Ok((Place::LowDigit(high), Deed::Pass))
}

fn after_low(high: u8, b: u8) -> Result<(Place, Deed), Flaw>
    ensures { result ≡ low_step high (hex_value b) }
{
    let low = hex_digit(b).ok_or(Flaw::NoHexDigit)?;
    Ok((Place::Quoted, Deed::Take(high % 16 * 16 + low)))
}

fn in_quotes(b: u8) -> (Place, Deed)
    ensures { result ≡ quoted_at b }
{
    match b {
        b'"' => (Place::Closed, Deed::End(true)),
        b'\\' => (Place::Escape, Deed::Pass),
        _ => (Place::Quoted, Deed::Take(b)),
    }
}

fn between(b: u8) -> (Place, Deed)
    ensures { result ≡ between_at b }
{
    if is_blank(b) {
        (Place::Between, Deed::Pass)
    } else if b == b'"' {
        (Place::Quoted, Deed::Pass)
    } else {
        (Place::Plain, Deed::Take(b))
    }
}

fn in_word(b: u8) -> (Place, Deed)
    ensures { result ≡ plain_at b }
{
    if is_blank(b) {
        (Place::Between, Deed::End(false))
    } else {
        (Place::Plain, Deed::Take(b))
    }
}

fn after_quote(b: u8) -> Result<(Place, Deed), Flaw>
    ensures { result ≡ closed_at b }
{
    if is_blank(b) {
        Ok((Place::Between, Deed::Pass))
    } else {
        Err(Flaw::NoBlank)
    }
}

// What the byte `b` does at a place, and the place after it.
fn turn(place: Place, b: u8) -> Result<(Place, Deed), Flaw>
    ensures { result ≡ turn_at place b }
{
    match place {
        Place::Between => Ok(between(b)),
        Place::Plain => Ok(in_word(b)),
        Place::Quoted => Ok(in_quotes(b)),
        Place::Escape => escaped(b),
        Place::HighDigit => after_high(b),
        Place::LowDigit(high) => after_low(high, b),
        Place::Closed => after_quote(b),
    }
}

// What the end of the line does at a place.
fn at_end(place: Place) -> Result<Deed, Flaw>
    ensures { result ≡ end_at place }
{
    match place {
        Place::Between | Place::Closed => Ok(Deed::Pass),
        Place::Plain => Ok(Deed::End(false)),
        _ => Err(Flaw::NotClosed),
    }
}

fn perform(
    heap: Global,
    deed: Deed,
    bytes: &mut Vec<u8>,
    words: &mut Vec<Word>,
) -> Result<(), AllocError>
    ensures hand { OnOk result (bytes.new.items ≡ in_hand deed bytes.old.items) }
    ensures words { OnOk result (map spelled words.new.items ≡ so_far deed bytes.old.items (map spelled words.old.items)) }
{
    match deed {
        Deed::Pass => {}
        Deed::Take(b) => bytes.push(b)?,
        Deed::End(quoted) => {
            let bytes = mem::replace(bytes, Vec::new(heap));
            words.push(Word { bytes, quoted })?;
        }
    }
    Ok(())
}

// The words of a line, or what is wrong with it.
#[tactic(auto, unfolding(crate::specs::Words::words_from))]
pub fn split(heap: Global, line: &[u8]) -> Result<Vec<Word>, Flaw>
    ensures { MatchResult result (λ ws. words_of line.now ≡ Ok (map spelled ws.items)) (λ e. (e ≡ Flaw.NoMemory) ⊎ (words_of line.now ≡ Err e)) }
{
    let mut words = Vec::new(heap);
    let mut bytes = Vec::new(heap);
    let mut place = Place::Between;
    for b in line {
        let (next, deed) = turn(place, *b)?;
        perform(heap, deed, &mut bytes, &mut words)?;
        place = next;
    }
    perform(heap, at_end(place)?, &mut bytes, &mut words)?;
    Ok(words)
}
