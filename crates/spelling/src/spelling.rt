// What a word spells: a number, or a name.
ghost use Rattle.std.specs.Prelude.{◌≡◌};
ghost use Rattle.spelling.specs.Spelling.{longer, number_of, numeral_of, plainly};
ghost use Rattle.spelling.specs.Word.{spelled};

use crate::word::Word;

// A number with one decimal digit more.
fn with_digit(n: u64, b: u8) -> Option<u64>
    ensures { result ≡ longer n b }
{
    if !b.is_ascii_digit() {
        return None;
    }
    n.checked_mul(10)?.checked_add(u64::from(b - b'0'))
}

// The number that a row of decimal digits spells, if it is below 2^64.
#[tactic(auto, unfolding(crate::specs::Spelling::digits_from))]
pub fn number(digits: &[u8]) -> Option<u64>
    ensures { result ≡ number_of digits.now }
{
    if digits.is_empty() {
        return None;
    }
    let mut n: u64 = 0;
    for b in digits {
        n = with_digit(n, *b)?;
    }
    Some(n)
}

// The number that a word spells; one in quotes spells none.
pub fn numeral(word: &Word) -> Option<u64>
    ensures { result ≡ numeral_of (spelled word.now) }
{
    if word.quoted {
        return None;
    }
    number(&word.bytes)
}

// Does a word stand without quotes, and spell this?
pub fn is_plain(word: &Word, name: &[u8]) -> bool
    ensures { result ≡ plainly (spelled word.now) name.now }
{
    !word.quoted && word.bytes.as_slice() == name
}
