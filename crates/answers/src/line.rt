// A version as a line of text: its key and its value, in double quotes.
ghost use Rattle.std.specs.Prelude.{◌≡◌, ◌++◌, take, drop, IfOk, OnOk};
ghost use Rattle.answers.specs.Lines.{hex_digit, shown, quoted, line_of};

use std::alloc::{AllocError, Global};

// `char::from_digit` is no plainer: it takes a `u32`, and gives an option of a `char`.
fn hex(n: u8) -> u8
    ensures { result ≡ hex_digit n }
{
    let digit = n % 16;
    if digit < 10 {
        b'0' + digit
    } else {
        b'a' + (digit - 10)
    }
}

// A byte as it is shown: printable ASCII as itself.
fn push_shown(text: &mut Vec<u8>, b: u8) -> Result<(), AllocError>
    ensures { OnOk result (text.new.items ≡ text.old.items ++ shown b) }
{
    match b {
        b' '..=b'~' => text.extend_from_slice(&[b]),
        _ => text.extend_from_slice(&[b'\\', b'x', hex(b / 16), hex(b)]),
    }
}

fn push_quoted(text: &mut Vec<u8>, numbers: &[u64]) -> Result<(), AllocError>
    ensures { OnOk result (text.new.items ≡ text.old.items ++ quoted numbers.now) }
{
    text.extend_from_slice(b"\"")?;
    for n in numbers {
        push_shown(text, (*n % 256) as u8)?;
    }
    text.extend_from_slice(b"\"")?;
    Ok(())
}

// The first `len` numbers of a row, or all where it has fewer, and those behind them.
fn cut_at(row: &[u64], len: u64) -> (&[u64], &[u64])
    ensures front { result.0.now ≡ take len row.now }
    ensures back { result.1.now ≡ drop len row.now }
{
    row.split_at(usize::try_from(len).unwrap_or(usize::MAX).min(row.len()))
}

// The line that shows the version in a row, which is the length of a key, the key, and the value; an empty row shows nothing.
pub fn version_line(heap: Global, row: &[u64]) -> Result<Vec<u8>, AllocError>
    ensures { IfOk result (λ text. text.items ≡ line_of row.now) }
{
    let mut text = Vec::new(heap);
    let [len, rest @ ..] = row else {
        return Ok(text);
    };
    let (key, value) = cut_at(rest, *len);
    push_quoted(&mut text, key)?;
    text.extend_from_slice(b" ")?;
    push_quoted(&mut text, value)?;
    text.extend_from_slice(b"\n")?;
    Ok(text)
}
