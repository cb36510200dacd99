// Bytes in rows of words, a byte a word.
ghost use Rattle.std.specs.Prelude.{◌≡◌, min, length, take};
ghost use Rattle.table.specs.Row.{octets as octets_of};
ghost use Rattle.flushing_store.specs.Octets.{put_octets};

use store::Bytes;
use table::octets;
use value::byte;

// A byte a word, over a whole row; where there are no more bytes, 0.
pub fn widen_into(bytes: &[u8], row: &mut [u64])
    ensures { row.new ≡ octets_of (length row.old) bytes.now }
{
    for (i, word) in row.iter_mut().enumerate() {
        *word = u64::from(byte(bytes, i));
    }
}

// Bytes over the words at a place; where they do not fit, nothing is changed.
pub fn put_octets(row: &mut [u64], at: u64, bytes: &[u8])
    ensures { row.new ≡ put_octets at bytes.now row.old }
{
    if bytes.len() > row.len() {
        return;
    }
    if at > (row.len() - bytes.len()) as u64 {
        return;
    }
    let from = at as usize;
    widen_into(bytes, &mut row[from..from + bytes.len()]);
}

// The first n bytes that words hold, at most 504, which is what a page has room for.
pub fn page_octets(words: &[u64], n: u64) -> Bytes<504>
    ensures { take result.len result.row ≡ octets_of (min n 504) words.now }
{
    Bytes {
        row: octets(words),
        len: n.min(504) as usize,
    }
}
