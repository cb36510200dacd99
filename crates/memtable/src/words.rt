// Words of 64 bits in a lent row, and bytes packed into them eight to a word, the highest first. A read outside the row gives 0.
ghost use Rattle.std.specs.Prelude.{◌≡◌, ◌+◌, ◌*◌, ◌%◌, ◌<◌, ◌≤◌, length, slice_index};
ghost use Rattle.memtable.specs.Words.{octet, word, words, pack, byte, byte_behind, row, laid, put_row};

use value::{padded, part_of};

// The word at a place.
pub fn peek(ws: &[u64], at: u64) -> u64
    ensures { result ≡ slice_index ws.now at }
{
    ws.get(at as usize).copied().unwrap_or(0)
}

// The word that lies k words behind a place, however large the sum.
pub fn peek_behind(ws: &[u64], place: u64, k: u64) -> u64
    ensures { result ≡ slice_index ws.now (place + k) }
{
    peek(ws, place.saturating_add(k))
}

// How many words so many bytes take.
pub fn words_of(n: u64) -> u64
    ensures { result ≡ words n }
{
    n.div_ceil(8)
}

// The first eight bytes of a row as one word; past its end they count as 0.
fn first_word(bs: &[u8]) -> u64
    ensures { result ≡ word bs.now 0 }
{
    u64::from_be_bytes(padded(bs))
}

// The eight bytes from k on as one word.
pub fn word_at(bs: &[u8], k: u64) -> u64
    ensures { result ≡ word bs.now k }
{
    first_word(part_of(bs, k as usize, 8))
}

// Byte k of a word.
fn byte_of(w: u64, k: u64) -> u8
    requires { k < 8 }
    ensures { result ≡ byte w k }
{
    w.to_be_bytes()[k as usize]
}

// Byte i of what is packed s words behind a place.
pub fn byte_behind(ws: &[u64], place: u64, s: u64, i: u64) -> u8
    requires { s ≤ 4096 }
    ensures { result ≡ byte_behind ws.now place s i }
{
    byte_of(peek_behind(ws, place, s + i / 8), i % 8)
}

// Writes a row of bytes, packed, over the words from a place on.
pub fn put_bytes(ws: &mut [u64], at: u64, bs: &[u8])
    requires { (length bs.now ≤ 1024) × (at + words (length bs.now) ≤ length ws.old) }
    ensures { ws.new ≡ put_row ws.old at (pack bs.now) }
{
    for (k, chunk) in bs.chunks(8).enumerate() {
        ws[at as usize + k] = first_word(chunk);
    }
}

// Lays the n bytes that are packed s words behind a place over the beginning of a lent row, as far as it goes.
pub fn unpack_into(ws: &[u64], place: u64, s: u64, n: u64, out: &mut [u8])
    requires { s ≤ 4096 }
    ensures { out.new ≡ laid (row ws.now place s n) out.old }
{
    let m = n.min(out.len() as u64) as usize;
    for (i, b) in out[..m].iter_mut().enumerate() {
        *b = byte_behind(ws, place, s, i as u64);
    }
}
