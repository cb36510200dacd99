// The arena: versions in lent words, in the order in which they came. Whatever the words are, each read gives something and no write leaves the row.
ghost use Rattle.std.specs.Prelude.{◌≡◌, ◌+◌, ◌*◌, ◌%◌, ◌<◌, ◌≤◌, length};
ghost use Rattle.value.specs.Said.{said};
ghost use Rattle.memtable.specs.Words.{words, laid, byte_behind};
ghost use Rattle.memtable.specs.Arena.{moment_at, key_length, value_length, gone_at, key_at, value_at, measures, has_room, appended, order_at};

use crate::words::{byte_behind, peek, peek_behind, put_bytes, unpack_into, word_at, words_of};
use std::cmp::Ordering;
use value::Version;

// The moment of the version at a place.
pub fn moment_at(arena: &[u64], place: u64) -> u64
    ensures { result ≡ moment_at arena.now place }
{
    peek(arena, place)
}

// The length of its key.
pub fn key_len(arena: &[u64], place: u64) -> u64
    ensures { result ≡ key_length arena.now place }
{
    peek_behind(arena, place, 1) % 256
}

// The length of its value.
pub fn value_len(arena: &[u64], place: u64) -> u64
    ensures { result ≡ value_length arena.now place }
{
    peek_behind(arena, place, 1) / 256 % 4096
}

// Does it say that the key is gone?
pub fn is_gone(arena: &[u64], place: u64) -> bool
    ensures { result ≡ gone_at arena.now place }
{
    peek_behind(arena, place, 1) / 1048576 % 2 == 1
}

// Byte i of its key, and of its value; past their ends, what lies there. One function for both would take what tells them apart, which byte_behind does.
pub fn key_byte(arena: &[u64], place: u64, i: u64) -> u8
    ensures { result ≡ byte_behind arena.now place 2 i }
{
    byte_behind(arena, place, 2, i)
}

pub fn value_byte(arena: &[u64], place: u64, i: u64) -> u8
    ensures { result ≡ byte_behind arena.now place (2 + words (key_length arena.now place)) i }
{
    byte_behind(arena, place, 2 + words_of(key_len(arena, place)), i)
}

// Lays its key over the beginning of a lent row, as far as that goes. For both at once there is unpack_into, which takes what tells them apart.
pub fn key_into(arena: &[u64], place: u64, out: &mut [u8])
    ensures { out.new ≡ laid (key_at arena.now place) out.old }
{
    unpack_into(arena, place, 2, key_len(arena, place), out);
}

// The same with its value.
pub fn value_into(arena: &[u64], place: u64, out: &mut [u8])
    ensures { out.new ≡ laid (value_at arena.now place) out.old }
{
    unpack_into(
        arena,
        place,
        2 + words_of(key_len(arena, place)),
        value_len(arena, place),
        out,
    );
}

// Where the key at a place stands to another: word by word, and by their lengths where all words are the same.
pub fn order_at(arena: &[u64], place: u64, key: &[u8]) -> Ordering
    ensures { result ≡ order_at arena.now place key.now }
{
    let length = key_len(arena, place);
    let n = words_of(length.min(key.len() as u64));
    // By their numbers: what is behind the arena's end has no slice, and counts as 0.
    for k in 0..n {
        let order = peek_behind(arena, place, 2 + k).cmp(&word_at(key, 8 * k));
        if order.is_ne() {
            return order;
        }
    }
    length.cmp(&(key.len() as u64))
}

// A version's lengths and whether the key is gone, in one word.
fn measures_of(k: u64, v: u64, gone: bool) -> u64
    requires { (k ≤ 255) × (v ≤ 1024) }
    ensures { result ≡ measures k v gone }
{
    k + 256 * v + 1048576 * u64::from(gone)
}

// Is a version with a key of k bytes and a value of v allowed, and do n words have room for it behind those that are used?
pub fn has_room(n: u64, used: u64, k: u64, v: u64) -> bool
    ensures { result ≡ has_room n used k v }
{
    (1..=255).contains(&k) && v <= 1024 && 2 + words_of(k) + words_of(v) <= n.saturating_sub(used)
}

// Writes a version behind the words that are used. If it is not allowed or finds no room, nothing is changed.
pub fn append(arena: &mut [u64], used: u64, version: Version<'_>)
    ensures { arena.new ≡ appended arena.old used (said version.entry) }
{
    let Version {
        key,
        moment,
        gone,
        value,
    } = version;
    let k = key.len() as u64;
    let v = value.len() as u64;
    if !has_room(arena.len() as u64, used, k, v) {
        return;
    }
    arena[used as usize] = moment;
    arena[(used + 1) as usize] = measures_of(k, v, gone);
    put_bytes(arena, used + 2, key);
    put_bytes(arena, used + 2 + words_of(k), value);
}
