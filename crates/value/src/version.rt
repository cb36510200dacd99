// A version in bytes: where it lies in a lent row, and how it is written. specs/Encoding.antt has the layout.
ghost use Rattle.std.specs.Prelude.{◌≡◌, ◌<◌, ◌≤◌, IfSome};
ghost use Rattle.value.specs.Said.{said};
ghost use Rattle.value.specs.Encoding.{limits, head, written_length, written, parsed, key_at, value_at, version_at, Lies};
ghost use Rattle.value.specs.Order.{version_order};

use crate::key::order;
use crate::number::{part_of, put, read_u16, read_u32, read_u64, rest};
use std::cmp::Ordering;

const HEAD: usize = 15;

const UNKNOWN_KIND: u16 = 4096;

const TOO_LATE: u64 = 0x8000_0000_0000_0000;

// A version as it is said: a key, the moment of its writing, and a value, or that the key is gone. It has a flag beside the value and not an option of one, since a caller may
// hand over what is refused: gone, with a value.
#[derive(Clone, Copy)]
pub struct Version<'a> {
    pub key: &'a [u8],
    pub moment: u64,
    pub gone: bool,
    pub value: &'a [u8],
}

// Where a version lies in a row.
#[derive(Clone, Copy)]
pub struct Place {
    pub key_at: usize,
    pub key_len: usize,
    pub value_at: usize,
    pub value_len: usize,
    pub moment: u64,
    pub gone: bool,
}

// Whether a version may have these lengths and this moment.
fn in_limits(key_len: usize, moment: u64, gone: bool, value_len: usize) -> bool
    ensures { result ≡ limits key_len moment gone value_len }
{
    if key_len == 0 || key_len >= 256 {
        return false;
    }
    if moment >= TOO_LATE || value_len > 1024 {
        return false;
    }
    !gone || value_len == 0
}

// The place of the version at `at`, if one stands there.
pub fn parse(row: &[u8], at: usize) -> Option<Place>
    ensures is { result ≡ parsed row.now at }
    ensures lies { IfSome result (Lies row.now at) }
{
    let from = rest(row, at);
    if from.len() < HEAD {
        return None;
    }
    let key_len = from[0] as usize;
    let moment = read_u64(from, 1);
    let mark = read_u16(from, 9);
    if mark >= UNKNOWN_KIND {
        return None;
    }
    if read_u32(from, 11) != 0 {
        return None;
    }
    let gone = mark / 2048 == 1;
    let value_len = (mark % 2048) as usize;
    if !in_limits(key_len, moment, gone, value_len) {
        return None;
    }
    if from.len() < HEAD + key_len + value_len {
        return None;
    }
    Some(Place {
        key_at: at + HEAD,
        key_len,
        value_at: at + HEAD + key_len,
        value_len,
        moment,
        gone,
    })
}

// Two names for two parts of a place, a line each.
// The key of the version at a place.
pub fn key_of(row: &[u8], place: Place) -> &[u8]
    ensures { result.now ≡ key_at row.now place }
{
    part_of(row, place.key_at, place.key_len)
}

// The value of the version at a place.
pub fn value_of(row: &[u8], place: Place) -> &[u8]
    ensures { result.now ≡ value_at row.now place }
{
    part_of(row, place.value_at, place.value_len)
}

// The version at a place.
pub fn version_of(row: &[u8], place: Place) -> Version<'_>
    ensures { said result ≡ version_at row.now place }
{
    Version {
        key: key_of(row, place),
        moment: place.moment,
        gone: place.gone,
        value: value_of(row, place),
    }
}

// The fifteen bytes before a version's key.
fn head_of(key_len: usize, moment: u64, gone: bool, value_len: usize) -> [u8; HEAD]
    requires { (key_len < 256) × (value_len ≤ 1024) }
    ensures { result ≡ head key_len moment gone value_len }
{
    let kind: u16 = if gone { 2048 } else { 0 };
    let mut head = [0; HEAD];
    head[0] = key_len as u8;
    head[1..9].copy_from_slice(&moment.to_le_bytes());
    head[9..11].copy_from_slice(&(kind + value_len as u16).to_le_bytes());
    head
}

// Writes a version at the front of `out`, and says how many bytes it took; outside the limits, or without room, nothing.
pub fn encode(version: Version<'_>, out: &mut [u8]) -> Option<usize>
    ensures len { result ≡ written_length (said version.entry) out.old }
    ensures bytes { out.new ≡ written (said version.entry) out.old }
{
    let Version {
        key,
        moment,
        gone,
        value,
    } = version;
    if !in_limits(key.len(), moment, gone, value.len()) {
        return None;
    }
    let len = HEAD + key.len() + value.len();
    if out.len() < len {
        return None;
    }
    put(out, 0, &head_of(key.len(), moment, gone, value.len()));
    put(out, HEAD, key);
    put(out, HEAD + key.len(), value);
    Some(len)
}

// Where the version at a place of one row stands to that of another: by key, of one key the newest first.
pub fn order_versions(row_a: &[u8], place_a: Place, row_b: &[u8], place_b: Place) -> Ordering
    ensures { result ≡ version_order (version_at row_a.now place_a) (version_at row_b.now place_b) }
{
    order(key_of(row_a, place_a), key_of(row_b, place_b)).then(place_b.moment.cmp(&place_a.moment))
}
