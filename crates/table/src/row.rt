// Payloads of pages that were read, in words of memory, a byte a word; and the bytes that such words hold.
ghost use Rattle.std.specs.Prelude.{◌≡◌, ◌%◌, ◌<◌, length, drop, slice_index};
ghost use Rattle.value.specs.Numbers.{number};
ghost use Rattle.table.specs.Load.{placed};
ghost use Rattle.table.specs.Stream.{payload as payload_of};
ghost use Rattle.table.specs.Row.{octets as octets_of};

use crate::load::place;
use crate::page::PAYLOAD;
use std::array;
use value::{byte, rest};

// A page's payload, a byte a word.
pub(crate) fn payload_words(page: &[u8]) -> [u64; PAYLOAD]
    ensures { result ≡ payload_of page.now }
{
    array::from_fn(|i| u64::from(byte(page, i)))
}

// A page's payload goes to its place in the row.
pub fn place_payload(got: u64, page: &[u8], row: &mut [u64])
    ensures { row.new ≡ placed got page.now row.old }
{
    place(got, &payload_words(page), row);
}

// The byte that a word holds; past the end 0.
pub(crate) fn octet(row: &[u64], i: usize) -> u8
    ensures { result ≡ slice_index row.now i % 256 }
{
    row.get(i).map_or(0, |word| (*word % 256) as u8)
}

// The number in the bytes that four words hold, the lowest first.
pub(crate) fn read_number(row: &[u64], at: usize) -> u32
    ensures { result ≡ number (octets_of 4 (drop at row.now)) }
{
    u32::from_le_bytes(octets(rest(row, at)))
}

// The bytes that the first N words hold; past the end 0.
pub fn octets<const N: usize>(row: &[u64]) -> [u8; N]
    ensures { result ≡ octets_of N row.now }
{
    array::from_fn(|i| octet(row, i))
}

// The same over a lent row, as long as that is.
pub fn read_octets(row: &[u64], out: &mut [u8])
    ensures { out.new ≡ octets_of (length out.old) row.now }
{
    for (i, b) in out.iter_mut().enumerate() {
        *b = octet(row, i);
    }
}
