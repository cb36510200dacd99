// A version is handed over to the writer of a table: its bytes go to the hand, behind a bound where it begins a block, and the entry of the block that it ends
// to the page of positions.
ghost use Rattle.std.specs.Prelude.{◌≡◌, true, false, length, take, MatchOption};
ghost use Rattle.value.specs.Said.{said};
ghost use Rattle.value.specs.Encoding.{in_limits};
ghost use Rattle.table.specs.Layout.{entry};
ghost use Rattle.flushing_store.specs.Give.{bound_after, brought, ended_block, in_hand, given_writer, given_memory};

use crate::control::{DATA, ENTRIES, HAND, MEMORY, RING, STAGE};
use crate::octets::put_octets;
use crate::stage::stage;
use memtable::moment_at;
use store::{Bytes, read_key};
use table::{Open, Writer};
use value::{Version, encode};

const NO_BOUND: u64 = 0xffff_ffff_ffff_ffff;

// The bound of a block that begins with this key: the moment of the version that was handed over last, if it has the same key.
fn bound_for(memory: &[u64; MEMORY], blocks: u64, key: &[u8]) -> u64
    ensures { result ≡ bound_after blocks memory.now key.now }
{
    if blocks == 0 {
        return NO_BOUND;
    }
    let stage = &memory[STAGE..RING];
    if read_key(stage, 0).as_slice() == key {
        moment_at(stage, 0)
    } else {
        NO_BOUND
    }
}

// What a version brings. None where it is outside the limits. The flag stands beside the bound, since whoever hands over asks it again.
fn bring(begins: bool, bound: u64, version: Version<'_>) -> Option<Bytes<1302>>
    ensures { MatchOption result (in_limits (said version.entry) ≡ false) (λ b. (in_limits (said version.entry) ≡ true) × ((b.len ≡ length (brought begins bound (said version.entry))) × (take b.len b.row ≡ brought begins bound (said version.entry)))) }
{
    let mut row = [0; 1302];
    if begins {
        row[..8].copy_from_slice(&bound.to_le_bytes());
        let len = encode(version, &mut row[8..])?;
        return Some(Bytes { row, len: 8 + len });
    }
    let len = encode(version, &mut row)?;
    Some(Bytes { row, len })
}

// Where a block begins, and its length.
fn entry_of(block: Open) -> [u8; 8]
    ensures { result ≡ entry block.begin block.used }
{
    let b = block.begin.to_le_bytes();
    let n = block.used.to_le_bytes();
    [b[0], b[1], b[2], b[3], n[0], n[1], n[2], n[3]]
}

// The entry of the block being written, if there is one, goes to the page of positions.
pub fn end_block(memory: &mut [u64; MEMORY], writer: Writer)
    ensures { memory.new ≡ ended_block writer memory.old }
{
    if writer.block.count == 0 {
        return;
    }
    put_octets(
        &mut memory[ENTRIES..MEMORY],
        writer.positions.fill,
        &entry_of(writer.block),
    );
}

fn put_in_hand(memory: &mut [u64; MEMORY], bytes: &[u8])
    ensures { memory.new ≡ in_hand bytes.now memory.old }
{
    put_octets(&mut memory[HAND..DATA], 0, bytes);
}

// Hands a version over; none where it is outside the limits, and nothing is changed.
pub fn give(memory: &mut [u64; MEMORY], writer: Writer, version: Version<'_>) -> Option<Writer>
    ensures writer { result ≡ given_writer writer (said version.entry) }
    ensures memory { memory.new ≡ given_memory writer (said version.entry) memory.old }
{
    let size = 15u64
        .saturating_add(version.key.len() as u64)
        .saturating_add(version.value.len() as u64);
    let begins = writer.begins(size);
    let bound = bound_for(memory, writer.block.count, version.key);
    let bytes = bring(begins, bound, version)?;
    put_in_hand(memory, bytes.as_slice());
    if begins {
        end_block(memory, writer);
    }
    stage(
        memory,
        Version {
            value: &[],
            ..version
        },
    );
    Some(writer.give(size))
}
