// A merge of the table with what is in memory, a round at a time: a full page is put, bytes in hand go to the page, or the next version is handed over.
ghost use Rattle.std.specs.Prelude.{◌≡◌, length};
ghost use Rattle.flushing_store.specs.Round.{settled_turn, put_turn, data_turn, positions_turn, took_bytes, took_turn, closed_turn, head_turn, block_turn, next_turn, round as round_of};

use crate::control::{Base, Control, DATA, ENTRIES, HAND, LIST, MEMORY, Merging, Phase, RING};
use crate::give::end_block;
use crate::heads::{give_memory, give_table, memory_head, memory_leads};
use crate::look::extent_of;
use crate::octets::{page_octets, put_octets};
use crate::target::{data_of, start_of};
use crate::turn::{Deed, Turn};
use table::{Due, Want, Writer, block_into};
use value::{Place, part_of};

// So many pages wait at the most before all that wait are settled.
const MOST_WAITING: u64 = 254;

// Enough pages wait.
fn settle(control: Control) -> Turn
    ensures { result ≡ settled_turn control }
{
    let merging = Merging {
        waiting: 0,
        ..control.merging
    };
    Turn {
        control: Control { merging, ..control },
        deed: Some(Deed::Settle),
    }
}

// A page is put: one more waits.
fn put(control: Control, writer: Writer, deed: Deed) -> Turn
    ensures { result ≡ put_turn control writer deed }
{
    let merging = Merging {
        writer,
        waiting: control.merging.waiting.wrapping_add(1),
        ..control.merging
    };
    Turn {
        control: Control { merging, ..control },
        deed: Some(deed),
    }
}

// The page of data is put.
fn put_data(control: Control) -> Turn
    ensures { result ≡ data_turn control }
{
    let writer = control.merging.writer;
    let page = data_of(control).wrapping_add(writer.stream.put);
    put(
        control,
        writer.put_data(),
        Deed::Data(page, writer.stream.fill),
    )
}

// The page of positions is put.
pub fn put_positions(control: Control) -> Turn
    ensures { result ≡ positions_turn control }
{
    let writer = control.merging.writer;
    let page = start_of(control).wrapping_add(writer.positions.put);
    put(
        control,
        writer.put_positions(),
        Deed::Positions(page, writer.positions.fill),
    )
}

// Bytes in hand go to the page of data, at most 504.
fn move_bytes(memory: &mut [u64; MEMORY], taken: u64, fill: u64, n: u64)
    ensures { memory.new ≡ took_bytes taken fill n memory.old }
{
    let from = taken.min(1310) as usize;
    let bytes = page_octets(&memory[HAND + from..DATA], n);
    put_octets(&mut memory[DATA..ENTRIES], fill, bytes.as_slice());
}

fn take_bytes(memory: &mut [u64; MEMORY], control: Control, n: u64) -> Turn
    ensures turn { result ≡ took_turn control n }
    ensures memory { memory.new ≡ took_bytes control.merging.writer.hand.taken control.merging.writer.stream.fill n memory.old }
{
    let writer = control.merging.writer;
    move_bytes(memory, writer.hand.taken, writer.stream.fill, n);
    let merging = Merging {
        writer: writer.took(n),
        ..control.merging
    };
    Turn {
        control: Control { merging, ..control },
        deed: None,
    }
}

// All was handed over: the last block is closed, and the last page of data is put, or where that is empty the last page of positions.
#[tactic(auto, unfolding(crate::specs::Round::closed_turn))]
fn close(memory: &mut [u64; MEMORY], control: Control) -> Turn
    ensures turn { result ≡ (closed_turn control memory.old).turn }
    ensures memory { memory.new ≡ (closed_turn control memory.old).memory }
{
    let writer = control.merging.writer;
    end_block(memory, writer);
    let merging = Merging {
        writer: writer.close(),
        ..control.merging
    };
    if writer.stream.fill > 0 {
        let base = Base {
            phase: Phase::Closed,
            ..control.base
        };
        return put_data(Control {
            base,
            merging,
            ..control
        });
    }
    let base = Base {
        phase: Phase::Placed,
        ..control.base
    };
    put_positions(Control {
        base,
        merging,
        ..control
    })
}

// The next version of the two runs is handed over; where nothing is left, the table is closed.
fn hand_over(
    memory: &mut [u64; MEMORY],
    control: Control,
    block: &[u8],
    place: Option<Place>,
) -> Turn
    ensures turn { result ≡ (head_turn control memory.old block.now place).turn }
    ensures memory { memory.new ≡ (head_turn control memory.old block.now place).memory }
{
    match (memory_head(memory, control), place) {
        (None, None) => close(memory, control),
        (Some(at), None) => give_memory(memory, control, at),
        (None, Some(place)) => give_table(memory, control, block, place),
        (Some(at), Some(place)) => {
            if memory_leads(memory, at, block, place) {
                give_memory(memory, control, at)
            } else {
                give_table(memory, control, block, place)
            }
        }
    }
}

// The head of the table's run, which is there.
fn next_in_block(memory: &mut [u64; MEMORY], control: Control) -> Turn
    ensures turn { result ≡ (block_turn control memory.old).turn }
    ensures memory { memory.new ≡ (block_turn control memory.old).memory }
{
    let cursor = control.merging.cursor;
    let entry = cursor.entry(&memory[LIST..HAND]);
    let mut row = [0u8; 1512];
    let len = block_into(entry, &memory[RING..LIST], &mut row);
    // Filled and cut at once, in this one place: a `Bytes` of it would be written by its two fields.
    let block = part_of(&row, 0, len);
    hand_over(memory, control, block, cursor.head(block))
}

// The next version is due: it is handed over, or the page that tells the head of the table's run is read.
fn next_version(memory: &mut [u64; MEMORY], control: Control) -> Turn
    ensures turn { result ≡ (next_turn control memory.old).turn }
    ensures memory { memory.new ≡ (next_turn control memory.old).memory }
{
    let extent = extent_of(control.manifest);
    let fetched = match control.merging.cursor.wants(extent, &memory[LIST..HAND]) {
        Want::Positions(page) => page,
        Want::Data(page) => page,
        Want::Head => return next_in_block(memory, control),
        Want::End => return hand_over(memory, control, &[], None),
    };
    Turn {
        control,
        deed: Some(Deed::Fetch(fetched)),
    }
}

pub fn round(memory: &mut [u64; MEMORY], control: Control) -> Turn
    ensures turn { result ≡ (round_of control memory.old).turn }
    ensures memory { memory.new ≡ (round_of control memory.old).memory }
{
    if control.merging.waiting >= MOST_WAITING {
        return settle(control);
    }
    match control.merging.writer.due() {
        Due::Data => put_data(control),
        Due::Positions => put_positions(control),
        Due::Take(n) => take_bytes(memory, control, n),
        Due::Next => next_version(memory, control),
    }
}
