// Flushing: table and memory are merged into the free half, a page at a time; the new table is settled, the list that names it is put and settled, and memory is emptied.
ghost use Rattle.std.specs.Prelude.{◌≡◌, ◌≤◌, length};
ghost use Rattle.store.specs.Acts.{Does, Quiet};
ghost use Rattle.flushing_store.specs.Flush.{spun, performed, flushed_step, page_merged, merged_on, last_step, listed_step, committed_step};

use crate::control::{Base, Control, DATA, ENTRIES, HAND, LIST, MEMORY, Merging, Phase, RING};
use crate::look::extent_of;
use crate::put::{put_list, put_page};
use crate::round::{put_positions, round};
use crate::target::next_list;
use crate::turn::{Deed, Turn};
use crate::words::save;
use manifest::slot;
use memtable::empty;
use store::{ROW, Refusal, Told};
use table::{Cursor, Want, Writer};

// Rounds until something is to be done: at most 1,010 fill a page.
fn spin(memory: &mut [u64; MEMORY], control: Control) -> Turn
    ensures turn { result ≡ (spun 1024 control memory.old).turn }
    ensures memory { memory.new ≡ (spun 1024 control memory.old).memory }
{
    let mut turn = Turn {
        control,
        deed: None,
    };
    // A counted loop with an early end: a fold over the rounds would hide that memory is written in each.
    'rounds: for i in 0..1024usize {
        if turn.deed.is_some() {
            break 'rounds;
        }
        turn = round(memory, turn.control);
    }
    turn
}

// Does what a turn wants done.
fn perform(memory: &mut [u64; MEMORY], turn: Turn, out: &mut [u64; ROW]) -> Told
    ensures { Does (performed turn.control turn.deed memory.old) result out.old memory.new out.new }
{
    let told = match turn.deed {
        None => Told::No(Refusal::Unknown as u64),
        Some(Deed::Fetch(page)) => Told::Read(page),
        Some(Deed::Data(page, n)) => {
            put_page(&memory[DATA..ENTRIES], n, out);
            Told::Put(page)
        }
        Some(Deed::Positions(page, n)) => {
            put_page(&memory[ENTRIES..MEMORY], n, out);
            Told::Put(page)
        }
        Some(Deed::Settle) => Told::Settle,
    };
    save(memory, turn.control);
    told
}

// Goes on with the merge.
pub fn merge_on(memory: &mut [u64; MEMORY], control: Control, out: &mut [u64; ROW]) -> Told
    ensures { Does (merged_on control memory.old) result out.old memory.new out.new }
{
    let turn = spin(memory, control);
    perform(memory, turn, out)
}

pub fn flush(memory: &mut [u64; MEMORY], control: Control, out: &mut [u64; ROW]) -> Told
    ensures { Does (flushed_step control memory.old) result out.old memory.new out.new }
{
    if control.base.table.versions == 0 {
        return Told::Done;
    }
    let base = Base {
        phase: Phase::Merging,
        ..control.base
    };
    let merging = Merging {
        cursor: Cursor::new(),
        writer: Writer::new(),
        walked: 0,
        waiting: 0,
    };
    merge_on(
        memory,
        Control {
            base,
            merging,
            ..control
        },
        out,
    )
}

// A page of the table came.
fn take_table_page(memory: &mut [u64; MEMORY], control: Control, page: &[u8]) -> Control
    ensures state { result ≡ (page_merged control memory.old page.now).turn.control }
    ensures memory { memory.new ≡ (page_merged control memory.old page.now).memory }
{
    let cursor = control.merging.cursor;
    let cursor = match cursor.wants(extent_of(control.manifest), &memory[LIST..HAND]) {
        Want::Positions(_) => cursor.take_positions(page, &mut memory[LIST..HAND]),
        Want::Data(_) => cursor.take_data(page, &mut memory[RING..LIST]),
        Want::Head => cursor,
        Want::End => cursor,
    };
    let merging = Merging {
        cursor,
        ..control.merging
    };
    Control { merging, ..control }
}

// The same, and the merge goes on.
pub fn merge_page(
    memory: &mut [u64; MEMORY],
    control: Control,
    page: &[u8],
    out: &mut [u64; ROW],
) -> Told
    ensures { Does (merged_on (page_merged control memory.old page.now).turn.control (page_merged control memory.old page.now).memory) result out.old memory.new out.new }
{
    let control = take_table_page(memory, control, page);
    merge_on(memory, control, out)
}

// The last page of data was put: the last page of positions is.
#[tactic(auto, unfolding(crate::specs::Flush::last_step))]
pub fn put_last(memory: &mut [u64; MEMORY], control: Control, out: &mut [u64; ROW]) -> Told
    ensures { Does (last_step control memory.old) result out.old memory.new out.new }
{
    let base = Base {
        phase: Phase::Placed,
        ..control.base
    };
    perform(memory, put_positions(Control { base, ..control }), out)
}

// The new table is settled: the list that names it is put.
pub fn put_new_list(memory: &mut [u64; MEMORY], control: Control, out: &mut [u64; ROW]) -> Told
    ensures { Does (listed_step control memory.old) result out.old memory.new out.new }
{
    let list = next_list(control);
    put_list(list, out);
    let base = Base {
        phase: Phase::Listed,
        ..control.base
    };
    save(memory, Control { base, ..control });
    Told::Put(slot(list.commit))
}

// The new list is settled: it holds from now on, and nothing is in memory that is not safe.
#[tactic(auto, unfolding(store::specs::Acts::ActTold, crate::specs::Flush::committed_step))]
pub fn commit(memory: &mut [u64; MEMORY], control: Control) -> Told
    ensures { Quiet (committed_step control memory.old) result memory.new }
{
    let base = Base {
        phase: Phase::Idle,
        table: empty(),
        ..control.base
    };
    let manifest = next_list(control);
    save(
        memory,
        Control {
            base,
            manifest,
            ..control
        },
    );
    Told::Done
}
