// The machine's control state in the first 48 words of its memory.
ghost use Rattle.std.specs.Prelude.{◌≡◌, ℕ, ◌+◌, ◌≤◌, List, length};
ghost use Rattle.store.specs.Regions.{region, within};
ghost use Rattle.flushing_store.specs.Control.{base_from, manifest_from, lookup_from, merging_from, wraps, base_words, manifest_words, lookup_words, merging_words, control_of, put_control, to_phase};

use crate::control::{Base, Control, MEMORY, Merging, Phase};
use manifest::{Half, Layout, Manifest, Moments, Table, Weight};
use memtable::Memtable;
use table::{Cursor, Entry, Filling, Hand, Load, Lookup, Open, Search, Span, Stage, Writer};

// A part of the control state, as N words of memory.
trait Words<const N: usize>: Sized {
    ghost given: { List ℕ → Self };

    ghost words: { Self → List ℕ };

    fn from_words(row: [u64; N]) -> Self
        ensures { result ≡ given row.entry };

    fn into_words(self) -> [u64; N]
        ensures { result ≡ words self };
}

impl From<u64> for Phase {
    ghost use Rattle.std.specs.Prelude.{◌≡◌};
    ghost use Rattle.flushing_store.specs.Control.{phase_of};

    ghost from_gives = { λ n phase. phase ≡ phase_of n };

    fn from(n: u64) -> Phase {
        match n {
            1 => Phase::Shown,
            2 => Phase::FirstList,
            3 => Phase::AfterWhole,
            4 => Phase::AfterTorn,
            5 => Phase::Getting,
            6 => Phase::Writing,
            7 => Phase::Merging,
            8 => Phase::Closed,
            9 => Phase::Placed,
            10 => Phase::Settled,
            11 => Phase::Listed,
            12 => Phase::Committed,
            _ => Phase::Idle,
        }
    }
}

impl From<Phase> for u64 {
    ghost use Rattle.std.specs.Prelude.{◌≡◌};
    ghost use Rattle.flushing_store.specs.Control.{phase_number};

    ghost from_gives = { λ phase n. n ≡ phase_number phase };

    fn from(phase: Phase) -> u64 {
        phase as u64
    }
}

impl Words<6> for Base {
    ghost given = { base_from };

    ghost words = { base_words };

    fn from_words(row: [u64; 6]) -> Base
        ensures { result ≡ base_from row }
    {
        Base {
            phase: Phase::from(row[0]),
            pages: row[1],
            last: row[2],
            table: Memtable {
                versions: row[3],
                used: row[4],
                weight: row[5],
            },
        }
    }

    fn into_words(self) -> [u64; 6] {
        [
            u64::from(self.phase),
            self.pages,
            self.last,
            self.table.versions,
            self.table.used,
            self.table.weight,
        ]
    }
}

fn load_table(row: &[u64; 15]) -> Table
    ensures { result ≡ (manifest_from row.now).table }
{
    Table {
        start: row[9],
        data_at: row[10],
        size: row[11],
        blocks: row[12],
        level: row[13],
        latest: row[14],
    }
}

impl Words<15> for Manifest {
    ghost given = { manifest_from };

    ghost words = { manifest_words };

    fn from_words(row: [u64; 15]) -> Manifest
        ensures { result ≡ manifest_from row }
    {
        Manifest {
            commit: row[0],
            layout: Layout {
                pages: row[1],
                half: Half::from(row[2]),
                free: row[3],
            },
            moments: Moments {
                last: row[4],
                low: row[5],
            },
            weight: Weight {
                all: row[6],
                exact: row[7] == 1,
            },
            tables: row[8],
            table: load_table(&row),
        }
    }

    fn into_words(self) -> [u64; 15] {
        [
            self.commit,
            self.layout.pages,
            u64::from(self.layout.half),
            self.layout.free,
            self.moments.last,
            self.moments.low,
            self.weight.all,
            u64::from(self.weight.exact),
            self.tables,
            self.table.start,
            self.table.data_at,
            self.table.size,
            self.table.blocks,
            self.table.level,
            self.table.latest,
        ]
    }
}

impl Words<12> for Lookup {
    ghost given = { lookup_from };

    ghost words = { lookup_words };

    fn from_words(row: [u64; 12]) -> Lookup
        ensures { result ≡ lookup_from row }
    {
        Lookup {
            stage: Stage::from(row[0]),
            search: Search {
                low: row[1],
                high: row[2],
            },
            entry: Entry {
                begin: row[3],
                len: row[4],
            },
            ahead: Entry {
                begin: row[5],
                len: row[6],
            },
            load: Load {
                span: Span {
                    page: row[7],
                    pages: row[8],
                    skip: row[9],
                    len: row[10],
                },
                got: row[11],
            },
        }
    }

    fn into_words(self) -> [u64; 12] {
        [
            u64::from(self.stage),
            self.search.low,
            self.search.high,
            self.entry.begin,
            self.entry.len,
            self.ahead.begin,
            self.ahead.len,
            self.load.span.page,
            self.load.span.pages,
            self.load.span.skip,
            self.load.span.len,
            self.load.got,
        ]
    }
}

fn load_writer(row: &[u64; 15]) -> Writer
    ensures { result ≡ (merging_from row.now).writer }
{
    Writer {
        block: Open {
            begin: row[4],
            used: row[5],
            count: row[6],
        },
        hand: Hand {
            len: row[7],
            taken: row[8],
        },
        stream: Filling {
            fill: row[9],
            put: row[10],
        },
        positions: Filling {
            fill: row[11],
            put: row[12],
        },
    }
}

impl Words<15> for Merging {
    ghost given = { merging_from };

    ghost words = { merging_words };

    fn from_words(row: [u64; 15]) -> Merging
        ensures { result ≡ merging_from row }
    {
        Merging {
            cursor: Cursor {
                block: row[0],
                at: row[1],
                listed: row[2],
                read: row[3],
            },
            writer: load_writer(&row),
            walked: row[13],
            waiting: row[14],
        }
    }

    fn into_words(self) -> [u64; 15] {
        [
            self.cursor.block,
            self.cursor.at,
            self.cursor.listed,
            self.cursor.read,
            self.writer.block.begin,
            self.writer.block.used,
            self.writer.block.count,
            self.writer.hand.len,
            self.writer.hand.taken,
            self.writer.stream.fill,
            self.writer.stream.put,
            self.writer.positions.fill,
            self.writer.positions.put,
            self.walked,
            self.waiting,
        ]
    }
}

// The part of the control state that lies in N words at a place.
fn part<T: Words<N>, const N: usize>(memory: &[u64; MEMORY], at: usize) -> T
    requires { at + N ≤ 152520 }
    ensures { result ≡ T.given (region at N memory.now) }
{
    let mut row = [0; N];
    row.copy_from_slice(&memory[at..at + N]);
    T::from_words(row)
}

fn put_words(memory: &mut [u64; MEMORY], at: usize, words: &[u64])
    requires { at + length words.now ≤ 152520 }
    ensures { memory.new ≡ within at (length words.now) (λ x. wraps words.now) memory.old }
{
    memory[at..at + words.len()].copy_from_slice(words);
}

pub fn load(memory: &[u64; MEMORY]) -> Control
    ensures { result ≡ control_of memory.now }
{
    Control {
        base: part::<Base, 6>(memory, 0),
        manifest: part::<Manifest, 15>(memory, 6),
        lookup: part::<Lookup, 12>(memory, 21),
        merging: part::<Merging, 15>(memory, 33),
    }
}

pub fn save(memory: &mut [u64; MEMORY], control: Control)
    ensures { memory.new ≡ put_control memory.old control }
{
    put_words(memory, 0, &control.base.into_words());
    put_words(memory, 6, &control.manifest.into_words());
    put_words(memory, 21, &control.lookup.into_words());
    put_words(memory, 33, &control.merging.into_words());
}

// Another phase, and all else as it is in the control state.
pub fn turn_to(memory: &mut [u64; MEMORY], control: Control, phase: Phase)
    ensures { memory.new ≡ put_control memory.old (to_phase control phase) }
{
    let base = Base {
        phase,
        ..control.base
    };
    save(memory, Control { base, ..control });
}
