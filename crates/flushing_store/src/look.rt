// Looking in the table for a command, a page at a time.
ghost use Rattle.std.specs.Prelude.{◌≡◌, length};
ghost use Rattle.memtable.specs.Arena.{key_at};
ghost use Rattle.table.specs.Lookup.{with_page};
ghost use Rattle.store.specs.Acts.{Quiet};
ghost use Rattle.flushing_store.specs.Control.{stage_region};
ghost use Rattle.flushing_store.specs.Look.{extent_of as extent_in, looked, page_in, asked};

use crate::control::{Control, LIST, MEMORY, RING, STAGE};
use crate::words::save;
use manifest::Manifest;
use store::{Refusal, Told, read_key};
use table::{Extent, Load, Lookup, Stage, place_payload};
use value::Place;

// What the pages that came for a lookup say. Its three ends have names, where `ControlFlow<Option<Place>, Lookup>` would say `Break(None)` for the last.
#[derive(Clone, Copy)]
pub enum Looked {
    // More has to be read.
    On(Lookup),
    // The version lies here in the block that was read.
    Found(Place),
    Missing,
}

// Where the table lies.
pub fn extent_of(manifest: Manifest) -> Extent
    ensures { result ≡ extent_in manifest }
{
    Extent {
        start: manifest.table.start,
        data_at: manifest.table.data_at,
        blocks: manifest.table.blocks,
    }
}

#[tactic(auto, unfolding(crate::specs::Look::looked))]
fn look(lookup: Lookup, extent: Extent, row: &[u8], key: &[u8], moment: u64) -> Looked
    ensures { result ≡ looked lookup extent row.now key.now moment }
{
    match lookup.stage {
        Stage::Entry => Looked::On(lookup.enter(extent, row)),
        Stage::Head => match lookup.narrow(extent, row, key, moment) {
            Some(next) => Looked::On(next),
            None => Looked::Missing,
        },
        Stage::Block => match lookup.find(row, key, moment) {
            Some(place) => Looked::Found(place),
            None => Looked::Missing,
        },
    }
}

// The same for the key of the version that the command is about.
pub fn look_staged(
    memory: &[u64; MEMORY],
    lookup: Lookup,
    extent: Extent,
    row: &[u8],
    moment: u64,
) -> Looked
    ensures { result ≡ looked lookup extent row.now (key_at (stage_region memory.now) 0) moment }
{
    let key = read_key(&memory[STAGE..RING], 0);
    look(lookup, extent, row, key.as_slice(), moment)
}

// A page came: it goes to its place.
pub fn take_page(memory: &mut [u64; MEMORY], lookup: Lookup, page: &[u8]) -> Lookup
    ensures state { result ≡ with_page lookup }
    ensures row { memory.new ≡ page_in lookup page.now memory.old }
{
    place_payload(lookup.load.got, page, &mut memory[RING..LIST]);
    Lookup {
        load: Load {
            span: lookup.load.span,
            got: lookup.load.got.wrapping_add(1),
        },
        ..lookup
    }
}

// Asks for the page that a lookup wants next.
#[tactic(auto, unfolding(store::specs::Acts::ActTold, crate::specs::Look::asked))]
pub fn ask(memory: &mut [u64; MEMORY], control: Control, lookup: Lookup) -> Told
    ensures { Quiet (asked control memory.old lookup) result memory.new }
{
    let Some(page) = lookup.load.wants() else {
        return Told::No(Refusal::Unknown as u64);
    };
    save(memory, Control { lookup, ..control });
    Told::Read(page)
}
