// Where a merge puts the new table, and the list that names it.
ghost use Rattle.std.specs.Prelude.{◌≡◌};
ghost use Rattle.table.specs.Sizes.{position_pages};
ghost use Rattle.flushing_store.specs.Target.{new_weight, new_start, new_data, new_size, next_manifest};

use crate::control::Control;
use manifest::{Layout, Manifest, Moments, Table, Weight, half_start, other_half};

// The pages that are kept for the positions of a table of this weight.
fn pages_for(weight: u64) -> u64
    ensures { result ≡ position_pages weight }
{
    (8 * (weight / 800 + 1) + 503) / 504
}

// What table and memory weigh together.
fn weight_of(control: Control) -> u64
    ensures { result ≡ new_weight control }
{
    control
        .manifest
        .weight
        .all
        .wrapping_add(control.base.table.weight)
}

// The first page of positions.
pub fn start_of(control: Control) -> u64
    ensures { result ≡ new_start control }
{
    half_start(control.base.pages, other_half(control.manifest.layout.half))
}

// The first page of data.
pub fn data_of(control: Control) -> u64
    ensures { result ≡ new_data control }
{
    start_of(control).wrapping_add(pages_for(weight_of(control)))
}

// Its pages, those of data as they were put.
fn size_of(control: Control) -> u64
    ensures { result ≡ new_size control }
{
    pages_for(weight_of(control)).wrapping_add(control.merging.writer.stream.put)
}

#[tactic(auto, unfolding(crate::specs::Target::next_manifest))]
fn table_of(control: Control) -> Table
    ensures { result ≡ (next_manifest control).table }
{
    Table {
        start: start_of(control),
        data_at: data_of(control),
        size: size_of(control),
        blocks: control.merging.writer.block.count,
        level: 0,
        latest: control.base.last,
    }
}

// The list that names the new table.
#[tactic(auto, unfolding(crate::specs::Target::next_manifest))]
pub fn next_list(control: Control) -> Manifest
    ensures { result ≡ next_manifest control }
{
    Manifest {
        commit: control.manifest.commit.wrapping_add(1),
        layout: Layout {
            pages: control.base.pages,
            half: other_half(control.manifest.layout.half),
            free: size_of(control),
        },
        moments: Moments {
            last: control.base.last,
            low: control.manifest.moments.low,
        },
        weight: Weight {
            all: weight_of(control),
            exact: true,
        },
        tables: 1,
        table: table_of(control),
    }
}
