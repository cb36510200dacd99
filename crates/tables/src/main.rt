// Writes whole tables onto pages in memory, reads them back, and prints a line a table, the same each time.
#![tactic(auto)]

mod builder;
mod cases;
mod reader;
mod tally;
mod version;

use builder::build;
use tally::take_tally;
use version::Version;

// How many pages a table of these versions takes at most.
fn most_pages(versions: &[Version]) -> u64 {
    let weight = versions
        .iter()
        .fold(0u64, |sum, version| sum.saturating_add(version.weight()));
    weight / 512 + 3
}

// Writes the table of these versions, asks it, and prints what came of it.
fn show(rt: &HostRuntime, name: &str, given: Vec<Version>) -> anyhow::Result<()> {
    let versions = given.as_slice();
    let n = versions.len();
    let most = most_pages(versions);
    let table = build(rt.alloc(), versions)?;
    let tally = take_tally(rt.alloc(), &table, versions)?;
    let blocks = table.blocks;
    let data = table.data_pages();
    let positions = table.position_pages();
    println!(rt;
        "{name}: {n} versions, {blocks} blocks, {data} + {positions} pages of at most {most}, {tally}"
    )?;
    Ok(())
}

fn work(rt: &HostRuntime) -> anyhow::Result<()> {
    let heap = rt.alloc();
    show(rt, "empty", cases::empty(heap))?;
    show(rt, "one version", cases::one(heap)?)?;
    show(rt, "the largest version", cases::largest(heap)?)?;
    show(rt, "one key", cases::one_key(heap)?)?;
    show(rt, "keys that begin each other", cases::beginnings(heap)?)?;
    show(
        rt,
        "keys that differ in the last byte",
        cases::last_bytes(heap)?,
    )?;
    show(rt, "many keys", cases::many(heap)?)?;
    Ok(())
}

fn main(rt: HostRuntime) -> anyhow::Result<()> {
    work(&rt)
}
