// Measures the store's parts. `bench small` is what the gate runs: it prints only what is the same each time.
#![tactic(auto)]

mod fill;

use fill::Filled;
use std::env;
use std::time::{Duration, Instant};

// How many versions fill a memtable to its limit: keys of 16 bytes, values of 16 bytes, 96 of weight each.
const FULL: u64 = 10922;

const SMALL: u64 = 1000;

fn is_small(rt: &HostRuntime) -> anyhow::Result<bool> {
    let word = env::args(rt)?.nth(1);
    Ok(word.is_some_and(|w| w.as_str() == "small"))
}

// What came of this work, and how long it took.
fn timed<T: Drop, F: FnOnce() -> T>(rt: &HostRuntime, work: F) -> anyhow::Result<(T, Duration)>
    requires { F.pre work }
{
    let start = Instant::now(rt)?;
    let done = work();
    Ok((done, start.elapsed(rt)?))
}

fn print_rate(rt: &HostRuntime, what: &str, n: u64, time: Duration) -> anyhow::Result<()> {
    let rate = u128::from(n)
        .saturating_mul(1_000_000_000)
        .checked_div(time.as_nanos())
        .unwrap_or(0);
    println!(rt; "{what}: {rate} a second")?;
    Ok(())
}

fn work(rt: &HostRuntime) -> anyhow::Result<()> {
    let small = is_small(rt)?;
    let n = if small { SMALL } else { FULL };
    let mut memory = Filled::new(rt.alloc())?;
    let (_, filled) = timed(rt, || memory.fill(n))?;
    let (found, read) = timed(rt, || memory.find_all(n))?;
    let held = memory.versions();
    let weight = memory.weight();
    println!(rt; "memtable: {held} versions, weight {weight}, found {found}")?;
    if !small {
        print_rate(rt, "memtable inserts", n, filled)?;
        print_rate(rt, "memtable finds", n, read)?;
    }
    Ok(())
}

fn main(rt: HostRuntime) -> anyhow::Result<()> {
    work(&rt)
}
