// Asks a table for all that is in it, and for what is not, and counts the answers.
use crate::cases::other_key;
use crate::reader::Table;
use crate::version::Version;
use std::alloc::Global;
use std::fmt;

const OTHERS: u32 = 100;

#[derive(Clone, Copy, Default)]
pub struct Tally {
    // How many versions were asked for.
    asked: usize,
    // How many versions came back in a walk over all blocks, each where it was.
    walked: usize,
    // How many versions came back when asked for as of their moment.
    found: u64,
    // How many of the keys that are not there came back.
    others: u64,
    // How many questions had another answer than they should have.
    wrong: u64,
}

impl fmt::Display for Tally {
    fn fmt<W: fmt::Write>(&self, f: &mut fmt::Formatter<W>) -> fmt::Result {
        let Tally {
            asked,
            walked,
            found,
            others,
            wrong,
        } = *self;
        write!(
            f,
            "{walked} in order, {found} of {asked} found, {others} of {OTHERS} others found"
        )?;
        if wrong > 0 {
            write!(f, ", {wrong} WRONG")?;
        }
        Ok(())
    }
}

fn count(n: u64, yes: bool) -> u64 {
    n.saturating_add(u64::from(yes))
}

// Asks as of the moment after the version, which has to give it, as of its own moment, which has to give the one of its key behind it, and for the newest of a key as of the last moment of all.
fn ask(
    heap: Global,
    table: &Table,
    before: Option<&Version>,
    version: &Version,
    behind: Option<&Version>,
    tally: Tally,
) -> anyhow::Result<Tally> {
    let older = behind.filter(|v| v.key == version.key);
    let is_newest = !before.is_some_and(|v| v.key == version.key);
    let key = version.key.as_slice();
    let after = version.moment.saturating_add(1);
    let found = table.read(heap, key, after)?.as_ref() == Some(version);
    let before = table.read(heap, key, version.moment)?.as_ref() == older;
    let newest = !is_newest || table.read(heap, key, u64::MAX)?.as_ref() == Some(version);
    Ok(Tally {
        found: count(tally.found, found),
        wrong: count(tally.wrong, !found || !before || !newest),
        ..tally
    })
}

fn ask_all(
    heap: Global,
    table: &Table,
    versions: &[Version],
    start: Tally,
) -> anyhow::Result<Tally> {
    let mut tally = start;
    let mut before = None;
    for (i, version) in versions.iter().enumerate() {
        tally = ask(heap, table, before, version, versions.get(i + 1), tally)?;
        before = Some(version);
    }
    Ok(tally)
}

fn count_others(heap: Global, table: &Table) -> anyhow::Result<u64> {
    let mut found = 0u64;
    // A key is made of each number, and each question may fail.
    for i in 0..OTHERS {
        let answer = table.read(heap, &other_key(i), u64::MAX)?;
        found = count(found, answer.is_some());
    }
    Ok(found)
}

fn count_walked(heap: Global, table: &Table, versions: &[Version]) -> anyhow::Result<usize> {
    let walked = table.walk(heap)?;
    Ok(
        walked
            .iter()
            .zip(versions)
            .filter(|(a, b)| *a == *b)
            .count(),
    )
}

// All answers about a table of these versions.
pub fn take_tally(heap: Global, table: &Table, versions: &[Version]) -> anyhow::Result<Tally> {
    let start = Tally {
        asked: versions.len(),
        walked: count_walked(heap, table, versions)?,
        others: count_others(heap, table)?,
        ..Tally::default()
    };
    ask_all(heap, table, versions, start)
}
