// The list on a page and back, and which of two pages holds.
use crate::{Half, Layout, Manifest, Moments, Table, Weight, decode, is_whole, later, read_list};

fn list(commit: u64, half: Half, start: u64, exact: bool) -> Manifest {
    Manifest {
        commit,
        layout: Layout {
            pages: 64,
            half,
            free: 9,
        },
        moments: Moments { last: 7, low: 5 },
        weight: Weight { all: 4096, exact },
        tables: 1,
        table: Table {
            start,
            data_at: 4,
            size: 8,
            blocks: 2,
            level: 6,
            latest: 6,
        },
    }
}

// The page of this commit, of which only the first half was written over that of another.
fn torn(new: u64, old: u64) -> [u8; 512] {
    let mut over = [0u8; 512];
    list(new, Half::First, 3, true).encode(&mut over);
    let mut page = [0u8; 512];
    list(old, Half::First, 3, true).encode(&mut page);
    page[0..256].copy_from_slice(&over[0..256]);
    page
}

#[test]
fn reads_back(rt: HostRuntime) {
    for (commit, start, exact) in [
        (1u64, 3u64, true),
        (2, 33, false),
        (18446744073709551615, 4294967295, true),
    ] {
        let mut page = [255u8; 512];
        list(commit, Half::Second, start, exact).encode(&mut page);
        assert!(rt; is_whole(&page));
        let back = decode(&page);
        assert_eq!(rt; back.commit, commit);
        assert!(rt; back.weight.exact == exact);
        assert_eq!(rt; back.table.start, start);
        assert_eq!(rt; back.table.data_at, 4);
        assert_eq!(rt; back.table.latest, 6);
    }
}

#[test]
fn other_rows_stay(rt: HostRuntime) {
    let mut row = [7u8; 500];
    list(1, Half::First, 3, true).encode(&mut row);
    assert_eq!(rt; row[0], 7);
    assert_eq!(rt; decode(&row[0..4]).commit, 117901063);
}

// On each page a commit number, and the number that was there before; where they differ, the page is torn.
#[test]
fn holds(rt: HostRuntime) {
    for (first, below, second, beneath, held) in [
        (2u64, 2u64, 1u64, 1u64, 2u64),
        (2, 2, 3, 3, 3),
        (2, 2, 3, 1, 2),
        (4, 2, 3, 3, 3),
        (6, 4, 5, 5, 5),
        (6, 6, 7, 5, 6),
    ] {
        let found = later(
            read_list(&torn(first, below)),
            read_list(&torn(second, beneath)),
        );
        assert_eq!(rt; found.commit, held);
    }
    assert_eq!(rt;
        later(read_list(&[0u8; 512]), read_list(&torn(1, 0))).commit,
        0
    );
    assert_eq!(rt;
        later(read_list(&[0u8; 512]), read_list(&[0u8; 512])).tables,
        0
    );
}
