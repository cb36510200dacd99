// What a list of tables says.
ghost use Rattle.std.specs.Prelude.{◌≡◌};
ghost use Rattle.manifest.specs.Manifest.{half_of, half_number};

// The pages behind the lists are two halves, of which one is in use.
#[derive(Clone, Copy, Debug, PartialEq, Eq)]
pub enum Half {
    First,
    Second,
}

// The half that a number in a page stands for: any number but 1 is the first.
impl From<u64> for Half {
    ghost from_gives = { λ n half. half ≡ half_of n };

    fn from(n: u64) -> Half {
        if n == 1 { Half::Second } else { Half::First }
    }
}

// The number that stands for a half in a page.
impl From<Half> for u64 {
    ghost from_gives = { λ half n. n ≡ half_number half };

    fn from(half: Half) -> u64 {
        match half {
            Half::First => 0,
            Half::Second => 1,
        }
    }
}

// The number of pages, the half in use, and its first free page, counted from its beginning.
#[derive(Clone, Copy)]
pub struct Layout {
    pub pages: u64,
    pub half: Half,
    pub free: u64,
}

// The last moment, and the moment below which nobody asks.
#[derive(Clone, Copy)]
pub struct Moments {
    pub last: u64,
    pub low: u64,
}

// The weight of all that lies in tables, and whether that is just what has to be kept.
#[derive(Clone, Copy)]
pub struct Weight {
    pub all: u64,
    pub exact: bool,
}

// A table: its first page, its first page of data, its size in pages, its blocks, its level and its latest moment.
#[derive(Clone, Copy)]
pub struct Table {
    pub start: u64,
    pub data_at: u64,
    pub size: u64,
    pub blocks: u64,
    pub level: u64,
    pub latest: u64,
}

// The list with this commit number. A page counts its tables, and this list has room for one: where there is none, all of it is 0.
#[derive(Clone, Copy)]
pub struct Manifest {
    pub commit: u64,
    pub layout: Layout,
    pub moments: Moments,
    pub weight: Weight,
    pub tables: u64,
    pub table: Table,
}
