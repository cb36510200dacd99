// Where tables and lists lie: pages 0 to 2 are for lists, and the pages behind them are two halves.
ghost use Rattle.std.specs.Prelude.{◌≡◌};
ghost use Rattle.manifest.specs.Places.{half_pages, half_start, other, slot_of};

use crate::fields::Half;

// The pages of each half.
pub fn half_pages(pages: u64) -> u64
    ensures { result ≡ half_pages pages }
{
    pages.saturating_sub(3) / 2
}

// The first page of a half.
pub fn half_start(pages: u64, half: Half) -> u64
    ensures { result ≡ half_start pages half }
{
    match half {
        Half::First => 3,
        Half::Second => 3 + half_pages(pages),
    }
}

// The half that is free while this one is in use.
pub fn other_half(half: Half) -> Half
    ensures { result ≡ other half }
{
    match half {
        Half::First => Half::Second,
        Half::Second => Half::First,
    }
}

// The page that the list with this commit number goes to.
pub fn slot(commit: u64) -> u64
    ensures { result ≡ slot_of commit }
{
    commit % 2
}
