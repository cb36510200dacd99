// How many pages a device may have.
ghost use Rattle.std.specs.Prelude.{◌≡◌};
ghost use Rattle.spelling.specs.Options.{fits_size, pages_of};

const FEWEST: u64 = 64;

const MOST: u64 = 1_048_576;

// May a device have so many pages?
pub fn is_size(pages: u64) -> bool
    ensures { result ≡ fits_size pages }
{
    (FEWEST..=MOST).contains(&pages)
}

// The number of pages in so many bytes, if a device may have it.
pub fn pages_in(bytes: u64) -> Option<u64>
    ensures { result ≡ pages_of bytes }
{
    if bytes % 512 == 0 && is_size(bytes / 512) {
        Some(bytes / 512)
    } else {
        None
    }
}
