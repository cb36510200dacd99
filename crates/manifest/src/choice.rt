// Which of the two lists holds at power-on: of two whole ones the later, else the one that is whole.
ghost use Rattle.std.specs.Prelude.{◌≡◌};
ghost use Rattle.manifest.specs.Manifest.{is_whole};
ghost use Rattle.manifest.specs.Commit.{found_in, later_of};

use crate::fields::Manifest;
use crate::page::{decode, word};

// What a page said, and whether it was whole. What a torn page said counts too, where none is whole, so it is no Option.
#[derive(Clone, Copy)]
pub struct Found {
    pub whole: bool,
    pub manifest: Manifest,
}

// Whether the commit number in the page's first half is the one in its second half. Of a page of which only the first half was written they differ.
pub fn is_whole(page: &[u8]) -> bool
    ensures { result ≡ is_whole page.now }
{
    word(page, 0) == word(page, 62)
}

// What a page says, whole or not.
pub fn read_list(page: &[u8]) -> Found
    ensures { result ≡ found_in page.now }
{
    Found {
        whole: is_whole(page),
        manifest: decode(page),
    }
}

// The list that holds, of what was found on pages 0 and 1.
pub fn later(first: Found, second: Found) -> Manifest
    ensures { result ≡ later_of first second }
{
    if !first.whole {
        return second.manifest;
    }
    if second.whole && first.manifest.commit < second.manifest.commit {
        return second.manifest;
    }
    first.manifest
}
