// Binary search over a table's blocks: which block to look at next, and what a look at it leaves.
ghost use Rattle.std.specs.Prelude.{◌≡◌, ◌≤◌, true};
ghost use Rattle.table.specs.Blocks.{ahead};
ghost use Rattle.table.specs.Search.{middle as middle_of, narrowed};

use std::cmp::Ordering;
use value::order;

// The blocks before `low` are ahead of what a reading wants, those from `high` on are not.
#[derive(Clone, Copy)]
pub struct Search {
    pub low: u64,
    pub high: u64,
}

// A key and a moment are two parameters here and below: each is used by itself at once, and a struct would be made at each call only to be taken apart.
// Whether what a reading of `key` at `moment` wants stands in the block with this bound and head, or behind it, if it is there.
pub fn is_ahead(bound: u64, head: &[u8], key: &[u8], moment: u64) -> bool
    ensures { result ≡ ahead key.now moment bound head.now }
{
    match order(head, key) {
        Ordering::Less => true,
        Ordering::Equal => moment <= bound,
        Ordering::Greater => false,
    }
}

impl Search {
    // The block to look at next.
    pub fn middle(self) -> u64
        ensures { result ≡ middle_of self.low self.high }
    {
        u64::midpoint(self.low, self.high)
    }

    // What is left to look at after that block was found ahead, or not.
    pub fn narrow(self, ahead: bool) -> Search
        ensures { result ≡ narrowed self ahead }
    {
        let middle = self.middle();
        if ahead {
            Search {
                low: middle.saturating_add(1).min(self.high),
                ..self
            }
        } else {
            Search {
                high: middle,
                ..self
            }
        }
    }
}
