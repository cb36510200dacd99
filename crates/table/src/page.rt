// A page: 504 bytes of payload, and their checksum.
ghost use Rattle.std.specs.Prelude.{◌≡◌, take};
ghost use Rattle.table.specs.Stream.{filled};

use crate::sum::seal;
use value::{padded, part_of};

pub(crate) const PAYLOAD: usize = 504;

// A page's payload, a part of the lent page; of a shorter row all of it.
pub fn payload(page: &[u8]) -> &[u8]
    ensures { result.now ≡ take 504 page.now }
{
    part_of(page, 0, PAYLOAD)
}

// Fills a page of 512 bytes with a payload, zeros behind it, and the sum; a row of another length stays as it is.
pub fn fill(bytes: &[u8], page: &mut [u8])
    ensures { page.new ≡ filled bytes.now page.old }
{
    if page.len() != 512 {
        return;
    }
    page[..PAYLOAD].copy_from_slice(&padded::<PAYLOAD>(bytes));
    seal(page);
}
