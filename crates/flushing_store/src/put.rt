// Pages that are put, in the lent row of numbers.
ghost use Rattle.std.specs.Prelude.{◌≡◌, ◌≤◌, min, ◌++◌, length, drop};
ghost use Rattle.table.specs.Row.{octets};
ghost use Rattle.table.specs.Stream.{sealed};
ghost use Rattle.manifest.specs.Manifest.{manifest_page};

use crate::octets::{page_octets, widen_into};
use manifest::Manifest;
use store::ROW;
use table::fill;

// A page's bytes at the front of the row.
fn tell_page(page: &[u8; 512], out: &mut [u64; ROW])
    ensures { out.new ≡ page.now ++ drop 512 out.old }
{
    widen_into(page, &mut out[..512]);
}

// The page with the first n bytes of a row of words, at most 504, and its sum.
pub fn put_page(row: &[u64], n: u64, out: &mut [u64; ROW])
    ensures { out.new ≡ sealed (octets (min n 504) row.now) ++ drop 512 out.old }
{
    let mut page = [0; 512];
    fill(page_octets(row, n).as_slice(), &mut page);
    tell_page(&page, out);
}

// The page of a list.
pub fn put_list(list: Manifest, out: &mut [u64; ROW])
    ensures { out.new ≡ manifest_page list ++ drop 512 out.old }
{
    let mut page = [0; 512];
    list.encode(&mut page);
    tell_page(&page, out);
}
