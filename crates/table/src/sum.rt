// The checksum of a page, in its last eight bytes.
ghost use Rattle.std.specs.Prelude.{◌≡◌};
ghost use Rattle.table.specs.Sum.{page_sum, is_sound, sealed_page};

use value::read_u64;

const FACTOR: u64 = 6364136223846793005;

// The sum of the first 504 bytes; past the end bytes count as 0.
pub fn page_sum(page: &[u8]) -> u64
    ensures { result ≡ page_sum page.now }
{
    let mut h: u64 = 1;
    // A fold over the range would leave its answer to name the run of the iterator; the loop has a line of invariant.
    for i in 0..63usize {
        h = h.wrapping_mul(FACTOR).wrapping_add(read_u64(page, i * 8));
    }
    h
}

// Whether the page carries its sum.
pub fn sound(page: &[u8]) -> bool
    ensures { result ≡ is_sound page.now }
{
    read_u64(page, 504) == page_sum(page)
}

// Writes a page's sum into its last eight bytes; a shorter row stays as it is.
pub fn seal(page: &mut [u8])
    ensures { page.new ≡ sealed_page page.old }
{
    if page.len() >= 512 {
        let sum = page_sum(page);
        page[504..512].copy_from_slice(&sum.to_le_bytes());
    }
}
