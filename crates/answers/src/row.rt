// The row of numbers that the machine lends: its first numbers as they are, or as the bytes of a page.
ghost use Rattle.std.specs.Prelude.{◌≡◌, slice_index};
ghost use Rattle.std.specs.Option.{option_map};
ghost use Rattle.answers.specs.Rows.{front, as_byte, PageSays};

const PAGE: usize = 512;

// The first numbers, if there are so many.
pub fn row_of(out: &[u64], len: u64) -> Option<&[u64]>
    ensures { option_map (λ x. x.now) result ≡ front out.now len }
{
    out.get(..usize::try_from(len).ok()?)
}

fn byte_at(out: &[u64], i: usize) -> Option<u8>
    ensures { result ≡ as_byte (slice_index out.now i) }
{
    out.get(i).map_or(Some(0), |n| u8::try_from(*n).ok())
}

// The first numbers as the bytes of a page, if each is one; past the end they count as 0.
pub fn page_of(out: &[u64]) -> Option<[u8; PAGE]>
    ensures { PageSays out.now result }
{
    let mut page = [0u8; PAGE];
    for (i, b) in page.iter_mut().enumerate() {
        *b = byte_at(out, i)?;
    }
    Some(page)
}
