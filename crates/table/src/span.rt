// A span of a stream: the pages that it lies on, and where it begins on the first of them.
ghost use Rattle.std.specs.Prelude.{◌≡◌};
ghost use Rattle.table.specs.Span.{spanned};

#[derive(Clone, Copy)]
pub struct Span {
    // Its first page.
    pub page: u64,
    // How many pages it lies on.
    pub pages: u64,
    // How many bytes of the first payload come before it.
    pub skip: u64,
    pub len: u64,
}

// The span of `len` bytes at `at` in the stream that begins at page `first`.
pub fn span_at(first: u64, at: u64, len: u64) -> Span
    ensures { result ≡ spanned first at len }
{
    let skip = at % 504;
    Span {
        page: first.wrapping_add(at / 504),
        pages: skip.saturating_add(len).saturating_add(503) / 504,
        skip,
        len,
    }
}
