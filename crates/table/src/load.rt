// Reading a span of a stream a page at a time: which page is wanted next, and where its payload goes.
ghost use Rattle.std.specs.Prelude.{◌≡◌};
ghost use Rattle.table.specs.Load.{wanted, placed_at, placed, took};

use crate::page::PAYLOAD;
use crate::span::Span;
use value::padded;

// A span being read, and how many of its pages have come.
#[derive(Clone, Copy)]
pub struct Load {
    pub span: Span,
    pub got: u64,
}

// A payload goes to its place in a row, of bytes or of words.
pub(crate) fn place<T: Copy>(got: u64, payload: &[T; PAYLOAD], row: &mut [T])
    ensures { row.new ≡ placed_at got payload.now row.old }
{
    if got >= 4 || row.len() < 4 * PAYLOAD {
        return;
    }
    let at = got as usize * PAYLOAD;
    row[at..at + PAYLOAD].copy_from_slice(payload);
}

impl Load {
    // The page that is wanted next; none where all have come.
    pub fn wants(self) -> Option<u64>
        ensures { result ≡ wanted self }
    {
        if self.got < self.span.pages {
            Some(self.span.page.wrapping_add(self.got))
        } else {
            None
        }
    }

    // A page has come: its payload goes behind those that came before it, as far as the row goes.
    pub fn take(self, page: &[u8], row: &mut [u8]) -> Load
        ensures state { result ≡ took self }
        ensures row { row.new ≡ placed self.got page.now row.old }
    {
        place(self.got, &padded(page), row);
        Load {
            got: self.got.wrapping_add(1),
            ..self
        }
    }
}
