// What stands behind the file's name where the program is called: [PAGES] [--acts].
ghost use Rattle.std.specs.Prelude.{◌≡◌};
ghost use Rattle.spelling.specs.Options.{usual, with_word, without_plus};

use crate::size::is_size;
use crate::spelling::number;

#[derive(Clone, Copy)]
pub struct Options {
    // How many pages a new file gets.
    pub pages: u64,
    pub with_acts: bool,
}

// Where nothing is said. By hand: a derive would give no pages.
impl Default for Options {
    ghost is_default = { λ o. o ≡ usual };

    fn default() -> Options {
        Options {
            pages: 8192,
            with_acts: false,
        }
    }
}

impl Options {
    // With one word more; none where it is neither --acts nor a number of pages.
    pub fn with(self, word: &[u8]) -> Option<Options>
        ensures { result ≡ with_word self word.now }
    {
        if word == b"--acts".as_slice() {
            return Some(Options {
                with_acts: true,
                ..self
            });
        }
        let pages = number(word).filter(|n| is_size(*n))?;
        Some(Options { pages, ..self })
    }

    // The same, where a number may have a plus before it.
    pub fn with_signed(self, word: &[u8]) -> Option<Options>
        ensures { result ≡ with_word self (without_plus word.now) }
    {
        match word {
            [b'+', b'0'..=b'9', ..] => self.with(&word[1..]),
            _ => self.with(word),
        }
    }
}
