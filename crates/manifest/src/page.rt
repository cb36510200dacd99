// The list of tables on a page. specs/Manifest.antt has the layout.
ghost use Rattle.std.specs.Prelude.{◌≡◌, ◌+◌, ◌*◌, ◌<◌, ◌≤◌, length};
ghost use Rattle.value.specs.Numbers.{put_at, bytes_of};
ghost use Rattle.manifest.specs.Manifest.{word_at, words_from, pair_of, words_of, encoded, manifest_in};

use crate::fields::{Half, Layout, Manifest, Moments, Table, Weight};
use table::seal;
use value::read_u64;

const FORMAT: u64 = 1;

// Two numbers of four bytes make a word.
const HALF_WORD: u64 = 4294967296;

fn pair(low: u64, high: u64) -> u64
    ensures { result ≡ pair_of low high }
{
    low % HALF_WORD + high % HALF_WORD * HALF_WORD
}

// The number in the eight bytes of a word; past the end bytes count as 0.
pub fn word(page: &[u8], i: usize) -> u64
    requires { i < 64 }
    ensures { result ≡ word_at i page.now }
{
    read_u64(page, 8 * i)
}

// The words that say something; past the end they are 0.
fn words_in(page: &[u8]) -> [u64; 14]
    ensures { result ≡ words_from 0 14 page.now }
{
    let mut words = [0u64; 14];
    // Over what lies in a page, so it is left from inside, by its label; to leave it with a word lent by iter_mut would lose that word's value.
    'words: for i in 0..14usize {
        if 8 * i >= page.len() {
            break 'words;
        }
        words[i] = word(page, i);
    }
    words
}

// What a page says, whatever stands in it.
pub fn decode(page: &[u8]) -> Manifest
    ensures { result ≡ manifest_in page.now }
{
    let words = words_in(page);
    Manifest {
        commit: words[0],
        layout: Layout {
            pages: words[2],
            half: Half::from(words[3]),
            free: words[4],
        },
        moments: Moments {
            last: words[5],
            low: words[6],
        },
        weight: Weight {
            all: words[7],
            exact: words[8] == 1,
        },
        tables: words[9],
        table: Table {
            start: words[10] % HALF_WORD,
            data_at: words[10] / HALF_WORD,
            size: words[11] % HALF_WORD,
            blocks: words[11] / HALF_WORD,
            level: words[12],
            latest: words[13],
        },
    }
}

fn write_word(page: &mut [u8], i: usize, x: u64)
    requires { (i < 64) × (8 * i + 8 ≤ length page.old) }
    ensures { page.new ≡ put_at (8 * i) (bytes_of 8 x) page.old }
{
    page[8 * i..8 * i + 8].copy_from_slice(&x.to_le_bytes());
}

impl Manifest {
    // The 63 words of the page.
    fn words(self) -> [u64; 63]
        ensures { result ≡ words_of self }
    {
        let mut words = [0u64; 63];
        words[0] = self.commit;
        words[1] = FORMAT;
        words[2] = self.layout.pages;
        words[3] = u64::from(self.layout.half);
        words[4] = self.layout.free;
        words[5] = self.moments.last;
        words[6] = self.moments.low;
        words[7] = self.weight.all;
        words[8] = u64::from(self.weight.exact);
        words[9] = self.tables;
        words[10] = pair(self.table.start, self.table.data_at);
        words[11] = pair(self.table.size, self.table.blocks);
        words[12] = self.table.level;
        words[13] = self.table.latest;
        words[62] = self.commit;
        words
    }

    // Writes the list onto a page of 512 bytes; a row of any other length stays as it is.
    pub fn encode(self, page: &mut [u8])
        ensures { page.new ≡ encoded self page.old }
    {
        if page.len() != 512 {
            return;
        }
        let words = self.words();
        for (i, word) in words.iter().enumerate() {
            write_word(page, i, *word);
        }
        seal(page);
    }
}
