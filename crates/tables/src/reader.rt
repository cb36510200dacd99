// Reads a table from its pages.
ghost use Rattle.std.specs.Prelude.{◌≡◌, ◌/◌, length};

use crate::version::Version;
use anyhow::anyhow;
use std::alloc::Global;
use std::iter;
use table::{Entry, Search, bound, find, first, head_key, is_ahead, next, payload, sound, span_at};
use value::{part_of, read_u32, version_of};

// As many bytes of a block tell its bound and the key of its first version: 8 + 15 + 255.
const HEAD: u64 = 278;

// A block has at most 94 versions: each takes 16 bytes at least.
const MOST_IN_BLOCK: usize = 94;

// The pages of data and of positions, each 512 bytes, and how many blocks there are.
#[derive(Drop)]
pub struct Table {
    pub data: Vec<u8>,
    pub positions: Vec<u8>,
    pub blocks: u64,
}

fn page_at(pages: &[u8], i: u64) -> &[u8] {
    part_of(pages, i.saturating_mul(512) as usize, 512)
}

// The bytes of a span of the stream on these pages, whose sums have to be right.
fn load(heap: Global, pages: &[u8], at: u64, len: u64) -> anyhow::Result<Vec<u8>> {
    let span = span_at(0, at, len);
    let mut skip = span.skip as usize;
    let mut bytes = Vec::new(heap);
    // By number: a page past the end is empty, and so not sound.
    for i in 0..span.pages {
        let page = page_at(pages, span.page.saturating_add(i));
        if !sound(page) {
            return Err(anyhow!("a page is not sound"));
        }
        let left = (len as usize).saturating_sub(bytes.len());
        bytes.extend_from_slice(part_of(payload(page), skip, left))?;
        skip = 0;
    }
    Ok(bytes)
}

impl Table {
    pub fn data_pages(&self) -> usize
        ensures { result ≡ length self.now.data.items / 512 }
    {
        self.data.len() / 512
    }

    pub fn position_pages(&self) -> usize
        ensures { result ≡ length self.now.positions.items / 512 }
    {
        self.positions.len() / 512
    }

    fn entry(&self, heap: Global, block: u64) -> anyhow::Result<Entry> {
        let bytes = load(heap, self.positions.as_slice(), block.saturating_mul(8), 8)?;
        Ok(Entry {
            begin: read_u32(bytes.as_slice(), 0) as u64,
            len: read_u32(bytes.as_slice(), 4) as u64,
        })
    }

    // The first bytes of a block, as many as asked for or as it has.
    fn front(&self, heap: Global, block: u64, most: u64) -> anyhow::Result<Vec<u8>> {
        let entry = self.entry(heap, block)?;
        load(heap, self.data.as_slice(), entry.begin, entry.len.min(most))
    }

    // The one block that decides, if there is one: the last that is ahead of what is asked.
    fn deciding(&self, heap: Global, key: &[u8], moment: u64) -> anyhow::Result<Option<u64>> {
        let mut search = Search {
            low: 0,
            high: self.blocks,
        };
        // Over what lies on pages, so it is left from inside, by its label.
        'looks: for _ in 0..64u32 {
            if search.low >= search.high {
                break 'looks;
            }
            let front = self.front(heap, search.middle(), HEAD)?;
            let head = front.as_slice();
            search = search.narrow(is_ahead(bound(head), head_key(head), key, moment));
        }
        Ok(search.low.checked_sub(1))
    }

    // The latest version of the key below the moment.
    pub fn read(&self, heap: Global, key: &[u8], moment: u64) -> anyhow::Result<Option<Version>> {
        let Some(i) = self.deciding(heap, key, moment)? else {
            return Ok(None);
        };
        let block = self.front(heap, i, u64::MAX)?;
        let Some(place) = find(block.as_slice(), key, moment) else {
            return Ok(None);
        };
        Ok(Some(Version::owned(heap, version_of(block.as_slice(), place))?))
    }

    // Puts the versions of a block behind others.
    fn walk_block(
        &self,
        heap: Global,
        block: u64,
        versions: &mut Vec<Version>,
    ) -> anyhow::Result<()> {
        let bytes = self.front(heap, block, u64::MAX)?;
        let block = bytes.as_slice();
        let places = iter::successors(first(block), |place| next(block, *place));
        for place in places.take(MOST_IN_BLOCK) {
            versions.push(Version::owned(heap, version_of(block, place))?)?;
        }
        Ok(())
    }

    // All versions, block by block.
    pub fn walk(&self, heap: Global) -> anyhow::Result<Vec<Version>> {
        let mut versions = Vec::new(heap);
        // Blocks by their numbers: each is read from pages, and reading may fail.
        for block in 0..self.blocks {
            self.walk_block(heap, block, &mut versions)?;
        }
        Ok(versions)
    }
}
