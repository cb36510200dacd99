// Writes a table: keeps the bytes that the writer of crate `table` counts.
use crate::reader::Table;
use crate::version::Version;
use anyhow::anyhow;
use std::alloc::Global;
use table::{Due, Writer, fill};
use value::{encode, part_of};

// A version has at most 15 + 255 + 1,024 bytes.
const LONGEST: usize = 1294;

// More than is ever due: what a version brings goes to at most four pages of data, and its entry to one of positions.
const MOST_DUE: u32 = 16;

const NO_BOUND: u64 = 0xffff_ffff_ffff_ffff;

#[derive(Drop)]
pub struct Builder<'a> {
    writer: Writer,
    // What is in hand, on the page of data and on the page of positions.
    hand: Vec<u8>,
    page: Vec<u8>,
    entries: Vec<u8>,
    // The version before the next, if there was one.
    last: Option<&'a Version>,
    // The pages that were put.
    data: Vec<u8>,
    positions: Vec<u8>,
}

// Puts a page with these bytes behind the others, and leaves none of them.
fn put_page(pages: &mut Vec<u8>, bytes: &mut Vec<u8>) -> anyhow::Result<()> {
    let mut page = [0u8; 512];
    fill(bytes.as_slice(), &mut page);
    pages.extend_from_slice(&page)?;
    bytes.clear();
    Ok(())
}

impl<'a> Builder<'a> {
    pub fn new(heap: Global) -> Builder<'a> {
        Builder {
            writer: Writer::new(),
            hand: Vec::new(heap),
            page: Vec::new(heap),
            entries: Vec::new(heap),
            last: None,
            data: Vec::new(heap),
            positions: Vec::new(heap),
        }
    }

    // Hands over the next version, in the order of a table.
    pub fn give(&mut self, version: &'a Version) -> anyhow::Result<()> {
        let mut out = [0u8; LONGEST];
        let Some(size) = encode(version.said(), &mut out) else {
            return Err(anyhow!("a version is outside the limits"));
        };
        self.hand.clear();
        if self.writer.begins(size as u64) {
            self.end_block()?;
            let bound = self.bound_of(version);
            self.hand.extend_from_slice(&bound.to_le_bytes())?;
        }
        self.hand.extend_from_slice(part_of(&out, 0, size))?;
        self.writer = self.writer.give(size as u64);
        self.last = Some(version);
        self.work_off()
    }

    // The bound of a block that begins with this version.
    fn bound_of(&self, version: &Version) -> u64 {
        self.last
            .filter(|last| last.key == version.key)
            .map_or(NO_BOUND, |last| last.moment)
    }

    // The entry of the block being written, if there is one, goes to the page of positions.
    fn end_block(&mut self) -> anyhow::Result<()> {
        let block = self.writer.block;
        if block.count == 0 {
            return Ok(());
        }
        self.entries
            .extend_from_slice(&block.begin.to_le_bytes()[..4])?;
        self.entries
            .extend_from_slice(&block.used.to_le_bytes()[..4])?;
        Ok(())
    }

    // Does what is due, until that is the next version.
    fn work_off(&mut self) -> anyhow::Result<()> {
        // Rounds, of which no row is walked by.
        for _ in 0..MOST_DUE {
            match self.writer.due() {
                Due::Data => {
                    put_page(&mut self.data, &mut self.page)?;
                    self.writer = self.writer.put_data();
                }
                Due::Positions => {
                    put_page(&mut self.positions, &mut self.entries)?;
                    self.writer = self.writer.put_positions();
                }
                Due::Take(n) => self.take(n)?,
                Due::Next => return Ok(()),
            }
        }
        Err(anyhow!("the writer does not come to an end"))
    }

    // The next n bytes in hand go to the page of data.
    fn take(&mut self, n: u64) -> anyhow::Result<()> {
        let taken = self.writer.hand.taken as usize;
        let part = part_of(self.hand.as_slice(), taken, n as usize);
        self.page.extend_from_slice(part)?;
        self.writer = self.writer.took(n);
        Ok(())
    }

    // Ends the last block, and puts the last pages.
    pub fn close(mut self) -> anyhow::Result<Table> {
        self.end_block()?;
        let Builder {
            writer,
            mut page,
            mut entries,
            mut data,
            mut positions,
            ..
        } = self;
        if !page.is_empty() {
            put_page(&mut data, &mut page)?;
        }
        if !entries.is_empty() {
            put_page(&mut positions, &mut entries)?;
        }
        Ok(Table {
            data,
            positions,
            blocks: writer.close().block.count,
        })
    }
}

// The table of these versions, which stand in its order.
pub fn build(heap: Global, versions: &[Version]) -> anyhow::Result<Table> {
    let mut builder = Builder::new(heap);
    for version in versions {
        builder.give(version)?;
    }
    builder.close()
}
