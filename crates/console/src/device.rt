// A file of pages. A page that is put waits in memory until all that wait are settled, or until power goes.
ghost use Rattle.std.specs.Prelude.{◌≡◌, [], IfOk, OnOk, is_some, nat_lt};
ghost use Rattle.console.specs.Waits.{with_page};

use crate::trouble::Trouble;
use orders::Part;
use spelling::pages_in;
use std::collections::BTreeMap;
use std::fs::{File, OpenOptions};
use std::io;
use std::io::{Read, Seek, SeekFrom, Write};
use std::path::Path;

pub const PAGE: usize = 512;

// What of a page is written at once, whatever happens.
const HALF: usize = 256;

#[derive(Drop)]
struct Waiting {
    at: u64,
    page: [u8; PAGE],
}

#[derive(Drop)]
pub struct Device {
    file: File,
    pub pages: u64,
    // All writes in their order: a stop cuts each of them, so that a map of pages would not do.
    queue: Vec<Waiting>,
    // Where in the queue the newest write of a page stands.
    newest: BTreeMap<u64, usize>,
}

// Makes what the folder says of a new file durable.
fn sync_folder(rt: &HostRuntime, path: &str) -> io::Result<()> {
    let Some(folder) = Path::new(path).parent() else {
        return Ok(());
    };
    let text = folder.as_str();
    let text = if text.is_empty() { "." } else { text };
    File::open(rt, text)?.sync_all()
}

fn lengthen(rt: &HostRuntime, path: &str, file: &File, pages: u64) -> Result<(), Trouble> {
    file.set_len(pages.saturating_mul(512))
        .map_err(Trouble::Write)?;
    file.sync_all().map_err(Trouble::Sync)?;
    sync_folder(rt, path).map_err(Trouble::Sync)
}

fn open_file(rt: &HostRuntime, path: &str) -> io::Result<File> {
    OpenOptions::new()
        .read(true)
        .write(true)
        .create(true)
        .open(rt, path)
}

// The file's length in bytes.
fn length_of(file: &File) -> Result<u64, Trouble> {
    let about = file.metadata().map_err(Trouble::Open)?;
    if about.is_file() {
        Ok(about.len())
    } else {
        Err(Trouble::NoFile)
    }
}

fn write_at(file: &mut File, place: u64, bytes: &[u8]) -> io::Result<()> {
    file.seek(SeekFrom::Start(place))?;
    file.write_all(bytes)
}

impl Waiting {
    // Writes a part of the page to its place.
    fn write(&self, file: &mut File, part: Part) -> Result<(), Trouble> {
        let bytes = match part {
            Part::Nothing => return Ok(()),
            Part::All => &self.page[..],
            Part::Half => &self.page[..HALF],
        };
        write_at(file, self.at.saturating_mul(512), bytes).map_err(Trouble::Write)
    }
}

impl Device {
    // Opens the file, or makes it with `pages` pages where there is none or it is empty.
    pub fn open(rt: &HostRuntime, path: &str, pages: u64) -> Result<Device, Trouble> {
        let file = open_file(rt, path).map_err(Trouble::Open)?;
        let mut len = length_of(&file)?;
        if len == 0 {
            lengthen(rt, path, &file, pages)?;
            len = length_of(&file)?;
        }
        let pages = pages_in(len).ok_or(Trouble::Size(len))?;
        let queue = Vec::new(rt.alloc());
        let newest = BTreeMap::new(rt.alloc());
        Ok(Device {
            file,
            pages,
            queue,
            newest,
        })
    }

    // The newest write of a page, if it waits.
    fn waiting(&self, at: u64) -> Option<&Waiting> {
        let place = self.newest.get(&at)?;
        self.queue.get(*place)
    }

    fn fetch(&mut self, at: u64) -> io::Result<[u8; PAGE]> {
        let mut page = [0u8; PAGE];
        self.file.seek(SeekFrom::Start(at.saturating_mul(512)))?;
        self.file.read_exact(&mut page)?;
        Ok(page)
    }

    // Reads a page as its newest write has it, if there is a page of that number.
    pub fn read(&mut self, at: u64) -> Result<Option<[u8; PAGE]>, Trouble>
        ensures { IfOk result (λ page. is_some page ≡ nat_lt at self.old.pages) }
    {
        if self.pages <= at {
            return Ok(None);
        }
        match self.waiting(at) {
            Some(waiting) => Ok(Some(waiting.page)),
            None => self.fetch(at).map(Some).map_err(Trouble::Read),
        }
    }

    // Lets a page wait, and says whether there is a page of that number: there is no value to give beside the answer.
    pub fn put(&mut self, at: u64, page: [u8; PAGE]) -> Result<bool, Trouble>
        ensures there { IfOk result (λ b. b ≡ nat_lt at self.old.pages) }
        ensures waits { IfOk result (λ b. self.new.queue.items ≡ with_page b at page self.old.queue.items) }
    {
        if at >= self.pages {
            return Ok(false);
        }
        self.newest.insert(at, self.queue.len())?;
        self.queue.push(Waiting { at, page })?;
        Ok(true)
    }

    // Nothing waits any more, and what was written is safe.
    fn sync(&mut self) -> Result<(), Trouble>
        ensures { self.new.queue.items ≡ [] }
    {
        self.queue.clear();
        self.newest.clear();
        self.file.sync_data().map_err(Trouble::Sync)
    }

    // Writes all that waits.
    pub fn settle(&mut self) -> Result<(), Trouble>
        ensures { OnOk result (self.new.queue.items ≡ []) }
    {
        for waiting in self.queue.iter() {
            waiting.write(&mut self.file, Part::All)?;
        }
        self.sync()
    }

    // Power goes: of each page that waits, in order, only a part is written; where none is said, nothing.
    pub fn stop(&mut self, left: &[Part]) -> Result<(), Trouble>
        ensures { OnOk result (self.new.queue.items ≡ []) }
    {
        for (waiting, part) in self.queue.iter().zip(left.iter()) {
            waiting.write(&mut self.file, *part)?;
        }
        self.sync()
    }
}
