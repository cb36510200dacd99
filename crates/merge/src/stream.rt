// A walk over a sorted run: what it knows of the versions behind it, and which of those ahead it shows or keeps.
ghost use Rattle.std.specs.Prelude.{◌≡◌, false, []};
ghost use Rattle.merge.specs.Stream.{held, last_key, has_passed, newest_at, shown_at, kept_at, passed_at};

use value::padded;

// What a walk carries: the key that it passed last, of a key over 255 bytes those 255 that it begins with, and whether one of that key below the
// moment passed. It is kept in memory that does not grow, so the key lies in a row of fixed length; its length is a byte, which never passes the row's.
#[derive(Clone, Copy)]
pub struct Passed {
    pub key: [u8; 255],
    pub len: u8,
    pub below: bool,
}

impl Passed {
    // A walk that begins: nothing passed.
    pub fn new() -> Passed
        ensures { result ≡ held [] false }
    {
        Passed::of(&[], false)
    }

    // A walk that passed this key last, and of it one below the moment or none.
    pub fn of(key: &[u8], below: bool) -> Passed
        ensures { result ≡ held key.now below }
    {
        Passed {
            key: padded(key),
            len: key.len().min(255) as u8,
            below,
        }
    }

    // The key that passed last, as far as it is held.
    pub fn last_key(&self) -> &[u8]
        ensures { result.now ≡ last_key self.now }
    {
        &self.key[..self.len as usize]
    }

    // Has one of this key below the moment passed?
    pub fn has(self, key: &[u8]) -> bool
        ensures { result ≡ has_passed self key.now }
    {
        self.below && self.last_key() == key
    }

    // The newest of its key below the moment, an erasure too: it is below, and none of its key passed.
    pub fn newest(self, at: u64, key: &[u8], moment: u64) -> bool
        ensures { result ≡ newest_at at self key.now moment }
    {
        moment < at && !self.has(key)
    }

    // What is seen at the moment: the newest of its key below it, unless it is gone.
    pub fn shows(self, at: u64, key: &[u8], moment: u64, gone: bool) -> bool
        ensures { result ≡ shown_at at self key.now moment gone }
    {
        !gone && self.newest(at, key, moment)
    }

    // What stays if nobody asks below the moment: all but what stands behind one of its key below it and, in the oldest run, what is gone below it.
    pub fn keeps(self, oldest: bool, at: u64, key: &[u8], moment: u64, gone: bool) -> bool
        ensures { result ≡ kept_at oldest at self key.now moment gone }
    {
        if moment >= at {
            return true;
        }
        if oldest && gone {
            return false;
        }
        !self.has(key)
    }

    // The walk when this version has passed too.
    pub fn after(self, at: u64, key: &[u8], moment: u64) -> Passed
        ensures { result ≡ passed_at at self key.now moment }
    {
        Passed::of(key, moment < at || self.has(key))
    }
}
