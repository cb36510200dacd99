// Writing a table a page at a time: versions are handed over one by one, in order, and the writer says when a page of data or of positions is full and has to be put.
ghost use Rattle.std.specs.Prelude.{◌≡◌};
ghost use Rattle.table.specs.Writing.{filled_by, after_put, begins, new_writer, due_of, took, put_data, put_positions, gave, closed};

// The block being written: where it begins in the stream, how many bytes it has, and how many blocks were begun.
#[derive(Clone, Copy)]
pub struct Open {
    pub begin: u64,
    pub used: u64,
    pub count: u64,
}

// Bytes in hand, and how many of them are on the page already.
#[derive(Clone, Copy)]
pub struct Hand {
    pub len: u64,
    pub taken: u64,
}

// A page being filled: its bytes, and how many pages were put before it.
#[derive(Clone, Copy)]
pub struct Filling {
    pub fill: u64,
    pub put: u64,
}

#[derive(Clone, Copy)]
pub struct Writer {
    pub block: Open,
    pub hand: Hand,
    pub stream: Filling,
    pub positions: Filling,
}

// What the writer waits for.
#[derive(Clone, Copy)]
pub enum Due {
    // The page of data is full.
    Data,
    // The page of positions is full.
    Positions,
    // So many bytes in hand go to the page of data.
    Take(u64),
    // The next version, or the end.
    Next,
}

impl Filling {
    // So many bytes more are on the page.
    fn with(self, n: u64) -> Filling
        ensures { result ≡ filled_by self n }
    {
        Filling {
            fill: self.fill.wrapping_add(n),
            ..self
        }
    }

    // The page was put: the next one is empty.
    fn next(self) -> Filling
        ensures { result ≡ after_put self }
    {
        Filling {
            fill: 0,
            put: self.put.wrapping_add(1),
        }
    }
}

impl Writer {
    pub fn new() -> Writer
        ensures { result ≡ new_writer }
    {
        let none = Filling { fill: 0, put: 0 };
        Writer {
            block: Open {
                begin: 0,
                used: 0,
                count: 0,
            },
            hand: Hand { len: 0, taken: 0 },
            stream: none,
            positions: none,
        }
    }

    pub fn due(self) -> Due
        ensures { result ≡ due_of self }
    {
        if self.stream.fill >= 504 {
            return Due::Data;
        }
        if self.positions.fill >= 504 {
            return Due::Positions;
        }
        if self.hand.taken < self.hand.len {
            return Due::Take((504 - self.stream.fill).min(self.hand.len - self.hand.taken));
        }
        Due::Next
    }

    // So many bytes in hand went to the page.
    pub fn took(self, n: u64) -> Writer
        ensures { result ≡ took self n }
    {
        let hand = Hand {
            taken: self.hand.taken.wrapping_add(n),
            ..self.hand
        };
        Writer {
            hand,
            stream: self.stream.with(n),
            ..self
        }
    }

    // The page of data was put.
    pub fn put_data(self) -> Writer
        ensures { result ≡ put_data self }
    {
        Writer {
            stream: self.stream.next(),
            ..self
        }
    }

    // The page of positions was put.
    pub fn put_positions(self) -> Writer
        ensures { result ≡ put_positions self }
    {
        Writer {
            positions: self.positions.next(),
            ..self
        }
    }

    // Whether a version of so many bytes begins a new block.
    pub fn begins(self, size: u64) -> bool
        ensures { result ≡ begins self size }
    {
        self.block.count == 0 || self.block.used.saturating_add(size) > 1512
    }

    // A version of so many bytes is handed over: it is in hand, behind a bound where it begins a block.
    pub fn give(self, size: u64) -> Writer
        ensures { result ≡ gave self size }
    {
        if !self.begins(size) {
            let block = Open {
                used: self.block.used.wrapping_add(size),
                ..self.block
            };
            return Writer {
                block,
                hand: Hand {
                    len: size,
                    taken: 0,
                },
                ..self
            };
        }
        let begin = if self.block.count == 0 {
            0
        } else {
            self.block.begin.wrapping_add(self.block.used)
        };
        let len = size.wrapping_add(8);
        Writer {
            block: Open {
                begin,
                used: len,
                count: self.block.count.wrapping_add(1),
            },
            hand: Hand { len, taken: 0 },
            ..self.close()
        }
    }

    // The block that was begun last is closed: its entry goes to the page of positions.
    pub fn close(self) -> Writer
        ensures { result ≡ closed self }
    {
        if self.block.count == 0 {
            return self;
        }
        Writer {
            positions: self.positions.with(8),
            ..self
        }
    }
}
