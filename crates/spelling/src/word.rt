// A word of a line.

// Its bytes as they were meant, and whether it stood in quotes.
#[derive(Drop)]
pub struct Word {
    pub bytes: Vec<u8>,
    pub quoted: bool,
}
