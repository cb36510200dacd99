// What ends the program before its time.
use std::alloc::AllocError;
use std::io;
use thiserror::Error;

#[derive(Debug, Drop, Error)]
pub enum Trouble {
    #[error("usage: shell FILE [PAGES] [--acts], with 64 to 1048576 pages")]
    Usage,
    #[error("there is not enough memory")]
    NoMemory(#[from(alloc)] AllocError),
    #[error("the file has {0} bytes, not 64 to 1048576 pages of 512")]
    Size(u64),
    #[error("that is no plain file")]
    NoFile,
    #[error("the file could not be opened: {0}")]
    Open(io::Error),
    #[error("the file could not be read: {0}")]
    Read(io::Error),
    #[error("the file could not be written: {0}")]
    Write(io::Error),
    #[error("the file could not be synced: {0}")]
    Sync(io::Error),
    // What is neither of the file nor of memory is of standard input or output.
    #[error("input or output failed: {0}")]
    Talk(#[from] io::Error),
    // The store asked for what there is not; its proofs rule that out.
    #[error("the store is at fault: {0}")]
    Fault(&'static str),
}
