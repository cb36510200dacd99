// What can be said to the store, read from the words behind a command's name.
#![tactic(auto)]

mod command;

pub use command::{
    Command, compact, count, erase, first, flush, get, last, nothing_more, range, write,
};
