// A word, and what it spells: a number, a name, or one of the options that the program is called with.
#![tactic(auto)]

mod options;
mod size;
mod spelling;
mod word;

pub use options::Options;
pub use size::{is_size, pages_in};
pub use spelling::{is_plain, numeral};
pub use word::Word;
