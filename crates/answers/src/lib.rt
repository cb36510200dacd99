// What the shell answers: the rows that the machine tells, as pages and as lines of text, and why it refused.
#![tactic(auto)]

mod line;
mod reason;
mod row;

pub use line::version_line;
pub use reason::refusal;
pub use row::{page_of, row_of};
