// What a turn of a merge leaves: the control state, and what it wants done. Where it wants nothing, the next round follows at once.
use crate::control::Control;

#[derive(Clone, Copy)]
pub enum Deed {
    // Read this page.
    Fetch(u64),
    // Put the page of data, with so many bytes, to this page.
    Data(u64, u64),
    // The same with the page of positions.
    Positions(u64, u64),
    Settle,
}

#[derive(Clone, Copy)]
pub struct Turn {
    pub control: Control,
    pub deed: Option<Deed>,
}
