// The store that keeps in memory alone what is written, at a keyboard.
#![tactic(auto)]

mod machine;

use machine::InMemory;
use std::process::ExitCode;

fn main(rt: HostRuntime) -> ExitCode {
    // A number of pages may have a plus before it.
    console::run::<InMemory, _>(&rt, |options, word| options.with_signed(word))
}
