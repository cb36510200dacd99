// The store that keeps on pages what was flushed, at a keyboard.
#![tactic(auto)]

use events::OnPages;
use std::process::ExitCode;

fn main(rt: HostRuntime) -> ExitCode {
    console::run::<OnPages, _>(&rt, |options, word| options.with(word))
}
