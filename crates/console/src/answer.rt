// What the program answers, on standard output.
use crate::trouble::Trouble;
use answers::{refusal, version_line};
use events::Acts;
use std::io::Write;
use std::{fmt, io};

pub fn show_version(rt: &HostRuntime, row: &[u64]) -> Result<(), Trouble> {
    let text = version_line(rt.alloc(), row)?;
    rt.stdout().write_all(text.as_slice())?;
    Ok(())
}

pub fn show_count(rt: &HostRuntime, row: &[u64]) -> io::Result<()> {
    match row {
        [n] => println!(rt; "{n}"),
        _ => Ok(()),
    }
}

pub fn show_refusal(rt: &HostRuntime, k: u64) -> io::Result<()> {
    let why = refusal(k);
    println!(rt; "refused {k}: {why}")
}

pub fn show_acts(rt: &HostRuntime, acts: Acts) -> io::Result<()> {
    let Acts { read, put, settle } = acts;
    println!(rt; "acts: read {read}, put {put}, settle {settle}")
}

const HELP: &str = "\
write KEY MOMENT VALUE   erase KEY MOMENT   get KEY MOMENT
range FROM TO MOMENT     TO is none for no end
first MOMENT   last MOMENT   count MOMENT   flush   compact MOMENT
power                    power goes now, and comes back
power after N [LEFT ..]  power goes after N acts of the next command; of each page that waits then is left 0 nothing, 1 all, 2 its first half
help   quit
A key or a value is a word, or stands in double quotes, with \\\" \\\\ \\n \\t and \\xNN. Lines that begin with # are passed over.";

pub fn show_help(rt: &HostRuntime) -> io::Result<()> {
    println!(rt; "{HELP}")
}

// A line is no command.
pub fn show_unreadable(rt: &HostRuntime, flaw: &impl fmt::Display) -> io::Result<()> {
    println!(rt; "unreadable: {flaw}")
}
