// Reads lines and does what they ask for, until the input ends or a line says quit.
use crate::answer;
use crate::called::Called;
use crate::device::Device;
use crate::session::Session;
use crate::trouble::Trouble;
use events::Machine;
use lines::{is_comment, split, without_newline};
use orders::{Order, parse};
use spelling::Options;
use std::fs::{File, OpenOptions};
use std::io;
use std::io::{BufRead, BufReader};
use std::ops::ControlFlow;
use std::process::ExitCode;

// Does what an order asks for, and says whether more is to come.
fn follow<M: Machine + Drop>(
    rt: &HostRuntime,
    session: &mut Session<M>,
    asked: Order<'_>,
) -> Result<ControlFlow<()>, Trouble> {
    match asked {
        Order::Pass => {}
        Order::Say(said) => session.say(rt, said)?,
        Order::Power => session.power(rt, &[])?,
        Order::PowerAfter(cut) => session.plan(cut),
        Order::Help => answer::show_help(rt)?,
        Order::Quit => return Ok(ControlFlow::Break(())),
    }
    Ok(ControlFlow::Continue(()))
}

// Reads a line as an order and follows it, and says whether more is to come.
fn take_line<M: Machine + Drop>(
    rt: &HostRuntime,
    session: &mut Session<M>,
    line: &[u8],
) -> Result<ControlFlow<()>, Trouble> {
    if is_comment(line) {
        return Ok(ControlFlow::Continue(()));
    }
    let words = match split(rt.alloc(), line) {
        Ok(words) => words,
        Err(flaw) => {
            answer::show_unreadable(rt, &flaw)?;
            return Ok(ControlFlow::Continue(()));
        }
    };
    match parse(rt.alloc(), words.as_slice()) {
        Ok(asked) => follow(rt, session, asked),
        Err(flaw) => {
            answer::show_unreadable(rt, &flaw)?;
            Ok(ControlFlow::Continue(()))
        }
    }
}

fn talk<M: Machine + Drop>(rt: &HostRuntime, session: &mut Session<M>) -> Result<(), Trouble> {
    let mut input = BufReader::new(rt.alloc(), rt.stdin())?;
    // One buffer for all lines: an iterator of lines makes one for each.
    let mut line = Vec::new(rt.alloc());
    for _ in 0..u64::MAX {
        line.clear();
        if input.read_until(b'\n', &mut line)? == 0 {
            break;
        }
        if take_line(rt, session, without_newline(line.as_slice()))?.is_break() {
            break;
        }
    }
    Ok(())
}

fn say_late(rt: &HostRuntime, late: u64) -> io::Result<()> {
    match late {
        0 => Ok(()),
        1 => eprintln!(rt; "1 version was not made safe"),
        _ => eprintln!(rt; "{late} versions were not made safe"),
    }
}

fn work<M: Machine + Drop, F: Fn(Options, &[u8]) -> Option<Options> + Drop>(
    rt: &HostRuntime,
    with: F,
) -> Result<(), Trouble>
    requires { F.IsAlwaysCallable with }
{
    let called = Called::from_args(rt, with)?;
    let device = Device::open(rt, called.path.as_str(), called.options.pages)?;
    let mut session = Session::<M>::open(rt, device, called.options.with_acts)?;
    talk(rt, &mut session)?;
    let _ = say_late(rt, session.late);
    Ok(())
}

fn null(rt: &HostRuntime) -> io::Result<File> {
    OpenOptions::new()
        .read(true)
        .write(true)
        .open(rt, "/dev/null")
}

// The whole program over a machine; `with` reads a word that it is called with.
pub fn run<M: Machine + Drop, F: Fn(Options, &[u8]) -> Option<Options> + Drop>(
    rt: &HostRuntime,
    with: F,
) -> ExitCode
    requires { F.IsAlwaysCallable with }
{
    // Where standard input, output or error is closed, a file that is opened takes its place: let that be none with pages.
    let _places = (null(rt), null(rt), null(rt));
    match work::<M, F>(rt, with) {
        Ok(()) => ExitCode::SUCCESS,
        Err(trouble) => {
            let _ = eprintln!(rt; "shell: {trouble}");
            ExitCode::FAILURE
        }
    }
}
