// What the shell notes of a command: whether it shows versions or counts them, what it leaves unsafe, and how many acts it took.
ghost use Rattle.std.specs.Prelude.{◌≡◌};
ghost use Rattle.events.specs.Notes.{showing, counting, late_by, no_acts, acted};

use crate::event::Event;
use commands::Command;
use store::Told;

// How many pages a command read, put and settled.
#[derive(Clone, Copy)]
pub struct Acts {
    pub read: u64,
    pub put: u64,
    pub settle: u64,
}

// By hand, so that what a count starts from stands in the text, which an edit turns.
impl Default for Acts {
    ghost is_default = { λ a. a ≡ no_acts };

    fn default() -> Acts {
        Acts {
            read: 0,
            put: 0,
            settle: 0,
        }
    }
}

impl Acts {
    // With what the machine asks for next.
    pub fn with(self, told: Told) -> Acts
        ensures { result ≡ acted self told }
    {
        match told {
            Told::Read(_) => Acts {
                read: self.read.saturating_add(1),
                ..self
            },
            Told::Put(_) => Acts {
                put: self.put.saturating_add(1),
                ..self
            },
            Told::Settle => Acts {
                settle: self.settle.saturating_add(1),
                ..self
            },
            _ => self,
        }
    }
}

// Does a command show versions, so that it has to say when there is none?
pub fn shows(command: Command<'_>) -> bool
    ensures { result ≡ showing command.entry }
{
    matches!(
        command,
        Command::Get(..) | Command::Range(..) | Command::First(_) | Command::Last(_)
    )
}

// Is a row that is told one number?
pub fn counts(event: Event<'_>) -> bool
    ensures { result ≡ counting event.entry }
{
    matches!(event, Event::Say(Command::Count(_)))
}

// How many versions are not safe after a command that is done, if it was `late` before.
pub fn late_after(command: Command<'_>, late: u64) -> u64
    ensures { result ≡ late_by command.entry late }
{
    match command {
        Command::Write(..) | Command::Erase(..) => late.saturating_add(1),
        Command::Flush | Command::Compact(_) => 0,
        _ => late,
    }
}
