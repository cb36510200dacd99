// What can be wrong with the words of a line, so that they are no command.
ghost use Rattle.std.specs.Prelude.{◌≡◌, Some};
ghost use Rattle.names.specs.Flaws.{reason_of};
ghost use Rattle.names.specs.declared.flaw.Flaw.TheVariants.{NoMemory};

use crate::name::Name;
use std::alloc::AllocFailed;
use std::error::Error;
use std::fmt;

#[derive(Clone, Copy, Debug, PartialEq, Eq)]
pub enum Flaw {
    NoMemory,
    NoSuchCommand,
    NoMoment,
    NoActs,
    NoPart,
    // The words behind this name are too few or too many.
    Form(Name),
}

impl Flaw {
    // What is wrong, in words.
    pub fn reason(self) -> &'static str
        ensures { result.now ≡ reason_of self }
    {
        match self {
            Flaw::NoMemory => "there is no memory for so long a line",
            Flaw::NoSuchCommand => "there is no such command; help lists them",
            Flaw::NoMoment => "a moment is a number from 0 to 18446744073709551615",
            Flaw::NoActs => "a number of acts is from 0 to 18446744073709551615",
            Flaw::NoPart => "what is left of a page is 0, 1 or 2",
            Flaw::Form(called) => called.form(),
        }
    }
}

impl fmt::Display for Flaw {
    ghost output = { λ flaw. Some (reason_of flaw) };

    fn fmt<W: fmt::Write>(&self, f: &mut fmt::Formatter<W>) -> fmt::Result {
        f.write_str(self.reason())
    }
}

impl Error for Flaw {}

impl<T: Drop> From<AllocFailed<T>> for Flaw {
    ghost from_gives = { λ _ r. r ≡ NoMemory };

    fn from(_: AllocFailed<T>) -> Flaw {
        Flaw::NoMemory
    }
}
