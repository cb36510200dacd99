// What can be wrong with a line, so that it has no words.
ghost use Rattle.std.specs.Prelude.{◌≡◌, Some};
ghost use Rattle.lines.specs.Flaws.{reason_of};
ghost use Rattle.lines.specs.declared.flaw.Flaw.TheVariants.{NoMemory};

use std::alloc::{AllocError, AllocFailed};
use std::error::Error;
use std::fmt;

#[derive(Clone, Copy, Debug, PartialEq, Eq)]
pub enum Flaw {
    NoMemory,
    NotClosed,
    NoEscape,
    NoHexDigit,
    NoBlank,
}

impl Flaw {
    // What is wrong, in words.
    pub fn reason(self) -> &'static str
        ensures { result.now ≡ reason_of self }
    {
        match self {
            Flaw::NoMemory => "there is no memory for so long a line",
            Flaw::NotClosed => "a double quote is not closed",
            Flaw::NoEscape => "after \\ in quotes comes \", \\, n, t or xNN",
            Flaw::NoHexDigit => "after \\x come two hexadecimal digits",
            Flaw::NoBlank => "after a closing quote comes a blank",
        }
    }
}

impl fmt::Display for Flaw {
    ghost output = { λ flaw. Some (reason_of flaw) };

    fn fmt<W: fmt::Write>(&self, f: &mut fmt::Formatter<W>) -> fmt::Result {
        f.write_str(self.reason())
    }
}

impl Error for Flaw {}

impl From<AllocError> for Flaw {
    ghost from_gives = { λ _ r. r ≡ NoMemory };

    fn from(_: AllocError) -> Flaw {
        Flaw::NoMemory
    }
}

impl<T: Drop> From<AllocFailed<T>> for Flaw {
    ghost from_gives = { λ _ r. r ≡ NoMemory };

    fn from(_: AllocFailed<T>) -> Flaw {
        Flaw::NoMemory
    }
}
