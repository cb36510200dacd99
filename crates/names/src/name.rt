// The names of the commands.
ghost use Rattle.std.specs.Prelude.{◌≡◌};
ghost use Rattle.names.specs.Names.{name_of, form_of};

// The first word of a command.
#[derive(Clone, Copy, Debug, PartialEq, Eq)]
pub enum Name {
    Write,
    Erase,
    Get,
    Range,
    First,
    Last,
    Count,
    Flush,
    Compact,
    Power,
    Help,
    Quit,
}

impl Name {
    // What a line of this command is expected to be.
    pub fn form(self) -> &'static str
        ensures { result.now ≡ form_of self }
    {
        match self {
            Name::Write => "what is expected is: write KEY MOMENT VALUE",
            Name::Erase => "what is expected is: erase KEY MOMENT",
            Name::Get => "what is expected is: get KEY MOMENT",
            Name::Range => "what is expected is: range FROM TO MOMENT",
            Name::First => "what is expected is: first MOMENT",
            Name::Last => "what is expected is: last MOMENT",
            Name::Count => "what is expected is: count MOMENT",
            Name::Flush => "what is expected is: flush",
            Name::Compact => "what is expected is: compact MOMENT",
            Name::Power => "what is expected is: power, or power after N [LEFT ..]",
            Name::Help => "what is expected is: help",
            Name::Quit => "what is expected is: quit",
        }
    }
}

// The command that a word names.
pub fn name_of(bytes: &[u8]) -> Option<Name>
    ensures { result ≡ name_of bytes.now }
{
    match bytes {
        b"write" => Some(Name::Write),
        b"erase" => Some(Name::Erase),
        b"get" => Some(Name::Get),
        b"range" => Some(Name::Range),
        b"first" => Some(Name::First),
        b"last" => Some(Name::Last),
        b"count" => Some(Name::Count),
        b"flush" => Some(Name::Flush),
        b"compact" => Some(Name::Compact),
        b"power" => Some(Name::Power),
        b"help" => Some(Name::Help),
        b"quit" => Some(Name::Quit),
        _ => None,
    }
}
