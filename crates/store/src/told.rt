// What the machine asks of the world, or how a command ended.
ghost use Rattle.std.specs.Prelude.{◌≡◌};
ghost use Rattle.store.specs.Refusals.{refusal_of};

#[derive(Clone, Copy)]
pub enum Told {
    Read(u64),
    Put(u64),
    Settle,
    // So many numbers.
    Tells(u64),
    Done,
    // Refused, with the number of a refusal.
    No(u64),
}

// Why the machine refuses, by the number that it tells.
#[derive(Clone, Copy, Debug, PartialEq, Eq)]
pub enum Refusal {
    // Memory or a row is not of the length that a step takes.
    Misfit = 0,
    // The command is not known yet, or what came was not asked for.
    Unknown = 2,
    // The moment is below the last write's, or the key was written at it.
    Moment = 3,
    // The moment is below the last that was compacted, or, to compact, above the last write's.
    Compacted = 4,
    // The key, the value or the moment is outside the limits.
    Limits = 6,
    // What is not safe would weigh too much.
    Unsafe = 7,
    // What has to be kept would weigh too much for the pages.
    Full = 8,
}

// A number that no refusal has.
#[derive(Clone, Copy, Debug, PartialEq, Eq)]
pub struct NoRefusal(pub u64);

impl TryFrom<u64> for Refusal {
    type Error = NoRefusal;

    ghost try_from_gives = { λ n r. r ≡ refusal_of n };

    fn try_from(n: u64) -> Result<Refusal, NoRefusal> {
        match n {
            0 => Ok(Refusal::Misfit),
            2 => Ok(Refusal::Unknown),
            3 => Ok(Refusal::Moment),
            4 => Ok(Refusal::Compacted),
            6 => Ok(Refusal::Limits),
            7 => Ok(Refusal::Unsafe),
            8 => Ok(Refusal::Full),
            _ => Err(NoRefusal(n)),
        }
    }
}
