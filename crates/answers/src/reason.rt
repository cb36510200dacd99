// Why the store refused, in words.
ghost use Rattle.std.specs.Prelude.{◌≡◌};
ghost use Rattle.answers.specs.Reasons.{reason_of, why};

use store::Refusal;

fn reason(refusal: Refusal) -> &'static str
    ensures { result.now ≡ reason_of refusal }
{
    match refusal {
        Refusal::Misfit => "a key or a value has more than 4,096 bytes",
        Refusal::Unknown => "not known yet",
        Refusal::Moment => "the moment is below the last write's, or the key was written at it",
        Refusal::Compacted =>
            "the moment is below the last that was compacted, or, to compact, above the last write's",
        Refusal::Limits =>
            "a key is empty or has more than 255 bytes, a value more than 1,024, or the moment is 2^63 or more",
        Refusal::Unsafe => "what is not safe would weigh more than 1,048,576: flush first",
        Refusal::Full =>
            "what has to be kept would weigh more than a quarter of the pages' bytes: compact first",
    }
}

// The reason that goes by a number.
pub fn refusal(k: u64) -> &'static str
    ensures { result.now ≡ why k }
{
    match Refusal::try_from(k) {
        Ok(refusal) => reason(refusal),
        Err(_) => "no reason is known",
    }
}
