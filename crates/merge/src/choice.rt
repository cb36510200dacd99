// Two runs read side by side, one of them later as a whole: which gives the next version.
ghost use Rattle.std.specs.Prelude.{◌≡◌};
ghost use Rattle.merge.specs.Choice.{lent, chosen};

use value::order;

// The run that the next version comes from. The end is one of three equal cases of one choice, which every caller matches together; an Option would set it apart.
#[derive(Clone, Copy, Debug, PartialEq, Eq)]
pub enum Next {
    Later,
    Earlier,
    End,
}

// Which run goes on, by the key at its head, None at its end: the lesser key first, and of one key the later run.
pub fn choose(later: Option<&[u8]>, earlier: Option<&[u8]>) -> Next
    ensures { result ≡ chosen (lent (λ k. k.now) later.entry) (lent (λ k. k.now) earlier.entry) }
{
    match (later, earlier) {
        (None, None) => Next::End,
        (Some(one), Some(two)) if order(one, two).is_gt() => Next::Earlier,
        (Some(_), _) => Next::Later,
        (None, Some(_)) => Next::Earlier,
    }
}
