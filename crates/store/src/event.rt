// What a step is told: the event that goes by a number, with its rows.
ghost use Rattle.std.specs.Prelude.{◌≡◌, true, false, MatchOption};
ghost use Rattle.store.specs.Event.{Meant, event_fits, event_of};

// An event.
#[derive(Clone, Copy)]
pub enum Event<'a> {
    // Power is there, and so many pages are.
    On(u64),
    // A key, a moment and a value.
    Write(&'a [u8], u64, &'a [u8]),
    Erase(&'a [u8], u64),
    Get(&'a [u8], u64),
    // From a key on, up to another, as it was seen at a moment.
    Range(&'a [u8], Option<&'a [u8]>, u64),
    First(u64),
    Last(u64),
    Count(u64),
    Flush,
    Compact(u64),
    // A page that was asked for.
    Page(&'a [u8]),
    // The machine may go on.
    Next,
}

impl<'a> Event<'a> {
    // The event with a number, if its number is known and its rows are not too long.
    #[tactic(auto, using(crate::proofs::EventLaws::fits), unfolding(crate::specs::Event::event_of))]
    pub fn numbered(kind: u64, n: u64, one: &'a [u8], two: &'a [u8]) -> Option<Event<'a>>
        ensures { MatchOption result (false ≡ event_fits kind one.now two.now) (λ e. (true ≡ event_fits kind one.now two.now) × Meant e (event_of kind n one.now two.now)) }
    {
        if one.len() > 4096 || two.len() > 4096 {
            return None;
        }
        match kind {
            0 => Some(Event::On(n)),
            1 => Some(Event::Write(one, n, two)),
            2 => Some(Event::Erase(one, n)),
            3 => Some(Event::Get(one, n)),
            4 => Some(Event::Range(one, None, n)),
            5 => Some(Event::Range(one, Some(two), n)),
            6 => Some(Event::First(n)),
            7 => Some(Event::Last(n)),
            8 => Some(Event::Count(n)),
            9 => Some(Event::Flush),
            10 => Some(Event::Compact(n)),
            11 => Some(Event::Page(two)),
            12 => Some(Event::Next),
            _ => None,
        }
    }
}
