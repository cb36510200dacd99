// A store as a machine: it is lent its memory, is told an event by number, and answers with an act.
ghost use Rattle.std.specs.Prelude.{ℕ};
ghost use Rattle.events.specs.Events.{Stepping};

use store::Told;

pub trait Machine {
    // What a step of this machine does, by definition.
    ghost Steps: { Stepping };

    // How many words of memory it is lent.
    const MEMORY: usize;

    // Events go by number here, since the step of a machine takes them so.
    fn step(memory: &mut [u64], kind: u64, n: u64, one: &[u8], two: &[u8], out: &mut [u64]) -> Told
        ensures { Steps memory.old (kind, n, one.now, two.now) out.old result memory.new out.new };
}
