// The machine that keeps in memory alone what is written.
ghost use Rattle.store.specs.Own.{own};
ghost use Rattle.events.specs.Events.{steps_of};

use events::Machine;
use store::Told;

#[derive(Drop)]
pub struct InMemory;

impl Machine for InMemory {
    ghost Steps = { steps_of own };

    const MEMORY: usize = store::MEMORY;

    fn step(
        memory: &mut [u64],
        kind: u64,
        n: u64,
        one: &[u8],
        two: &[u8],
        out: &mut [u64],
    ) -> Told {
        store::step(memory, kind, n, one, two, out)
    }
}
