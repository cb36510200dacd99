// The machine that keeps on pages what was flushed.
ghost use Rattle.flushing_store.specs.Own.{own};
ghost use Rattle.events.specs.Events.{steps_of};

use crate::machine::Machine;
use store::Told;

#[derive(Drop)]
pub struct OnPages;

impl Machine for OnPages {
    ghost Steps = { steps_of own };

    const MEMORY: usize = flushing_store::MEMORY;

    fn step(
        memory: &mut [u64],
        kind: u64,
        n: u64,
        one: &[u8],
        two: &[u8],
        out: &mut [u64],
    ) -> Told {
        flushing_store::step(memory, kind, n, one, two, out)
    }
}
