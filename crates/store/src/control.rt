// What the machine knows between steps, in the first words of its memory.
ghost use Rattle.std.specs.Prelude.{◌≡◌};
ghost use Rattle.store.specs.Control.{control_of, put_control};

use memtable::Memtable;

// How many numbers the machine's memory has.
pub const MEMORY: usize = 147520;

// How many numbers a step may tell, in a lent row.
pub const ROW: usize = 1280;

// What is under way between two events.
#[derive(Clone, Copy)]
pub enum Phase {
    // Nothing: a command may come.
    Idle = 0,
    // The row that a get shows was told.
    Shown = 1,
}

#[derive(Clone, Copy)]
pub struct Control {
    pub phase: Phase,
    pub pages: u64,
    // The moment of the last write.
    pub last: u64,
    pub table: Memtable,
}

impl From<u64> for Phase {
    ghost use Rattle.std.specs.Prelude.{◌≡◌};
    ghost use Rattle.store.specs.Control.{phase_of};

    ghost from_gives = { λ n phase. phase ≡ phase_of n };

    fn from(n: u64) -> Phase {
        match n {
            1 => Phase::Shown,
            _ => Phase::Idle,
        }
    }
}

impl From<Phase> for u64 {
    ghost use Rattle.std.specs.Prelude.{◌≡◌};
    ghost use Rattle.store.specs.Control.{phase_number};

    ghost from_gives = { λ phase n. n ≡ phase_number phase };

    fn from(phase: Phase) -> u64 {
        phase as u64
    }
}

#[tactic(auto, unfolding(crate::specs::Control::control_of))]
pub fn load(memory: &[u64; MEMORY]) -> Control
    ensures { result ≡ control_of memory.now }
{
    Control {
        phase: Phase::from(memory[0]),
        pages: memory[1],
        last: memory[2],
        table: Memtable {
            versions: memory[3],
            used: memory[4],
            weight: memory[5],
        },
    }
}

pub fn save(memory: &mut [u64; MEMORY], control: Control)
    ensures { memory.new ≡ put_control memory.old control }
{
    memory[0] = u64::from(control.phase);
    memory[1] = control.pages;
    memory[2] = control.last;
    memory[3] = control.table.versions;
    memory[4] = control.table.used;
    memory[5] = control.table.weight;
}
