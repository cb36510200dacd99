// Power is there: the two lists are read, and the one that holds is chosen. Nothing is put, so power may go again as often as it likes.
ghost use Rattle.std.specs.Prelude.{◌≡◌, length};
ghost use Rattle.store.specs.Acts.{Quiet};
ghost use Rattle.flushing_store.specs.Power.{first_phase, powered, first_listed, second_listed};

use crate::control::{Base, Control, MEMORY, Phase};
use crate::words::save;
use manifest::{Found, later, read_list};
use memtable::empty;
use store::Told;

#[tactic(auto, unfolding(store::specs::Acts::ActTold, crate::specs::Power::powered))]
pub fn power(memory: &mut [u64; MEMORY], control: Control, pages: u64) -> Told
    ensures { Quiet (powered control memory.old pages) result memory.new }
{
    let base = Base {
        phase: Phase::FirstList,
        pages,
        last: 0,
        table: empty(),
    };
    save(memory, Control { base, ..control });
    Told::Read(0)
}

fn first_phase(whole: bool) -> Phase
    ensures { result ≡ first_phase whole }
{
    if whole {
        Phase::AfterWhole
    } else {
        Phase::AfterTorn
    }
}

// Page 0 has come.
#[tactic(auto, unfolding(store::specs::Acts::ActTold, crate::specs::Power::first_listed))]
pub fn first_list(memory: &mut [u64; MEMORY], control: Control, page: &[u8]) -> Told
    ensures { Quiet (first_listed control memory.old page.now) result memory.new }
{
    let found = read_list(page);
    let base = Base {
        phase: first_phase(found.whole),
        ..control.base
    };
    save(
        memory,
        Control {
            base,
            manifest: found.manifest,
            ..control
        },
    );
    Told::Read(1)
}

// Page 1 has come; whether page 0 was whole is known.
#[tactic(auto, unfolding(store::specs::Acts::ActTold, crate::specs::Power::second_listed))]
pub fn second_list(memory: &mut [u64; MEMORY], control: Control, whole: bool, page: &[u8]) -> Told
    ensures { Quiet (second_listed control memory.old whole page.now) result memory.new }
{
    let first = Found {
        whole,
        manifest: control.manifest,
    };
    let manifest = later(first, read_list(page));
    let base = Base {
        phase: Phase::Idle,
        last: manifest.moments.last,
        ..control.base
    };
    save(
        memory,
        Control {
            base,
            manifest,
            ..control
        },
    );
    Told::Done
}
