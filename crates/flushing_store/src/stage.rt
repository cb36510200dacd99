// The version that a command under way is about, kept in memory while pages are read for it.
ghost use Rattle.std.specs.Prelude.{◌≡◌};
ghost use Rattle.value.specs.Said.{said};
ghost use Rattle.flushing_store.specs.Stage.{staged};

use crate::control::{MEMORY, RING, STAGE};
use memtable::append;
use value::Version;

pub fn stage(memory: &mut [u64; MEMORY], version: Version<'_>)
    ensures { memory.new ≡ staged (said version.entry) memory.old }
{
    append(&mut memory[STAGE..RING], 0, version);
}
