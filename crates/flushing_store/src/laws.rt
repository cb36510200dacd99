// What the main promise says of this machine, as a function whose contract is the law.
ghost use Rattle.flushing_store.specs.Own.{OwnWhole};

// The machine that `step` runs keeps the main promise, for all that is said and wherever power goes.
pub fn own_is_whole()
    ensures { OwnWhole }
{}
