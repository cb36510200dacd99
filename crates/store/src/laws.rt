// The laws of the store, each a function whose contract is the law.
ghost use Rattle.store.specs.Promise.{SettledStays, StopTwice, NothingNew};
ghost use Rattle.store.specs.Account.{StepsSuffice};
ghost use Rattle.store.specs.Own.{OwnWhole};
ghost use Rattle.store.specs.Worked.{WorkedOut};

// What was settled stays, whatever a stop leaves of later writes to other pages.
pub fn settled_stays()
    ensures { SettledStays }
{}

// A stop twice leaves what a stop once does.
pub fn stop_twice()
    ensures { StopTwice }
{}

// Nothing is seen after a stop that was not there before it.
pub fn nothing_new()
    ensures { NothingNew }
{}

// Steps that are right make runs that are right, of any machine.
pub fn steps_suffice()
    ensures { StepsSuffice }
{}

// The worked example, line by line.
pub fn worked_out()
    ensures { WorkedOut }
{}

// The machine that `step` runs keeps the main promise, for all that is said and wherever power goes.
pub fn own_is_whole()
    ensures { OwnWhole }
{}
