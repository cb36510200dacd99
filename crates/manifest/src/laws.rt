// The laws of the list of tables, each a function whose contract is the law.
ghost use Rattle.manifest.specs.Manifest.{PageReadsBack};
ghost use Rattle.manifest.specs.Places.{HalvesApart};
ghost use Rattle.manifest.specs.Commit.{ChoiceRight, StopKeepsList, TornTold, TornAgain, SettledIsNext, ListApart, BlankIsEmpty, FreeHalfApart};

// A list that fits reads back from its page, which is 512 bytes, whole and sealed.
pub fn page_reads_back()
    ensures { PageReadsBack }
{}

// The halves lie behind the lists, within the pages, and share no page.
pub fn halves_apart()
    ensures { HalvesApart }
{}

// Power-on finds the list that the pages hold.
pub fn choice_right()
    ensures { ChoiceRight }
{}

// A stop while the next list waits leaves the list before it, or that one.
pub fn stop_keeps_list()
    ensures { StopKeepsList }
{}

// A page of which only the first half was written does not count.
pub fn torn_told()
    ensures { TornTold }
{}

// Lists torn on the same page, one after the other, leave the list before them.
pub fn torn_again()
    ensures { TornAgain }
{}

// Once settled, the next list is the one that the pages hold.
pub fn settled_is_next()
    ensures { SettledIsNext }
{}

// A list that is put touches no page behind the two.
pub fn list_apart()
    ensures { ListApart }
{}

// Blank pages hold the empty list.
pub fn blank_is_empty()
    ensures { BlankIsEmpty }
{}

// What is put in the free half touches no list and no page of the half in use.
pub fn free_half_apart()
    ensures { FreeHalfApart }
{}
