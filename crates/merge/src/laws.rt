// The laws of runs side by side and of walks over a run, each a function whose contract is the law.
ghost use Rattle.merge.specs.Choice.{ChoiceMerges};
ghost use Rattle.merge.specs.Stream.{Holds, WalkKeeps, WalkShows, WalkNewest};

// Two runs read by the choice between their heads are the two merged.
pub fn choice_merges()
    ensures { ChoiceMerges }
{}

// A walk holds a key as far as 255 bytes go.
pub fn key_held()
    ensures { Holds }
{}

// A walk that keeps leaves what may not be forgotten.
pub fn walk_keeps()
    ensures { WalkKeeps }
{}

// A walk that shows gives all that is seen.
pub fn walk_shows()
    ensures { WalkShows }
{}

// A walk for the newest gives the latest of each key.
pub fn walk_newest()
    ensures { WalkNewest }
{}
