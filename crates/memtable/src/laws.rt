// The laws of the memtable, each a function whose contract is the law.
ghost use Rattle.memtable.specs.Holds.{EmptyRight, InsertRight, RefusedSame, SizesSuffice, RoomRight, FindRight, WrittenRight, WalkRight, SeekRight, AppendKeeps, EnterKeeps, InsertKeeps};

// Without versions nothing is held, whatever the words are.
pub fn empty_holds_none()
    ensures { EmptyRight }
{}

// What is inserted is held, behind all that came.
pub fn insert_holds_more()
    ensures { InsertRight }
{}

// What is not accepted changes nothing, and what is not allowed is not accepted.
pub fn refused_same()
    ensures { RefusedSame }
{}

// What weighs at most 2^20 has at most 16,131 versions and takes at most 2^17 words.
pub fn sizes_suffice()
    ensures { SizesSuffice }
{}

// In 2^14 words of index and 2^17 of arena there is room for whatever does not pass that weight.
pub fn room_is_weight()
    ensures { RoomRight }
{}

// What is found is the latest version of the key below the moment.
pub fn find_is_latest()
    ensures { FindRight }
{}

// A key was written at a moment if one of the versions says so.
pub fn written_is_any()
    ensures { WrittenRight }
{}

// A walk over the index is a walk over the table of what came.
pub fn walk_is_sorted()
    ensures { WalkRight }
{}

// A walk may begin at any key and moment.
pub fn seek_parts()
    ensures { SeekRight }
{}

// On any words a write keeps how many there are, and that they have 64 bits.
pub fn append_keeps()
    ensures { AppendKeeps }
{}

pub fn enter_keeps()
    ensures { EnterKeeps }
{}

pub fn insert_keeps()
    ensures { InsertKeeps }
{}
