// The laws of versions, each a function whose contract is the law.
ghost use Rattle.value.specs.Answers.{NotMissed, TwiceOnce, RangeRight, LaterFirst, WriteSeen};
ghost use Rattle.value.specs.Upstream.{StreamsAgree, StreamsDiffer};
ghost use Rattle.value.specs.Sorted.{SortOrders, SortWeighs, LookupRight, MergeRight, PushRight, ForgetRight, VisibleRight};
ghost use Rattle.value.specs.Numbers.{NumberRoundTrips};
ghost use Rattle.value.specs.Encoding.{EncodingSound, ParseReadsEncode, ListsReadBack};

// What is forgotten is not missed, from the moment on.
pub fn not_missed()
    ensures { NotMissed }
{}

// Forgetting twice is forgetting once, by the later moment.
pub fn twice_once()
    ensures { TwiceOnce }
{}

// A range is what is seen of its keys, each once, in order.
pub fn range_right()
    ensures { RangeRight }
{}

// Of two runs of which one is later as a whole, the later decides.
pub fn later_first()
    ensures { LaterFirst }
{}

// A write is seen from the next moment on, and not before.
pub fn write_seen()
    ensures { WriteSeen }
{}

// The sorted view is in order: by key, and of one key the newest first.
pub fn sort_orders()
    ensures { SortOrders }
{}

// The sorted view weighs what the list weighs, and is as long.
pub fn sort_weighs()
    ensures { SortWeighs }
{}

// What is looked up in the sorted view is the latest.
pub fn lookup_is_latest()
    ensures { LookupRight }
{}

// Two sorted views merged, one later as a whole, are the sorted view of both.
pub fn merge_sorts()
    ensures { MergeRight }
{}

// A write goes in front of the versions of its key.
pub fn push_sorts()
    ensures { PushRight }
{}

// A walk over the sorted view forgets exactly what may be forgotten.
pub fn stream_forgets()
    ensures { ForgetRight }
{}

// A walk over the sorted view shows exactly what is seen, and a range of it.
pub fn stream_shows()
    ensures { VisibleRight }
{}

// Upstream's streams' cases, as far as the definitions agree with them.
pub fn streams_agree()
    ensures { StreamsAgree }
{}

// Upstream's streams' cases that the definitions answer otherwise on purpose.
pub fn streams_differ()
    ensures { StreamsDiffer }
{}

// A number that is written reads back, and bytes that are read write back.
pub fn numbers_read_back()
    ensures { NumberRoundTrips }
{}

// An encoding is made of bytes, 49 fewer than its version weighs.
pub fn encoding_sound()
    ensures { EncodingSound }
{}

// What was encoded is parsed, whatever stands before and behind it, and there the version lies.
pub fn parse_reads_encode()
    ensures { ParseReadsEncode }
{}

// Encoded lists read back, with zeros behind them or other bytes.
pub fn lists_read_back()
    ensures { ListsReadBack }
{}
