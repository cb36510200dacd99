// Upstream's cases of its two streams. A run is a row of letters, a version each: a small letter is a value of that key, a capital its erasure, and
// the moments of each key count down from 999. In what comes out a dot stands for a version that does not.
use crate::stream::Passed;
use std::process::Abort;

// Does this come out of a walk over a run, by this test of each version?
fn gives<F: Fn(Passed, u64, &[u8], u64, bool) -> bool>(
    comes: &F,
    at: u64,
    run: &[u8],
    out: &[u8],
) -> bool
    requires { F.IsAlwaysCallable comes.now }
{
    let mut passed = Passed::new();
    let mut last = 0;
    let mut moment: u64 = 999;
    for (b, o) in run.iter().zip(out) {
        let key = b.to_ascii_lowercase();
        moment = if key == last {
            moment.saturating_sub(1)
        } else {
            999
        };
        if comes(passed, at, &[key], moment, key != *b) != (b == o) {
            return false;
        }
        passed = passed.after(at, &[key], moment);
        last = key;
    }
    run.len() == out.len()
}

// Each of these walks gives this.
fn all_give<F: Fn(Passed, u64, &[u8], u64, bool) -> bool>(
    rt: &impl Abort,
    comes: &F,
    cases: &[(u64, &str, &str)],
)
    requires { F.IsAlwaysCallable comes.now }
{
    for (at, run, out) in cases {
        assert!(rt;
            gives(comes, *at, run.as_bytes(), out.as_bytes()),
            "{}",
            *run
        );
    }
}

#[test]
fn newest_of_each_key(rt: HostRuntime) {
    all_give(
        &rt,
        &|passed: Passed, at, key: &[u8], moment, _gone| passed.newest(at, key, moment),
        &[
            (1000, "aBbCcDdEe", "aB.C.D.E."), // mvcc_queue_reverse_almost_gone
            (1000, "aBCDE", "aBCDE"), // mvcc_queue_almost_gone_2
            (1000, "abcdEe", "abcdE."), // mvcc_queue
            (1000, "aa", "a."), // mvcc_stream_simple
            (1000, "aabbccc", "a.b.c.."), // mvcc_stream_simple_multi_keys
            (1000, "Aa", "A."), // mvcc_tombstone
            (1000, "AaBbCCc", "A.B.C.."), // mvcc_tombstone_multi_keys
        ],
    );
}

#[test]
fn shown_of_each_key(rt: HostRuntime) {
    all_give(
        &rt,
        &|passed: Passed, at, key: &[u8], moment, gone| passed.shows(at, key, moment, gone),
        &[
            (1000, "AaBbCCcd", ".......d"), // mvcc_tombstone_multi_keys, without what is gone
            (999, "AaBbCCcd", ".a.b...."), // and a moment earlier
        ],
    );
}

// Where upstream's answer is another, its answer stands behind the name: it drops the latest version below the moment, which a reading at that
// moment sees; it keeps an erasure that decides nothing any more, as the walk over a run does that an older one lies under; it sets moments to 0.
#[test]
fn kept_by_a_compaction(rt: HostRuntime) {
    all_give(
        &rt,
        &|passed: Passed, at, key: &[u8], moment, gone| passed.keeps(true, at, key, moment, gone),
        &[
            (0, "aa", "aa"), // compaction_stream_simple_no_gc
            (0, "aabbccc", "aabbccc"), // compaction_stream_no_gc_multi
            (999, "aa", "aa"), // compaction_stream_gc: a.
            (999, "aabbccc", "aabbcc."), // compaction_stream_gc_multi: a.b.c..
            (1000000, "aBbCcDdEe", "a........"), // compaction_stream_queue_tombstones: aB.C.D.E.
            (1000, "AAA", "..."), // compaction_stream_expired_callback_1: A..
            (1000, "ABC", "..."), // compaction_stream_evict_tombstones
            (1000000, "ABC", "..."), // compaction_stream_tombstone_no_gc: ABC
            (998, "AABBCC", "AABBCC"), // compaction_stream_old_tombstone
            (1000, "aaa", "a.."), // compaction_stream_seqno_zeroing_1: a.. at moment 0
        ],
    );
}

// The same over a run that an older one lies under.
#[test]
fn kept_over_an_older_run(rt: HostRuntime) {
    all_give(
        &rt,
        &|passed: Passed, at, key: &[u8], moment, gone| passed.keeps(false, at, key, moment, gone),
        &[
            (1000000, "aBbCcDdEe", "aB.C.D.E."), // compaction_stream_queue_tombstones
            (1000, "AAA", "A.."), // compaction_stream_expired_callback_1
            (1000000, "ABC", "ABC"), // compaction_stream_tombstone_no_gc
        ],
    );
}
