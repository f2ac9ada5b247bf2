// The statistics, read from words that the C side holds and stored back to them: the fields of FeeStats in their order. Only this file knows the
// layout.
ghost use Rattle.std.specs.Prelude.{◌≡◌, ◌+◌, ◌≤◌, length, take, drop};
ghost use Rattle.std.proofs.Math.Seq.{paste};
ghost use Rattle.host.specs.Statistics.{stats_of, Restored};

use stats::FeeStats;

pub const STATS_WORDS: usize = 124;

const BINS: usize = 60;

// A word for each minute, from `at` on.
fn load_bins(s: &[u64], at: usize) -> [u64; BINS]
    requires { at + 60 ≤ length s.now }
    ensures { result ≡ take 60 (drop at s.now) }
{
    // the state that goes by value has them as an array
    let mut bins = [0; BINS];
    bins.copy_from_slice(&s[at..at + BINS]);
    bins
}

pub fn load_stats(s: &[u64]) -> FeeStats
    requires { 124 ≤ length s.now }
    ensures { result ≡ stats_of s.now }
{
    let counts = load_bins(s, 0);
    let totals = load_bins(s, 60);
    FeeStats {
        counts,
        totals,
        window_start: s[120],
        taken: s[121],
        snap_time: s[122],
        snap_taken: s[123],
    }
}

// An array has its length by its type; what stores one field of a struct after the other wants it said.
fn store_bins(s: &mut [u64], at: usize, bins: [u64; BINS])
    requires { at + 60 ≤ length s.old }
    ensures s_after { s.new ≡ paste s.old at bins 60 }
    ensures bins_len { length bins ≡ 60 }
{
    for i in 0..BINS {
        s[at + i] = bins[i];
    }
}

pub fn store_stats(s: &mut [u64], stats: FeeStats)
    requires { 124 ≤ length s.old }
    ensures { Restored s.old s.new stats }
{
    let counts = stats.counts;
    store_bins(s, 0, counts);
    let totals = stats.totals;
    store_bins(s, 60, totals);
    s[120] = stats.window_start;
    s[121] = stats.taken;
    s[122] = stats.snap_time;
    s[123] = stats.snap_taken;
}
