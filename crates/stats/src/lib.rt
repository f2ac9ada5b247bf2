// Statistics over the transactions that blocks confirmed: a histogram of waits by minute and a window of throughput.
#![tactic(auto)]

ghost use Rattle.std.specs.Prelude.{◌≡◌, ◌==◌, ◌+◌, ◌-◌, ◌≤◌, ◌<◌, ◌*◌, min, not, false, length, slice_index, find, IfSome};
ghost use Rattle.std.specs.List.{range_with_len};
ghost use Rattle.words.specs.Sums.{quotient_of};
ghost use Rattle.words.specs.Wide.{wide_of};
ghost use Rattle.stats.specs.Scan.{NoneIn, Skipped};
ghost use Rattle.stats.specs.Stats.{fresh, counted, binned, confirmed, bin_fee, fee_in, wait_in};

mod minutes;

use minutes::minute_bin;
use words::wide::Wide;

// Bins of the histogram: one for each whole minute, 0 to 59.
pub const HISTOGRAM_BINS: usize = 60;
// The window moves once more than this has passed since the snapshot, in milliseconds.
pub const MEASUREMENT_INTERVAL: u64 = 60000;

#[repr(C)]
#[derive(Clone, Copy)]
pub struct FeeStats {
    // Transactions confirmed after a wait of each minute, and the sums of their base weights: two arrays, as the C interface has these words.
    pub counts: [u64; HISTOGRAM_BINS],
    pub totals: [u64; HISTOGRAM_BINS],
    // `taken` transactions were confirmed since `window_start`.
    pub window_start: u64,
    pub taken: u64,
    // When the window last moved or could have, and `taken` at that moment.
    pub snap_time: u64,
    pub snap_taken: u64,
}

// A fee is for each 1,024 of base weight.
const FEE_UNIT: u64 = 1024;
// 2^64 divided by it.
const HIGH_UNITS: u64 = 1 << 54;

// A number of two words divided by 1024: its words are shifted, and nothing is divided.
fn by_1024(w: Wide) -> u64
    ensures { result ≡ quotient_of (wide_of w) 1024 }
{
    if FEE_UNIT <= w.high {
        return u64::MAX;
    }
    w.high * HIGH_UNITS + w.low / FEE_UNIT
}

// The mean base weight of a bin, for a transaction of a size.
fn bin_fee(total: u64, n: u64, size: u32) -> u64
    requires { 0 < n }
    ensures { result ≡ bin_fee total n size }
{
    by_1024(Wide::product(total / n, size))
}

// The last bin that a wait reaches.
fn last_bin(minutes: u32) -> usize
    ensures { result ≡ min minutes 59 }
{
    (minutes as usize).min(HISTOGRAM_BINS - 1)
}

// The time since `start`, at most the interval: 32 bits hold it.
fn elapsed(start: u64, time: u64) -> u32
    ensures { result ≡ min (time - start) 60000 }
{
    time.saturating_sub(start).min(MEASUREMENT_INTERVAL) as u32
}

impl FeeStats {
    pub fn new(time: u64) -> FeeStats
        ensures { result ≡ fresh time }
    {
        FeeStats {
            counts: [0; HISTOGRAM_BINS],
            totals: [0; HISTOGRAM_BINS],
            window_start: time,
            taken: 0,
            snap_time: time,
            snap_taken: 0,
        }
    }

    // One more taken; the window moves where the interval has passed.
    fn counted(mut self, time: u64) -> FeeStats
        ensures { result ≡ counted 60000 self time }
    {
        self.taken = self.taken.saturating_add(1);
        if time.saturating_sub(self.snap_time) > MEASUREMENT_INTERVAL {
            if self.snap_taken != 0 {
                self.taken = self.taken.saturating_sub(self.snap_taken);
                self.window_start = self.snap_time;
            }
            // The snapshot follows the subtraction.
            self.snap_taken = self.taken;
            self.snap_time = time;
        }
        self
    }

    // One more, with its base weight, in the bin of a minute; a longer wait is in none.
    fn binned(mut self, minute: usize, base: u64) -> FeeStats
        ensures { result ≡ binned self minute base }
    {
        if minute < HISTOGRAM_BINS {
            self.counts[minute] = self.counts[minute].saturating_add(1);
            self.totals[minute] = self.totals[minute].saturating_add(base);
        }
        self
    }

    // A transaction that entered the pool at `created` was confirmed at `time`.
    pub fn confirmed(self, time: u64, created: u64, base: u64) -> FeeStats
        ensures { result ≡ confirmed 60000 self time created base }
    {
        let minute = minute_bin(time.saturating_sub(created));
        self.counted(time).binned(minute, base)
    }
}

// Whether one of the bins 4k to 4k + 3 is not empty: a single test for the four.
fn one_is_full(counts: &[u64], k: usize) -> bool
    requires { k * 4 + 4 ≤ length counts.now }
    ensures { result ≡ false → NoneIn counts.now k }
{
    let bin = k * 4;
    (counts[bin] | counts[bin + 1] | counts[bin + 2] | counts[bin + 3]) != 0
}

// How many of the first bins, none past the last, are seen to be empty: four at a time, in some 60% of the time that one by one takes.
fn empty_bins(counts: &[u64], last: usize) -> usize
    requires { last < length counts.now }
    ensures { Skipped counts.now last result }
{
    let fours = (last + 1) / 4;
    (0..fours)
        .find(|k| one_is_full(counts, *k))
        .unwrap_or(fours)
        * 4
}

// The first nonempty bin, of those from one on up to the last one that is reached.
fn first_bin(counts: &[u64], from: usize, last: usize) -> Option<usize>
    requires { last < length counts.now }
    ensures first { result ≡ find (λ k. not (slice_index counts.now k == 0)) (range_with_len from (last + 1 - from)) }
    ensures full { IfSome result (λ k. (k ≤ last) × (0 < slice_index counts.now k)) }
{
    (from..last + 1).find(|bin| counts[*bin] != 0)
}

// The fee of the first nonempty bin that a wait of so many minutes reaches. Of statistics it reads counts and totals alone, wherever they stand.
pub fn fee_for_wait<'a>(
    counts: &'a [u64],
    totals: &'a [u64],
    minutes: u32,
    size: u32,
) -> Option<u64>
    requires { (60 ≤ length counts.now) × (60 ≤ length totals.now) }
    ensures { result ≡ fee_in counts.now totals.now minutes size }
{
    let last = last_bin(minutes);
    let bin = first_bin(counts, empty_bins(counts, last), last)?;
    Some(bin_fee(totals[bin], counts[bin], size))
}

// The time until `position` transactions are taken, at the rate of a window in which `taken` were; 0 while none was.
pub fn wait_for_position(window_start: u64, taken: u64, time: u64, position: u64) -> u64
    ensures { result ≡ wait_in 60000 window_start taken time position }
{
    Wide::product(position, elapsed(window_start, time)).quotient(taken)
}

// `confirmed` on statistics that are lent: they are changed in place.
pub fn record_confirmation(stats: &mut FeeStats, time: u64, created: u64, base: u64)
    ensures { stats.new ≡ confirmed 60000 stats.old time created base }
{
    *stats = stats.confirmed(time, created, base);
}
