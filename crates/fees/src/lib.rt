// The fee queries: what to pay for a wait, how long a fee will wait, and how long the pool has waited so far. They change nothing but the
// answer buffer.
#![tactic(auto)]

ghost use Rattle.std.specs.Prelude.{◌≡◌, ◌+◌, ◌-◌, ◌*◌, ◌≤◌, ◌<◌, ltb, length, replicate, count_by};
ghost use Rattle.std.specs.List.{range_with_len};
ghost use Rattle.words.specs.Sums.{quotient_of};
ghost use Rattle.pool_types.specs.Outcomes.{number_of};
ghost use Rattle.entries.specs.Layout.{entry_at};
ghost use Rattle.entries.specs.Views.{entries_in};
ghost use Rattle.fees.specs.Fees.{at_least, recommended_in, recommended, expected_in, expected_wait, bin, no_bin, bin_of, more, add_to, binned, histogram_of};
ghost use Rattle.fees.specs.Bins.{Bounds, bin_at, bins_of, Put, Laid, Drawn};

use entries::fields::entries_room;
use entries::views::Entries;
use pool_types::{Mempool, Refusal};
use stats::{FeeStats, fee_for_wait, wait_for_position};
use words::wide::Wide;

// Largest size of a transaction.
const MAX_TRANSACTION_SIZE: u32 = 98304;

// ---- a fee for a wait

fn at_least(least: u64, found: Option<u64>) -> u64
    ensures { result ≡ at_least least found }
{
    found.map_or(least, |fee| fee.max(least))
}

// The fee for a transaction of `size` bytes to be confirmed within `minutes`, at least `least`. It reads the bins that it needs.
#[tactic(auto, unfolding(pool_types::specs::Outcomes::number_of, crate::specs::Fees::recommended_in))]
pub fn recommended_in<'a>(
    counts: &'a [u64],
    totals: &'a [u64],
    least: u64,
    minutes: u32,
    size: u32,
) -> Result<u64, Refusal>
    requires { (60 ≤ length counts.now) × (60 ≤ length totals.now) }
    ensures { number_of result ≡ recommended_in counts.now totals.now least minutes size }
{
    if MAX_TRANSACTION_SIZE < size {
        return Err(Refusal::Size);
    }
    Ok(at_least(least, fee_for_wait(counts, totals, minutes, size)))
}

// The same of statistics and a state, for callers that hold them by value: through the C interface the bins are lent. It reads no clock.
#[tactic(auto, unfolding(pool_types::specs::Outcomes::number_of, crate::specs::Fees::recommended_in, crate::specs::Fees::recommended))]
pub fn recommended_fee(
    stats: FeeStats,
    mempool: Mempool,
    minutes: u32,
    size: u32,
) -> Result<u64, Refusal>
    ensures { number_of result ≡ recommended stats mempool minutes size }
{
    let least = mempool.config.min_fee;
    recommended_in(&stats.counts, &stats.totals, least, minutes, size)
}

// ---- a wait for a fee

// The weight that a fee gives a transaction of this size.
fn fee_per_kb(fee: u64, size: u32) -> u64
    ensures { result ≡ quotient_of (fee * 1024) size }
{
    Wide::product(fee, 1024).quotient(size as u64)
}

// Whether entry i is ahead of a weight. One as heavy is not.
fn is_ahead(entries: &Entries<'_>, i: usize, weight: u64) -> bool
    requires { i < entries.now.pooled }
    ensures { result ≡ ltb weight (entry_at entries.now.words.now i).weight }
{
    weight < entries.weight_at(i)
}

// How many entries are ahead of a weight.
fn position(entries: &Entries<'_>, weight: u64) -> u64
    ensures { result ≡ count_by (λ i. ltb weight (entry_at entries.now.words.now i).weight) (range_with_len 0 entries.now.pooled) }
{
    (0..entries.len())
        .filter(|i| is_ahead(entries, *i, weight))
        .count() as u64
}

// The wait in milliseconds that a transaction of `size` bytes paying `fee` can expect at `time` among so many pooled, where `taken` were confirmed since
// `window_start`.
#[tactic(auto, using(crate::proofs::Laws::above_places), unfolding(pool_types::specs::Outcomes::number_of, crate::specs::Fees::expected_in, entries::specs::Layout::EntriesOk, entries::specs::Layout::entries_room))]
pub fn expected_wait_in(
    entries: &[u64],
    pooled: usize,
    window_start: u64,
    taken: u64,
    time: u64,
    fee: u64,
    size: u32,
) -> Result<u64, Refusal>
    ensures { number_of result ≡ expected_in entries.now pooled window_start taken time fee size }
{
    if entries_room(entries) < pooled {
        return Err(Refusal::Lists);
    }
    if size == 0 || MAX_TRANSACTION_SIZE < size {
        return Err(Refusal::Size);
    }
    let place = position(&Entries::new(entries, pooled), fee_per_kb(fee, size));
    Ok(wait_for_position(window_start, taken, time, place))
}

// The same of statistics and a state, for callers that hold them by value.
#[tactic(auto, unfolding(crate::specs::Fees::expected_in, crate::specs::Fees::expected_wait))]
pub fn expected_wait_ms_at(
    entries: &[u64],
    stats: FeeStats,
    mempool: Mempool,
    time: u64,
    fee: u64,
    size: u32,
) -> Result<u64, Refusal>
    ensures { number_of result ≡ expected_wait entries.now stats mempool time fee size }
{
    expected_wait_in(
        entries,
        mempool.counts.pooled,
        stats.window_start,
        stats.taken,
        time,
        fee,
        size,
    )
}

// ---- the pool by the waits so far

// Writes bin i: two words.
fn put_bin(answer: &mut [u64], i: usize, count: u64, total: u64)
    requires { i * 2 + 2 ≤ length answer.old }
    ensures { Put answer.old answer.new i (bin count total) }
{
    answer[i * 2] = count;
    answer[i * 2 + 1] = total;
}

// Empties the first n bins: a bin is two words, so the count is no length of the slice.
fn clear_bins(answer: &mut [u64], n: usize)
    requires { n * 2 ≤ length answer.old }
    ensures { Laid answer.old answer.new n (replicate n no_bin) }
{
    answer[..n * 2].fill(0);
}

// The bin of a wait. Short of `longest` the quotient can still pass `bins`, where `longest` is no multiple of it.
fn bin_of(bins: u64, longest: u64, interval: u64, wait: u64) -> u64
    requires { Bounds bins longest interval }
    ensures { result ≡ bin_of bins longest wait }
{
    if longest <= wait {
        return bins;
    }
    (wait / interval).min(bins)
}

// Counts one more, of this base, in bin i.
#[tactic(auto, using(crate::proofs::Laws::count_word, crate::proofs::Laws::total_word))]
fn add_to(answer: &mut [u64], i: usize, base: u64)
    requires { i * 2 + 2 ≤ length answer.old }
    ensures { Put answer.old answer.new i (more (bin_at answer.old i) base) }
{
    let count = answer[i * 2].saturating_add(1);
    let total = answer[i * 2 + 1].saturating_add(base);
    put_bin(answer, i, count, total);
}

// Counts entry i in the bin of its wait.
#[tactic(auto, using(crate::proofs::Laws::entry_added))]
fn add_entry(
    entries: &Entries<'_>,
    answer: &mut [u64],
    i: usize,
    time: u64,
    bins: u32,
    longest: u64,
    interval: u64,
)
    requires i_in_bounds { i < entries.now.pooled }
    requires bins_in_bounds { (bins + 1) * 2 ≤ length answer.old }
    requires bounds { Bounds bins longest interval }
    ensures { Laid answer.old answer.new (bins + 1) (add_to (bins_of answer.old (bins + 1)) (bin_of bins longest (time - (entry_at entries.now.words.now i).created)) (entry_at entries.now.words.now i).base) }
{
    let since = entries.since_at(i);
    let wait = time.saturating_sub(since.created);
    let at = bin_of(bins as u64, longest, interval, wait);
    add_to(answer, at as usize, since.base);
}

// Counts the entries. The bins' interval is divided out once for all.
#[tactic(auto, using(crate::proofs::Laws::binned_none, crate::proofs::Laws::binned_more))]
fn add_entries(entries: &Entries<'_>, answer: &mut [u64], time: u64, bins: u32, longest: u64)
    requires bins_in_bounds { (bins + 1) * 2 ≤ length answer.old }
    requires bins_nonzero { (0 < bins) × (bins ≤ longest) }
    ensures { Laid answer.old answer.new (bins + 1) (binned bins longest time (entries_in entries.now) (bins_of answer.old (bins + 1))) }
{
    let interval = longest / bins as u64;
    for i in 0..entries.len() {
        add_entry(entries, answer, i, time, bins, longest, interval);
    }
}

// The pool binned by how long each transaction has waited at `time`: bins + 1 bins, the last for waits of `longest` milliseconds or more.
#[tactic(auto, using(crate::proofs::Laws::clear_none), unfolding(pool_types::specs::Outcomes::listed_of, crate::specs::Fees::histogram_of, entries::specs::Layout::EntriesOk, entries::specs::Layout::entries_room))]
pub fn pool_histogram_at(
    entries: &[u64],
    mempool: Mempool,
    answer: &mut [u64],
    time: u64,
    bins: u32,
    longest: u64,
) -> Result<usize, Refusal>
    ensures { Drawn answer.old answer.new result (histogram_of entries.now mempool (length answer.old) time bins longest) }
{
    if entries_room(entries) < mempool.counts.pooled {
        return Err(Refusal::Lists);
    }
    let n = bins as usize + 1;
    if answer.len() / 2 < n {
        return Err(Refusal::AnswerTooSmall);
    }
    if bins == 0 || longest < bins as u64 {
        return Err(Refusal::Bins);
    }
    clear_bins(answer, n);
    let entries = Entries::new(entries, mempool.counts.pooled);
    add_entries(&entries, answer, time, bins, longest);
    Ok(n)
}
