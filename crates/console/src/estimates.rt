// The fee queries: `fee`, `wait` and `histogram`.
ghost use Rattle.std.specs.Prelude.{◌≤◌, length};
ghost use Rattle.pool_types.specs.Outcomes.{number_of};
ghost use Rattle.forms.specs.Nums.{Prints};
ghost use Rattle.fees.specs.Fees.{recommended, expected_wait, histogram_of};
ghost use Rattle.console.specs.Console.{w_fee, w_wait, number_text, histogram_text};

use crate::answer::refused_for;
use fees::{expected_wait_ms_at, pool_histogram_at, recommended_fee};
use pool_types::{Mempool, Refusal};
use replies::with_number;
use stats::FeeStats;

// `(fee N)` and the like.
#[tactic(auto, unfolding(crate::specs::Console::number_text, pool_types::specs::Outcomes::number_of))]
fn tell_number(out: &mut [u8], head: &[u8], outcome: Result<u64, Refusal>) -> usize
    requires { (length head.now ≤ 16) × (32768 ≤ length out.old) }
    ensures { Prints (number_text head.now (number_of outcome)) 0 out.old out.new result }
{
    match outcome {
        Ok(n) => with_number(out, head, n),
        Err(refusal) => refused_for(out, refusal),
    }
}

pub fn on_fee(stats: FeeStats, mempool: Mempool, minutes: u32, size: u32, out: &mut [u8]) -> usize
    requires { 32768 ≤ length out.old }
    ensures { Prints (number_text w_fee (recommended stats mempool minutes size)) 0 out.old out.new result }
{
    let fee = recommended_fee(stats, mempool, minutes, size);
    tell_number(out, b"(fee ", fee)
}

pub fn on_wait(
    entries: &[u64],
    stats: FeeStats,
    mempool: Mempool,
    time: u64,
    fee: u64,
    size: u32,
    out: &mut [u8],
) -> usize
    requires { 32768 ≤ length out.old }
    ensures { Prints (number_text w_wait (expected_wait entries.now stats mempool time fee size)) 0 out.old out.new result }
{
    let wait = expected_wait_ms_at(entries, stats, mempool, time, fee, size);
    tell_number(out, b"(wait ", wait)
}

pub fn on_histogram(
    entries: &[u64],
    mempool: Mempool,
    listing: &mut [u64],
    time: u64,
    bins: u32,
    longest: u64,
    out: &mut [u8],
) -> usize
    requires { (length listing.old ≤ 1024) × (32768 ≤ length out.old) }
    ensures { Prints (histogram_text (histogram_of entries.now mempool (length listing.old) time bins longest)) 0 out.old out.new result }
{
    let drawn = pool_histogram_at(entries, mempool, listing, time, bins, longest);
    match drawn {
        Ok(n) => replies::bins(out, &listing[..], n),
        Err(refusal) => refused_for(out, refusal),
    }
}
