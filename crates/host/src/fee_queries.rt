// The fee queries, exported. They change nothing but the answer buffer. Of the statistics they read the words that they need, where they stand: the
// counts from word 0 on, the totals from word 60, the window's start and what was taken in it at 120 and 121.
ghost use Rattle.std.specs.Prelude.{◌≤◌, length};
ghost use Rattle.pool_types.specs.Outcomes.{number_of};
ghost use Rattle.fees.specs.Fees.{recommended, expected_wait};
ghost use Rattle.host.specs.State.{state_of};
ghost use Rattle.host.specs.Statistics.{stats_of};
ghost use Rattle.host.specs.Fees.{Figure, figured, Bars, bars_of};

use crate::codes::{list_code, refusal_code};
use crate::layout::{STATE_WORDS, load_config, load_state};
use crate::statistics::STATS_WORDS;
use fees::{expected_wait_in, pool_histogram_at, recommended_in};
use pool_types::Refusal;

// Writes a number to the first word of an answer buffer.
fn put_number(answer: &mut [u64], outcome: Result<u64, Refusal>) -> u64
    requires { 1 ≤ length answer.old }
    ensures { Figure answer.old answer.new result (number_of outcome) }
{
    match outcome {
        Ok(n) => {
            answer[0] = n;
            1
        }
        Err(refusal) => refusal_code(refusal),
    }
}

// The fee for a transaction of `size` bytes to be confirmed within `minutes`.
#[unsafe(no_mangle)]
pub extern "C" fn gunthyd_recommended_fee(
    state: &[u64],
    stats: &[u64],
    answer: &mut [u64],
    minutes: u32,
    size: u32,
) -> u64
    ensures { Figure answer.old answer.new result (figured stats.now state.now (length answer.old) (recommended (stats_of stats.now) (state_of state.now) minutes size)) }
{
    if state.len() < STATE_WORDS {
        return refusal_code(Refusal::Lists);
    }
    if stats.len() < STATS_WORDS {
        return refusal_code(Refusal::Lists);
    }
    if answer.len() < 1 {
        return refusal_code(Refusal::AnswerTooSmall);
    }
    let config = load_config(state);
    let least = config.min_fee;
    let outcome = recommended_in(&stats[..60], &stats[60..120], least, minutes, size);
    put_number(answer, outcome)
}

// The wait in milliseconds that a transaction of `size` bytes paying `fee` can expect at `time`.
#[unsafe(no_mangle)]
pub extern "C" fn gunthyd_expected_wait_ms_at(
    entries: &[u64],
    state: &[u64],
    stats: &[u64],
    answer: &mut [u64],
    time: u64,
    fee: u64,
    size: u32,
) -> u64
    ensures { Figure answer.old answer.new result (figured stats.now state.now (length answer.old) (expected_wait entries.now (stats_of stats.now) (state_of state.now) time fee size)) }
{
    if state.len() < STATE_WORDS {
        return refusal_code(Refusal::Lists);
    }
    if stats.len() < STATS_WORDS {
        return refusal_code(Refusal::Lists);
    }
    if answer.len() < 1 {
        return refusal_code(Refusal::AnswerTooSmall);
    }
    let mempool = load_state(state);
    let pooled = mempool.counts.pooled;
    let outcome = expected_wait_in(entries, pooled, stats[120], stats[121], time, fee, size);
    put_number(answer, outcome)
}

// The pool binned by how long each transaction has waited at `time`: a count and a sum of bases for each of `bins` + 1 bins.
#[unsafe(no_mangle)]
pub extern "C" fn gunthyd_pool_histogram_at(
    entries: &[u64],
    state: &[u64],
    answer: &mut [u64],
    time: u64,
    bins: u32,
    longest: u64,
) -> u64
    ensures { Bars answer.old answer.new result (bars_of entries.now state.now (length answer.old) time bins longest) }
{
    if state.len() < STATE_WORDS {
        return refusal_code(Refusal::Lists);
    }
    let mempool = load_state(state);
    list_code(pool_histogram_at(entries, mempool, answer, time, bins, longest))
}
