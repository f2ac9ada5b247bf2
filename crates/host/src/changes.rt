// A return, an invalidation and a block, exported.
ghost use Rattle.std.specs.Prelude.{◌≤◌, length};
ghost use Rattle.words.specs.Ids.{id_of};
ghost use Rattle.host.specs.Changes.{ReturnCall, InvalidateCall, Blocking, BlockCall};

use crate::codes::{RESULT_WORDS, lacks, put, refuse};
use crate::layout::{STATE_WORDS, TX_WORDS, load_state, load_tx, store_left, too_few};
use crate::statistics::{STATS_WORDS, load_stats, store_stats};
use blocks::apply_block_by_value;
use pool_types::Refusal;
use returns::{invalidate, return_to_pool};
use words::ids::Id;

// Gives a transaction back to the pool.
#[unsafe(no_mangle)]
pub extern "C" fn gunthyd_return_to_pool(
    entries: &mut [u64],
    boxes: &mut [u64],
    state: &mut [u64],
    res: &mut [u64],
    tx: &[u64],
    inputs: &[u64],
    outputs: &[u64],
) -> u64
    ensures { ReturnCall entries.old entries.new boxes.old boxes.new state.old state.new res.old res.new tx.now inputs.now outputs.now result }
{
    if state.len() < STATE_WORDS {
        return refuse(res, Refusal::Lists);
    }
    if lacks(tx.len(), TX_WORDS, res.len()) {
        return refuse(res, too_few(state));
    }
    let mempool = load_state(state);
    let given = load_tx(tx);
    let returned = return_to_pool(entries, boxes, mempool, given, inputs, outputs);
    let left = returned.mempool;
    let outcome = returned.outcome;
    store_left(state, left);
    put(res, outcome.into())
}

// Takes a transaction out of the pool, where it is there, and remembers its id as invalid.
#[unsafe(no_mangle)]
pub extern "C" fn gunthyd_invalidate(
    entries: &mut [u64],
    boxes: &mut [u64],
    cache: &mut [u64],
    state: &mut [u64],
    res: &mut [u64],
    time: u64,
    a: u64,
    b: u64,
    c: u64,
    d: u64,
) -> u64
    ensures { InvalidateCall entries.old entries.new boxes.old boxes.new cache.old cache.new state.old state.new res.old res.new time (id_of (record { a = a; b = b; c = c; d = d })) result }
{
    if state.len() < STATE_WORDS {
        return refuse(res, Refusal::Lists);
    }
    if res.len() < RESULT_WORDS {
        return refuse(res, too_few(state));
    }
    let mempool = load_state(state);
    let invalidated = invalidate(entries, boxes, cache, mempool, time, Id { a, b, c, d });
    let left = invalidated.mempool;
    let outcome = invalidated.outcome;
    store_left(state, left);
    put(res, outcome.into())
}

// ---- a block

// Reads, applies, stores back.
fn apply(
    entries: &mut [u64],
    boxes: &mut [u64],
    cache: &mut [u64],
    answer: &mut [u64],
    state: &mut [u64],
    stats: &mut [u64],
    res: &mut [u64],
    time: u64,
    transactions: &[u64],
    inputs: &[u64],
) -> u64
    requires in_bounds { 25 ≤ length state.old }
    requires in_bounds_2 { 124 ≤ length stats.old }
    ensures { Blocking entries.old entries.new boxes.old boxes.new cache.old cache.new answer.old answer.new
        state.old state.new stats.old stats.new res.old res.new time transactions.now inputs.now result }
{
    let mempool = load_state(state);
    let before = load_stats(stats);
    let applied = apply_block_by_value(
        entries,
        boxes,
        cache,
        answer,
        before,
        mempool,
        time,
        transactions,
        inputs,
    );
    let left = applied.mempool;
    let after = applied.stats;
    let outcome = applied.outcome;
    store_stats(stats, after);
    store_left(state, left);
    put(res, outcome.into())
}

// Applies a block.
#[unsafe(no_mangle)]
pub extern "C" fn gunthyd_apply_block_at(
    entries: &mut [u64],
    boxes: &mut [u64],
    cache: &mut [u64],
    answer: &mut [u64],
    state: &mut [u64],
    stats: &mut [u64],
    res: &mut [u64],
    time: u64,
    transactions: &[u64],
    inputs: &[u64],
) -> u64
    ensures { BlockCall entries.old entries.new boxes.old boxes.new cache.old cache.new answer.old answer.new
        state.old state.new stats.old stats.new res.old res.new time transactions.now inputs.now result }
{
    if state.len() < STATE_WORDS {
        return refuse(res, Refusal::Lists);
    }
    if lacks(stats.len(), STATS_WORDS, res.len()) {
        return refuse(res, too_few(state));
    }
    apply(
        entries,
        boxes,
        cache,
        answer,
        state,
        stats,
        res,
        time,
        transactions,
        inputs,
    )
}
