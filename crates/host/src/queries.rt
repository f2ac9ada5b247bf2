// The queries, exported. They change nothing but the answer buffer.
ghost use Rattle.std.specs.Prelude.{Bool, Option, Result};
ghost use Rattle.pool_types.specs.declared.Refusal.{Refusal};
ghost use Rattle.pool_types.specs.declared.PooledTx.{PooledTx};
ghost use Rattle.std.specs.Prelude.{◌≡◌, ◌≤◌, length};
ghost use Rattle.words.specs.Ids.{id_of};
ghost use Rattle.words.specs.Rows.{stored};
ghost use Rattle.pool_types.specs.Outcomes.{number};
ghost use Rattle.entries.specs.Layout.{EntriesKept};
ghost use Rattle.boxes.specs.Index.{BoxesKept};
ghost use Rattle.expiring_cache.specs.Layout.{CacheKept};
ghost use Rattle.mempool.specs.Queries.{contains_of, contains_with, test_said};
ghost use Rattle.mempool.specs.Listing.{row_words};
ghost use Rattle.host.specs.State.{state_of};
ghost use Rattle.host.specs.Queries.{queried, Rows, spent_of, spent_with, topped_of};

use crate::codes::{list_code, refusal_code, test_code};
use crate::layout::{STATE_WORDS, load_state};
use mempool::listing::top;
use mempool::queries::{contains, len, spending_tx};
use pool_types::{PooledTx, Refusal};
use words::ids::Id;
use words::rows::put_words;

const ROW_WORDS: usize = 6;

// How many transactions are pooled.
#[unsafe(no_mangle)]
pub extern "C" fn gunthyd_len(state: &[u64]) -> u64
    ensures { result ≡ queried state.now (number (state_of state.now).counts.pooled) }
{
    if state.len() < STATE_WORDS {
        return refusal_code(Refusal::Lists);
    }
    len(load_state(state)) as u64
}

// Whether a transaction is pooled, or its id held in the cache at this time.
#[unsafe(no_mangle)]
pub extern "C" fn gunthyd_contains(
    entries: &[u64],
    cache: &[u64],
    state: &[u64],
    time: u64,
    a: u64,
    b: u64,
    c: u64,
    d: u64,
) -> u64
    ensures value { (o : Result Bool Refusal) × (result ≡ queried state.now (contains_with entries.now cache.now (state_of state.now) (test_said o))) }
    ensures value_2 { EntriesKept entries.now (state_of state.now).counts.pooled → CacheKept cache.now (state_of state.now).cached
        → result ≡ queried state.now (contains_of entries.now cache.now (state_of state.now) time (id_of (record { a = a; b = b; c = c; d = d }))) }
{
    if state.len() < STATE_WORDS {
        return refusal_code(Refusal::Lists);
    }
    let mempool = load_state(state);
    test_code(contains(entries, cache, mempool, time, Id { a, b, c, d }))
}

// Writes a row to the first words of an answer buffer.
fn put_first(answer: &mut [u64], tx: PooledTx)
    requires { 6 ≤ length answer.old }
    ensures { answer.new ≡ stored answer.old 0 (row_words tx.id tx.weight tx.base) }
{
    let id = tx.id;
    put_words(answer, 0, &[id.a, id.b, id.c, id.d, tx.weight, tx.base]);
}

// The transaction that spends a box: id, weight and base.
#[unsafe(no_mangle)]
pub extern "C" fn gunthyd_spending_tx(
    entries: &[u64],
    boxes: &[u64],
    state: &[u64],
    answer: &mut [u64],
    a: u64,
    b: u64,
    c: u64,
    d: u64,
) -> u64
    ensures rows { (o : Result (Option PooledTx) Refusal) × Rows answer.old answer.new result (spent_with entries.now boxes.now state.now (length answer.old) o) }
    ensures rows_2 { EntriesKept entries.now (state_of state.now).counts.pooled → BoxesKept boxes.now (state_of state.now).counts.records
        → Rows answer.old answer.new result (spent_of entries.now boxes.now state.now (length answer.old) (id_of (record { a = a; b = b; c = c; d = d }))) }
{
    if state.len() < STATE_WORDS {
        return refusal_code(Refusal::Lists);
    }
    if answer.len() < ROW_WORDS {
        return refusal_code(Refusal::AnswerTooSmall);
    }
    let mempool = load_state(state);
    let found = spending_tx(entries, boxes, mempool, Id { a, b, c, d });
    match found {
        Ok(looked) => match looked {
            Some(tx) => {
                put_first(answer, tx);
                1
            }
            None => 0,
        },
        Err(refusal) => refusal_code(refusal),
    }
}

// The first `limit` transactions by priority: id, weight and base of each.
#[unsafe(no_mangle)]
pub extern "C" fn gunthyd_top(
    entries: &[u64],
    state: &[u64],
    answer: &mut [u64],
    limit: usize,
) -> u64
    ensures { Rows answer.old answer.new result (topped_of entries.now state.now (length answer.old) limit) }
{
    if state.len() < STATE_WORDS {
        return refusal_code(Refusal::Lists);
    }
    let mempool = load_state(state);
    list_code(top(entries, mempool, answer, limit))
}
