// A block: the transactions that it confirms leave the pool and are counted in the statistics, those that spend a confirmed input leave too, and
// the charges begin anew. The store is plain words that the caller lends, the statistics are lent and changed in place, the state goes in and out by
// value. Once the counts were found to fit, the pool goes from step to step as one struct.
#![tactic(auto)]

ghost use Rattle.std.specs.Prelude.{◌≡◌, true, false, List, ℕ, ◌+◌, ◌-◌, ◌/◌, ◌≤◌, length};
ghost use Rattle.words.specs.Lists.{pick};
ghost use Rattle.words.specs.Ids.{id_of};
ghost use Rattle.words.specs.Find.{found};
ghost use Rattle.words.specs.Sums.{cap};
ghost use Rattle.pool_types.specs.Outcomes.{listed_of, refused, wrote};
ghost use Rattle.pool_types.specs.Refusals.{code_of};
ghost use Rattle.pool_types.specs.declared.Mempool.{Mempool};
ghost use Rattle.expiring_cache.specs.Layout.{CacheOk, CacheKept, Pruned};
ghost use Rattle.stats.specs.declared.FeeStats.{FeeStats};
ghost use Rattle.peers.specs.declared.PeerRecord.{PeerRecord};
ghost use Rattle.entries.specs.Layout.{EntriesKept, entries_of};
ghost use Rattle.boxes.specs.Views.{count_in};
ghost use Rattle.pool.specs.Lent.{Same};
ghost use Rattle.store.specs.Fits.{cache_fits};
ghost use Rattle.store.specs.Spares.{Spares, lent};
ghost use Rattle.blocks.specs.Blocks.{drive_out, spent_one, spent, applied_tx, readable, block_refusal};
ghost use Rattle.blocks.specs.Steps.{Does, removal, inputs_in};
ghost use Rattle.blocks.specs.Tests.{refusal_on};
ghost use Rattle.blocks.specs.Runs.{seen_of, run_of, run_in, fresh, Ready, Went, finished};
ghost use Rattle.blocks.specs.Post.{BlockPromise, handed};
ghost use Rattle.blocks.specs.Numbers.{of_block};

use answers::write_id;
use arguments::{counts_agree, is_whole};
use boxes::lists::Ids;
use entries::fields::Since;
use entries::views::Entries;
use expiring_cache::ExpiringCacheMut;
use indexes::owners::spender;
use pool::lent::PoolMut;
use pool_types::{Counts, Done, Mempool, Refusal, Sums};
use stats::{FeeStats, record_confirmation};
use store::{fits_cache, unfit};
use words::ids::Id;

// What a block hands back where the statistics go in and out by value.
#[derive(Clone, Copy)]
pub struct Applied {
    pub mempool: Mempool,
    pub stats: FeeStats,
    pub outcome: Result<usize, Refusal>,
}

// What goes from one confirmation to the next: how many ids the cache holds; the next transaction of the block and its first input; how many ids were
// written so far; and what is to be recorded.
#[derive(Clone, Copy)]
struct Run {
    cached: usize,
    at: usize,
    from: usize,
    written: usize,
    seen: Option<Since>,
}

// ---- one transaction. Each step takes how many ids were written, and returns how many are then.

// Takes a pooled transaction out and writes its id. One that is not pooled changes nothing.
fn take_out(pool: &mut PoolMut<'_>, answer: &mut [u64], written: usize, id: Id) -> usize
    requires { written + pool.old.counts.pooled ≤ cap }
    ensures same { Same pool.old pool.new }
    ensures does { Does (drive_out (id_of id)) pool.old.entries.now pool.old.boxes.now answer.old (removal pool.old written)
        pool.new.entries.now pool.new.boxes.now answer.new (removal pool.new result) }
{
    let pooled = pool.remove(id);
    if !pooled {
        return written;
    }
    write_id(answer, written, id);
    written + 1
}

// What the statistics are to know of a transaction, if it is pooled.
#[tactic(auto, using(crate::specs::Runs::seen_there, crate::specs::Runs::seen_nowhere))]
fn look(entries: &Entries<'_>, id: Id) -> Option<Since>
    ensures { EntriesKept entries.now.words.now entries.now.pooled → result ≡ seen_of (found (λ x. x.id) (id_of id) (entries_of entries.now.words.now entries.now.pooled)) }
{
    let i = entries.find(id)?;
    Some(entries.since_at(i))
}

// A box that transaction `id` spends: another one that spends it leaves. It was not confirmed, so it is not recorded.
fn drive_out(pool: &mut PoolMut<'_>, answer: &mut [u64], written: usize, id: Id, key: Id) -> usize
    requires { written + pool.old.counts.pooled ≤ cap }
    ensures same { Same pool.old pool.new }
    ensures does { Does (spent_one (id_of id) (id_of key)) pool.old.entries.now pool.old.boxes.now answer.old (removal pool.old written)
        pool.new.entries.now pool.new.boxes.now answer.new (removal pool.new result) }
{
    match spender(&pool.boxes(), key) {
        Some(other) => {
            if other == id {
                return written;
            }
            take_out(pool, answer, written, other)
        }
        None => written,
    }
}

// The inputs of transaction `id`, one after the other: those of the list from `from` on and before `to`.
fn spend_inputs(
    pool: &mut PoolMut<'_>,
    answer: &mut [u64],
    written: usize,
    id: Id,
    inputs: &Ids<'_>,
    from: usize,
    to: usize,
) -> usize
    requires written_bound { written + pool.old.counts.pooled ≤ cap }
    requires to_bound { to ≤ count_in inputs.now }
    ensures same { Same pool.old pool.new }
    ensures does { Does (spent (id_of id) (inputs_in inputs.now from (to - from))) pool.old.entries.now pool.old.boxes.now answer.old (removal pool.old written)
        pool.new.entries.now pool.new.boxes.now answer.new (removal pool.new result) }
{
    let mut left = written;
    for j in from..to {
        left = drive_out(pool, answer, left, id, inputs.id_at(j));
    }
    left
}

// A confirmed transaction with its inputs: it leaves first, if it is pooled, then those that it drives out.
fn apply_tx(
    pool: &mut PoolMut<'_>,
    answer: &mut [u64],
    written: usize,
    id: Id,
    inputs: &Ids<'_>,
    from: usize,
    to: usize,
) -> usize
    requires written_bound { written + pool.old.counts.pooled ≤ cap }
    requires to_bound { to ≤ count_in inputs.now }
    ensures same { Same pool.old pool.new }
    ensures does { (time : ℕ) → Does (applied_tx time (id_of id) (inputs_in inputs.now from (to - from))) pool.old.entries.now pool.old.boxes.now answer.old (removal pool.old written)
        pool.new.entries.now pool.new.boxes.now answer.new (removal pool.new result) }
{
    let next = take_out(pool, answer, written, id);
    spend_inputs(pool, answer, next, id, inputs, from, to)
}

// Goes on to the next transaction of a block that is pooled, or to the end. Their numbers of inputs add up to the inputs, so each one's are there:
// a fact of the lists and the run together, which no type of one of them holds.
fn next(
    pool: &mut PoolMut<'_>,
    answer: &mut [u64],
    transactions: &[u64],
    inputs: &[u64],
    run: Run,
) -> Run
    requires { Ready pool.old.entries.now pool.old.boxes.now transactions.now inputs.now (run_in pool.old run) }
    ensures same { Same pool.old pool.new }
    ensures went { Went transactions.now inputs.now pool.old.entries.now pool.old.boxes.now answer.old (run_in pool.old run)
        pool.new.entries.now pool.new.boxes.now answer.new (run_in pool.new result) }
{
    let ids = Ids::new(transactions, 5);
    let boxes = Ids::new(inputs, 4);
    let n = ids.len();
    let mut written = run.written;
    let mut from = run.from;
    for i in run.at..n {
        let to = from + transactions[i * 5 + 4] as usize;
        let id = ids.id_at(i);
        let seen = look(&pool.entries(), id);
        written = apply_tx(pool, answer, written, id, &boxes, from, to);
        from = to;
        if seen.is_some() {
            return Run {
                at: i + 1,
                from,
                written,
                seen,
                ..run
            };
        }
    }
    Run {
        at: n,
        from,
        written,
        seen: None,
        ..run
    }
}

// ---- the tests

// Whether both lists are whole numbers of records, and the numbers of inputs add up.
#[tactic(auto, unfolding(crate::specs::Blocks::readable))]
fn is_readable(transactions: &[u64], inputs: &[u64]) -> bool
    ensures { result ≡ readable transactions.now inputs.now }
{
    is_whole(transactions, 5) && is_whole(inputs, 4) && counts_agree(transactions, inputs)
}

// Refusals 20, 1 and 2, where the answer has room for so many ids.
#[tactic(auto, unfolding(crate::specs::Blocks::block_refusal))]
fn check_block(
    mempool: Mempool,
    room: usize,
    transactions: &[u64],
    inputs: &[u64],
) -> Result<(), Refusal>
    ensures { code_of result ≡ block_refusal mempool room transactions.now inputs.now }
{
    if mempool.pass.open {
        return Err(Refusal::PassOpen);
    }
    if !is_readable(transactions, inputs) {
        return Err(Refusal::Lists);
    }
    if room <= mempool.counts.pooled {
        return Err(Refusal::AnswerTooSmall);
    }
    Ok(())
}

// Those refusals on any words: where the counts do not fit the words that are lent, 20 or 1.
#[tactic(auto, unfolding(crate::specs::Tests::refusal_on))]
fn refusal(
    entries: &[u64],
    boxes: &[u64],
    cache: &[u64],
    mempool: Mempool,
    room: usize,
    transactions: &[u64],
    inputs: &[u64],
) -> Result<(), Refusal>
    ensures { code_of result ≡ refusal_on entries.now boxes.now cache.now mempool room transactions.now inputs.now }
{
    if !fits_cache(entries, boxes, cache, mempool) {
        return Err(unfit(mempool.pass.open));
    }
    check_block(mempool, room, transactions, inputs)
}

// ---- the call

// Prunes the cache at the time of the block, and returns how many ids it holds then. The call lends the cache's words, so that its struct is made here.
fn prune(cache: &mut [u64], mempool: Mempool, time: u64) -> usize
    requires { CacheOk cache.old mempool.cached }
    ensures same_length { length cache.new ≡ length cache.old }
    ensures pruned { CacheKept cache.old mempool.cached → Pruned cache.old cache.new mempool.cached result mempool.config.invalidation_ttl time }
{
    let mut known = ExpiringCacheMut::new(cache, mempool.cached);
    known.prune(mempool.config.invalidation_ttl, time);
    known.len()
}

// A block before its first transaction, on a cache that holds so many ids.
#[tactic(auto, unfolding(crate::specs::Runs::fresh))]
fn fresh(cached: usize) -> Run
    ensures { (st : Mempool) → run_of st.counts result ≡ fresh st cached }
{
    Run {
        cached,
        at: 0,
        from: 0,
        written: 0,
        seen: None,
    }
}

// What is handed back of a block that was applied: the charges begin anew.
#[tactic(auto, unfolding(crate::specs::Runs::finished))]
fn finish(mempool: Mempool, counts: Counts, run: Run) -> Done<Result<usize, Refusal>>
    ensures { result ≡ finished mempool (run_of counts run) }
{
    let sums = Sums {
        interblock_cost: 0,
        peers: 0,
    };
    Done {
        mempool: Mempool {
            counts,
            cached: run.cached,
            sums,
            ..mempool
        },
        outcome: Ok(run.written),
    }
}

// Applies a block. Each confirmed transaction that is pooled is recorded in the statistics, in place. On words and counts that no start and calls left
// it is safe, and answers with a number of this call.
pub fn apply_block_at(
    entries: &mut [u64],
    boxes: &mut [u64],
    cache: &mut [u64],
    answer: &mut [u64],
    stats: &mut FeeStats,
    mempool: Mempool,
    time: u64,
    transactions: &[u64],
    inputs: &[u64],
) -> Done<Result<usize, Refusal>>
    ensures block_promise { BlockPromise entries.old boxes.old cache.old mempool stats.old time transactions.now inputs.now
        entries.new boxes.new cache.new answer.old answer.new (handed result stats.new) }
    ensures outcome_value { of_block (listed_of result.outcome) ≡ true }
    ensures by_index { ((ys : List PeerRecord) → Spares (listed_of result.outcome) (lent entries.old boxes.old cache.old ys answer.old mempool)
        (lent entries.new boxes.new cache.new ys answer.new result.mempool))
        × ((j i : ℕ) → listed_of result.outcome ≡ refused j i → stats.new ≡ stats.old) }
    ensures outcome_value_2 { cache_fits entries.old boxes.old cache.old mempool ≡ false → listed_of result.outcome ≡ refused (pick mempool.pass.open 20 1) 0 }
    ensures by_index_2 { (n : ℕ) → listed_of result.outcome ≡ wrote n → n ≤ length answer.old / 4 }
{
    let room = answer.len() / 4;
    if let Err(refusal) = refusal(entries, boxes, cache, mempool, room, transactions, inputs) {
        return Done {
            mempool,
            outcome: Err(refusal),
        };
    }
    let cached = prune(cache, mempool, time);
    let mut pool = PoolMut {
        entries,
        boxes,
        counts: mempool.counts,
    };
    let mut run = next(&mut pool, answer, transactions, inputs, fresh(cached));
    while let Some(seen) = run.seen {
        record_confirmation(stats, time, seen.created, seen.base);
        run = next(&mut pool, answer, transactions, inputs, run);
    }
    finish(mempool, pool.counts, run)
}

// The same, for callers that hold the statistics by value, as the C interface reads and stores them.
pub fn apply_block_by_value(
    entries: &mut [u64],
    boxes: &mut [u64],
    cache: &mut [u64],
    answer: &mut [u64],
    stats: FeeStats,
    mempool: Mempool,
    time: u64,
    transactions: &[u64],
    inputs: &[u64],
) -> Applied
    ensures block_promise { BlockPromise entries.old boxes.old cache.old mempool stats time transactions.now inputs.now
        entries.new boxes.new cache.new answer.old answer.new result }
    ensures outcome_value { of_block (listed_of result.outcome) ≡ true }
    ensures by_index { ((ys : List PeerRecord) → Spares (listed_of result.outcome) (lent entries.old boxes.old cache.old ys answer.old mempool)
        (lent entries.new boxes.new cache.new ys answer.new result.mempool))
        × ((j i : ℕ) → listed_of result.outcome ≡ refused j i → result.stats ≡ stats) }
    ensures outcome_value_2 { cache_fits entries.old boxes.old cache.old mempool ≡ false → listed_of result.outcome ≡ refused (pick mempool.pass.open 20 1) 0 }
    ensures by_index_2 { (n : ℕ) → listed_of result.outcome ≡ wrote n → n ≤ length answer.old / 4 }
{
    let mut lent = stats;
    let left = apply_block_at(
        entries,
        boxes,
        cache,
        answer,
        &mut lent,
        mempool,
        time,
        transactions,
        inputs,
    );
    Applied {
        mempool: left.mempool,
        stats: lent,
        outcome: left.outcome,
    }
}
