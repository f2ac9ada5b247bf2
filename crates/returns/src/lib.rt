// A return and an invalidation: a transaction that a rolled back block gives back to the pool, and one that was found invalid. The store is
// plain words that the caller lends, the state goes in and out by value.
#![tactic(auto)]

ghost use Rattle.std.specs.Prelude.{◌≡◌, true, false, ◌&&◌, List, ◌∷◌, ℕ, ◌+◌, ◌≤◌, max};
ghost use Rattle.words.specs.Lists.{pick};
ghost use Rattle.words.specs.Ids.{id_of};
ghost use Rattle.pool_types.specs.Refusals.{code_of};
ghost use Rattle.pool_types.specs.Outcomes.{refused, done_of};
ghost use Rattle.arguments.specs.Arguments.{whole, records};
ghost use Rattle.expiring_cache.specs.Layout.{CacheOk, CacheKept, cache_room};
ghost use Rattle.peers.specs.declared.PeerRecord.{PeerRecord};
ghost use Rattle.entries.specs.Entries.{pooled};
ghost use Rattle.entries.specs.Layout.{entry_of, entries_of, entries_room};
ghost use Rattle.boxes.specs.Layout.{boxes_room};
ghost use Rattle.boxes.specs.Index.{BoxesKept};
ghost use Rattle.boxes.specs.Among.{among};
ghost use Rattle.boxes.specs.Flat.{count_of, ids_of};
ghost use Rattle.pool.specs.Pool.{PoolFits, PoolKept, fits_test, Room, tables_of, no_room, insert_tx, remove_tx};
ghost use Rattle.store.specs.Fits.{cache_fits};
ghost use Rattle.store.specs.Spares.{Spares, lent};
ghost use Rattle.returns.specs.Returns.{return_refusal, returned_entry};
ghost use Rattle.returns.specs.Promises.{ReturnPromise, InvalidatePromise};
ghost use Rattle.returns.specs.Post.{Tabled, Cached, recounted, recached};
ghost use Rattle.returns.specs.Numbers.{of_return, of_invalidation};

use arguments::{are_whole, count_records, height_key};
use boxes::lists::{Ids, TxIds};
use entries::fields::PoolEntry;
use expiring_cache::ExpiringCacheMut;
use pool::fits;
use pool::lent::{Pool, PoolMut};
use pool_types::{Done, Lists, Mempool, MempoolConfig, Refusal, Source};
use store::{fits_cache, lacks_room};
use weight::fee_per_factor;
use words::ids::Id;

// The greatest size.
const MAX_TX_SIZE: u64 = 98304;

// A transaction that is given back, but for its lists of inputs and outputs. The fee is read for its weight; `source` is read by nobody, and stands
// here because it is a field of the Rust's.
#[derive(Clone, Copy)]
pub struct UnconfirmedTx {
    pub id: Id,
    pub fee: u64,
    pub size: u64,
    pub cost: u32,
    pub validation_cost: Option<u64>,
    pub created: u64,
    pub last_checked: u64,
    pub source: Source,
}

// ---- a return

// Refusals 20, 1, 3, 23, 27: the first that is met. Counts that do not fit what is lent are refused as lists that are not whole.
#[tactic(auto, unfolding(crate::specs::Returns::return_refusal, crate::specs::Numbers::of_return))]
fn check_return(
    entries: &[u64],
    boxes: &[u64],
    mempool: Mempool,
    tx: UnconfirmedTx,
    lists: &Lists<'_>,
) -> Result<(), Refusal>
    ensures refusal_value { of_return result ≡ true }
    ensures room { code_of result ≡ 0 → Room entries.now boxes.now mempool.counts (records 4 lists.now.inputs.now + records 5 lists.now.outputs.now) }
    ensures value { PoolFits entries.now boxes.now mempool.counts → PoolKept entries.now boxes.now mempool.counts
        → code_of result ≡ return_refusal (entries_room entries.now) (boxes_room boxes.now) mempool (tables_of entries.now boxes.now mempool.counts) tx lists.now.inputs.now lists.now.outputs.now }
    ensures unfit { fits_test entries.now boxes.now mempool.counts ≡ false → code_of result ≡ pick mempool.pass.open 20 1 }
{
    if mempool.pass.open {
        return Err(Refusal::PassOpen);
    }
    let counts = mempool.counts;
    if !fits(entries, boxes, counts) {
        return Err(Refusal::Lists);
    }
    if !are_whole(lists.inputs, 4, lists.outputs, 5) {
        return Err(Refusal::Lists);
    }
    if MAX_TX_SIZE < tx.size {
        return Err(Refusal::Size);
    }
    let pool = Pool::new(entries, boxes, counts);
    if pool.entries().is_pooled(tx.id) {
        return Err(Refusal::AlreadyPooled);
    }
    if lacks_room(&pool, lists.inputs, 4, lists.outputs, 5) {
        return Err(Refusal::NoRoom);
    }
    Ok(())
}

// Its entry: cost and times as they are given, the cost not raised to its size, and the weight its base.
#[tactic(auto, unfolding(entries::specs::Layout::entry_of, crate::specs::Returns::returned_entry))]
fn returned_entry(config: MempoolConfig, tx: UnconfirmedTx, lists: &Lists<'_>) -> PoolEntry
    ensures { entry_of result ≡ returned_entry config tx lists.now.inputs.now lists.now.outputs.now }
{
    let cost = u64::from(tx.cost);
    let base = fee_per_factor(tx.fee, tx.size, cost, config.fee_strategy);
    PoolEntry {
        id: tx.id,
        weight: base,
        base,
        size: tx.size,
        cost,
        validation_cost: tx.validation_cost,
        created: tx.created,
        last_checked: tx.last_checked,
        height_key: height_key(lists.outputs, 5, 4),
        inputs: count_records(lists.inputs, 4) as u64,
    }
}

// Enters it in the pool, and does nothing else.
fn enter(
    entries: &mut [u64],
    boxes: &mut [u64],
    mempool: Mempool,
    e: PoolEntry,
    lists: &Lists<'_>,
) -> Mempool
    requires { Room entries.old boxes.old mempool.counts (count_of 4 lists.now.inputs.now + count_of 5 lists.now.outputs.now) }
    ensures { PoolKept entries.old boxes.old mempool.counts → pooled (id_of e.id) (entries_of entries.old mempool.counts.pooled) ≡ false
        → Tabled entries.new boxes.new mempool result (insert_tx (entry_of e) (ids_of 4 lists.now.inputs.now) (ids_of 5 lists.now.outputs.now) (tables_of entries.old boxes.old mempool.counts)) }
{
    let mut pool = PoolMut {
        entries,
        boxes,
        counts: mempool.counts,
    };
    pool.insert(
        e,
        &TxIds {
            inputs: Ids::new(lists.inputs, 4),
            outputs: Ids::new(lists.outputs, 5),
        },
    );
    Mempool {
        counts: pool.counts,
        ..mempool
    }
}

// Gives a transaction back to the pool, without a verdict. On words and counts that no start and calls left it is safe, and answers with a
// number of this call.
#[tactic(auto, unfolding(pool_types::specs::Outcomes::done_of))]
pub fn return_to_pool(
    entries: &mut [u64],
    boxes: &mut [u64],
    mempool: Mempool,
    tx: UnconfirmedTx,
    inputs: &[u64],
    outputs: &[u64],
) -> Done<Result<(), Refusal>>
    ensures return_promise { ReturnPromise entries.old boxes.old mempool tx inputs.now outputs.now entries.new boxes.new result.mempool (done_of result.outcome) }
    ensures outcome_value { of_return result.outcome ≡ true }
    ensures by_index { (k : List ℕ) (ys : List PeerRecord) (a : List ℕ) → Spares (done_of result.outcome)
        (lent entries.old boxes.old k ys a mempool)
        (lent entries.new boxes.new k ys a result.mempool) }
    ensures outcome_value_2 { fits_test entries.old boxes.old mempool.counts ≡ false → done_of result.outcome ≡ refused (pick mempool.pass.open 20 1) 0 }
{
    let lists = Lists { inputs, outputs };
    if let Err(refusal) = check_return(entries, boxes, mempool, tx, &lists) {
        return Done {
            mempool,
            outcome: Err(refusal),
        };
    }
    let e = returned_entry(mempool.config, tx, &lists);
    Done {
        mempool: enter(entries, boxes, mempool, e, &lists),
        outcome: Ok(()),
    }
}

// ---- an invalidation

// Takes it out of the pool with its records, where it is there. The call lends tables and hands a state by value, so that here the pool is made of them,
// and the clause asks that they fit.
pub fn take_out(entries: &mut [u64], boxes: &mut [u64], mempool: Mempool, id: Id) -> Mempool
    requires { PoolFits entries.old boxes.old mempool.counts }
    ensures value { result ≡ recounted mempool result.counts }
    ensures tabled { PoolKept entries.old boxes.old mempool.counts → Tabled entries.new boxes.new mempool result (remove_tx (id_of id) (tables_of entries.old boxes.old mempool.counts)) }
{
    let mut pool = PoolMut {
        entries,
        boxes,
        counts: mempool.counts,
    };
    pool.remove(id);
    Mempool {
        counts: pool.counts,
        ..mempool
    }
}

// Puts an id into the cache, where it is not there.
pub fn remember(cache: &mut [u64], mempool: Mempool, time: u64, id: Id) -> Mempool
    requires cache_ok { CacheOk cache.old mempool.cached }
    requires invalidation_capacity_bound { max mempool.config.invalidation_capacity 1 ≤ cache_room cache.old }
    ensures cache_ok_2 { CacheOk cache.new result.cached × (result ≡ recached mempool result.cached) }
    ensures cached { CacheKept cache.old mempool.cached → Cached cache.old cache.new mempool result time (id_of id) }
{
    let mut known = ExpiringCacheMut::new(cache, mempool.cached);
    known.insert(mempool.config.invalidation_capacity, time, id);
    Mempool {
        cached: known.len(),
        ..mempool
    }
}

// Takes a transaction out of the pool, where it is there, and remembers its id as invalid. Safe as `return_to_pool` is.
#[tactic(auto, unfolding(crate::specs::Numbers::of_invalidation, pool_types::specs::Outcomes::done_of))]
pub fn invalidate(
    entries: &mut [u64],
    boxes: &mut [u64],
    cache: &mut [u64],
    mempool: Mempool,
    time: u64,
    id: Id,
) -> Done<Result<(), Refusal>>
    ensures invalidate_promise { InvalidatePromise entries.old boxes.old cache.old mempool time (id_of id) entries.new boxes.new cache.new result.mempool (done_of result.outcome) }
    ensures outcome_value { of_invalidation result.outcome ≡ true }
    ensures spares { (ys : List PeerRecord) (a : List ℕ) → Spares (done_of result.outcome)
        (lent entries.old boxes.old cache.old ys a mempool)
        (lent entries.new boxes.new cache.new ys a result.mempool) }
    ensures outcome_value_2 { cache_fits entries.old boxes.old cache.old mempool ≡ false → done_of result.outcome ≡ refused (pick mempool.pass.open 20 1) 0 }
{
    if mempool.pass.open {
        return Done {
            mempool,
            outcome: Err(Refusal::PassOpen),
        };
    }
    if !fits_cache(entries, boxes, cache, mempool) {
        return Done {
            mempool,
            outcome: Err(Refusal::Lists),
        };
    }
    let without = take_out(entries, boxes, mempool, id);
    Done {
        mempool: remember(cache, without, time, id),
        outcome: Ok(()),
    }
}
