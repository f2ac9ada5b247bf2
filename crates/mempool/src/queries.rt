// Queries that need no statistics. They change nothing.
ghost use Rattle.std.specs.Prelude.{◌≡◌, Ok};
ghost use Rattle.words.specs.Ids.{id_of};
ghost use Rattle.words.specs.Find.{found};
ghost use Rattle.pool_types.specs.Outcomes.{tested_of, looked_of};
ghost use Rattle.entries.specs.Layout.{EntriesKept};
ghost use Rattle.entries.specs.Views.{KeptIn, entries_in};
ghost use Rattle.boxes.specs.Index.{BoxesKept};
ghost use Rattle.expiring_cache.specs.Layout.{CacheKept};
ghost use Rattle.mempool.specs.Queries.{contains_of, spending_of, contains_with, spending_with, test_said, entry_seen, entry_outcome};

use boxes::rows::boxes_room;
use boxes::views::Boxes;
use entries::fields::entries_room;
use entries::views::Entries;
use expiring_cache::{ExpiringCache, cache_room};
use indexes::owners::spender;
use pool_types::{Mempool, PooledTx, Refusal};
use words::ids::Id;

// How many transactions are pooled.
pub fn len(mempool: Mempool) -> usize
    ensures { result ≡ mempool.counts.pooled }
{
    mempool.counts.pooled
}

// Whether a transaction is pooled, or its id held in the cache at this time.
#[tactic(auto, unfolding(pool_types::specs::Outcomes::tested_of, crate::specs::Queries::contains_with, crate::specs::Queries::contains_of, entries::specs::Layout::EntriesOk, entries::specs::Layout::entries_room, expiring_cache::specs::Layout::CacheOk))]
pub fn contains(
    entries: &[u64],
    cache: &[u64],
    mempool: Mempool,
    time: u64,
    id: Id,
) -> Result<bool, Refusal>
    ensures result_value { tested_of result ≡ contains_with entries.now cache.now mempool (test_said result) }
    ensures result_value_2 { EntriesKept entries.now mempool.counts.pooled → CacheKept cache.now mempool.cached → tested_of result ≡ contains_of entries.now cache.now mempool time (id_of id) }
{
    if entries_room(entries) < mempool.counts.pooled || cache_room(cache) < mempool.cached {
        return Err(Refusal::Lists);
    }
    let ttl = mempool.config.invalidation_ttl;
    Ok(
        Entries::new(entries, mempool.counts.pooled).is_pooled(id)
            || ExpiringCache::new(cache, mempool.cached).contains(ttl, time, id),
    )
}

// A pooled transaction's id, weight and base.
#[tactic(auto, using(crate::specs::Queries::entry_here, crate::specs::Queries::entry_absent), unfolding(pool_types::specs::Outcomes::looked_of))]
fn entry_of(entries: &Entries<'_>, id: Id) -> Option<PooledTx>
    ensures { KeptIn entries.now → looked_of (Ok result) ≡ entry_outcome (found (λ x. x.id) (id_of id) (entries_in entries.now)) }
{
    let i = entries.find(id)?;
    Some(PooledTx {
        id: entries.id_at(i),
        weight: entries.weight_at(i),
        base: entries.base_at(i),
    })
}

// The transaction that spends a box: the owner of the box as an input, not as an output.
#[tactic(auto, unfolding(pool_types::specs::Outcomes::looked_of, crate::specs::Queries::spending_with, crate::specs::Queries::spending_of, entries::specs::Layout::EntriesOk, entries::specs::Layout::entries_room, boxes::specs::Layout::BoxesOk))]
pub fn spending_tx(
    entries: &[u64],
    boxes: &[u64],
    mempool: Mempool,
    key: Id,
) -> Result<Option<PooledTx>, Refusal>
    ensures result_value { looked_of result ≡ spending_with entries.now boxes.now mempool (entry_seen result) }
    ensures result_value_2 { EntriesKept entries.now mempool.counts.pooled → BoxesKept boxes.now mempool.counts.records → looked_of result ≡ spending_of entries.now boxes.now mempool (id_of key) }
{
    if entries_room(entries) < mempool.counts.pooled || boxes_room(boxes) < mempool.counts.records {
        return Err(Refusal::Lists);
    }
    let owner = spender(&Boxes::new(boxes, mempool.counts.records), key);
    match owner {
        Some(id) => Ok(entry_of(&Entries::new(entries, mempool.counts.pooled), id)),
        None => Ok(None),
    }
}
