// The pool as its host calls it.
#![tactic(auto)]

pub mod listing;
pub mod queries;

ghost use Rattle.std.specs.Prelude.{◌≡◌};
ghost use Rattle.pool_types.specs.Outcomes.{start_of};
ghost use Rattle.entries.specs.Layout.{entries_room};
ghost use Rattle.boxes.specs.Layout.{boxes_room};
ghost use Rattle.expiring_cache.specs.Layout.{cache_room};
ghost use Rattle.mempool.specs.Start.{within, sizes, sized, settled, empty, started, start_answer};

use boxes::rows::boxes_room;
use entries::fields::entries_room;
use expiring_cache::cache_room;
use pool_types::{Counts, Mempool, MempoolConfig, Pass, Refusal, Sums};
use words::ids::Id;

// Largest cost limit, of a block and of a peer: 2^63.
const MAX_COST_LIMIT: u64 = 1 << 63;

// ---- a start

fn is_within(n: usize, most: usize) -> bool
    ensures { result ≡ within n most }
{
    (1..=most).contains(&n)
}

// Whether the lent store has sizes that a pool can have.
#[tactic(auto, unfolding(crate::specs::Start::sized))]
fn is_sized(e: usize, r: usize, k: usize, p: usize) -> bool
    ensures { result ≡ sized (sizes e r k p) }
{
    is_within(e, 4096) && is_within(r, 65536) && is_within(k, 10000) && p == 256
}

// Whether the settings fit a store of these sizes.
#[tactic(auto, unfolding(crate::specs::Start::settled))]
fn is_settled(e: usize, r: usize, k: usize, p: usize, config: MempoolConfig) -> bool
    ensures { result ≡ settled (sizes e r k p) config }
{
    config.capacity < e
        && config.invalidation_capacity <= k
        && config.cost_per_block <= MAX_COST_LIMIT
        && config.cost_per_peer_per_block <= MAX_COST_LIMIT
}

// The state of an empty pool: no charge, no pass.
#[tactic(auto, unfolding(crate::specs::Start::empty))]
fn new(config: MempoolConfig) -> Mempool
    ensures { result ≡ empty config }
{
    Mempool {
        config,
        counts: Counts {
            pooled: 0,
            records: 0,
        },
        cached: 0,
        sums: Sums {
            interblock_cost: 0,
            peers: 0,
        },
        pass: Pass {
            open: false,
            out: false,
            candidate: Id {
                a: 0,
                b: 0,
                c: 0,
                d: 0,
            },
            time: 0,
            limit: 0,
            preheader: 0,
            spent: 0,
        },
    }
}

// A pool on a lent store: the state to go on with, or refusal 6. Nothing of the store is changed: an empty pool uses no record of it.
#[tactic(auto, unfolding(pool_types::specs::Outcomes::start_of, crate::specs::Start::started, crate::specs::Start::start_answer))]
pub fn start(
    entries: &[u64],
    boxes: &[u64],
    cache: &[u64],
    peers: usize,
    config: MempoolConfig,
) -> Result<Mempool, Refusal>
    ensures value { result ≡ started (sizes (entries_room entries.now) (boxes_room boxes.now) (cache_room cache.now) peers) config }
    ensures result_value { start_of result ≡ start_answer (sizes (entries_room entries.now) (boxes_room boxes.now) (cache_room cache.now) peers) config }
{
    let e = entries_room(entries);
    let r = boxes_room(boxes);
    let k = cache_room(cache);
    if !is_sized(e, r, k, peers) || !is_settled(e, r, k, peers, config) {
        return Err(Refusal::Settings);
    }
    Ok(new(config))
}
