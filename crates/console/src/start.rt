// `pool`: a start.
ghost use Rattle.std.specs.Prelude.{◌≡◌, ◌/◌, ◌≤◌, length};
ghost use Rattle.entries.specs.Layout.{entries_room};
ghost use Rattle.boxes.specs.Layout.{boxes_room};
ghost use Rattle.expiring_cache.specs.Layout.{cache_room};
ghost use Rattle.mempool.specs.Start.{sizes, started};
ghost use Rattle.console.specs.Console.{config_of, started_line};
ghost use Rattle.console.specs.After.{Holds, After};
ghost use Rattle.console.specs.Desk.{HoldsIn, AfterIn, SameWords, kept_of, told, unwritten, sizes_in, started_in};

use crate::answer::refused_for;
use crate::desk::{Desk, Held, Told};
use lines::read::PoolForm;
use mempool::start;
use pool_types::MempoolConfig;
use replies::pieces::text;
use stats::FeeStats;

#[tactic(auto, unfolding(crate::specs::Console::config_of))]
fn config_of(p: PoolForm) -> MempoolConfig
    ensures { result ≡ config_of p }
{
    MempoolConfig {
        capacity: p.capacity as usize,
        min_fee: p.min_fee,
        fee_strategy: p.strategy,
        cleanup_interval: p.interval,
        rebroadcast_count: p.rebroadcast as usize,
        invalidation_ttl: p.ttl,
        invalidation_capacity: p.cache as usize,
        cost_per_block: p.block_limit,
        cost_per_peer_per_block: p.peer_limit,
    }
}

// What was held, without the ids that were written.
fn unwritten(held: Option<Held>) -> Option<Held>
    ensures { kept_of result ≡ unwritten (kept_of held) }
{
    match held {
        Some(held) => Some(Held { written: 0, ..held }),
        None => None,
    }
}

// A refused start leaves the pool that was, but it is a changing call that wrote no id.
pub fn on_pool(
    entries: &[u64],
    boxes: &[u64],
    cache: &[u64],
    peers: &[u64],
    answer: &[u64],
    held: Option<Held>,
    p: PoolForm,
    out: &mut [u8],
) -> Told
    requires holds { Holds entries.now boxes.now cache.now peers.now answer.now (kept_of held) }
    requires in_bounds { 32768 ≤ length out.old }
    ensures { After entries.now boxes.now cache.now peers.now answer.now out.old out.new (told result)
        (started_line entries.now boxes.now cache.now peers.now answer.now (kept_of held) (started (sizes (entries_room entries.now) (boxes_room boxes.now) (cache_room cache.now) (length peers.now / 2)) (config_of p))) }
{
    let started = start(entries, boxes, cache, peers.len() / 2, config_of(p));
    match started {
        Ok(mempool) => Told {
            held: Some(Held {
                mempool,
                stats: FeeStats::new(0),
                written: 0,
            }),
            len: text(out, 0, b"(ready)"),
        },
        Err(refusal) => Told {
            held: unwritten(held),
            len: refused_for(out, refusal),
        },
    }
}

// `on_pool` of a desk that is lent to be read, so that its words are known to be the same afterwards.
fn told_of(desk: &Desk<'_>, p: PoolForm, out: &mut [u8]) -> Told
    requires holds { HoldsIn desk.now }
    requires in_bounds { 32768 ≤ length out.old }
    ensures { After desk.now.entries.now desk.now.boxes.now desk.now.cache.now desk.now.peers.now desk.now.answer.now out.old out.new (told result)
        (started_in desk.now (started (sizes_in desk.now) (config_of p))) }
{
    on_pool(
        desk.entries,
        desk.boxes,
        desk.cache,
        desk.peers,
        desk.answer,
        desk.held,
        p,
        out,
    )
}

// `on_pool` of a desk, which holds then what is told.
pub(crate) fn start_on_desk(desk: &mut Desk<'_>, p: PoolForm, out: &mut [u8]) -> usize
    requires holds { HoldsIn desk.old }
    requires in_bounds { 32768 ≤ length out.old }
    ensures after { AfterIn desk.new out.old out.new result (started_in desk.old (started (sizes_in desk.old) (config_of p))) }
    ensures same_words { SameWords desk.old desk.new }
{
    let told = told_of(desk, p, out);
    desk.held = told.held;
    told.len
}
