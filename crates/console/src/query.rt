// The queries: they change nothing but what is printed.
ghost use Rattle.std.specs.Prelude.{◌≡◌, ℕ, ◌/◌, ◌≤◌, List, length, take};
ghost use Rattle.words.specs.Ids.{id_of};
ghost use Rattle.forms.specs.Nums.{Prints};
ghost use Rattle.peers.specs.Flat.{records};
ghost use Rattle.entries.specs.Layout.{EntriesKept};
ghost use Rattle.expiring_cache.specs.Layout.{CacheKept};
ghost use Rattle.pool.specs.Pool.{PoolFits, PoolKept};
ghost use Rattle.store.specs.World.{world_of};
ghost use Rattle.cleanup.specs.Rebroadcast.{rebroadcast};
ghost use Rattle.mempool.specs.Listing.{top_of};
ghost use Rattle.mempool.specs.Queries.{contains_of, spending_of};
ghost use Rattle.console.specs.Console.{listing_text, query_text, sent_text, asked};
ghost use Rattle.console.specs.After.{Holds};
ghost use Rattle.console.specs.Desk.{kept, HoldsWith, asked_in};

use crate::answer::refused_for;
use crate::calls::Query;
use crate::desk::{Desk, Held};
use crate::estimates::{on_fee, on_histogram, on_wait};
use cleanup::rebroadcast::select_for_rebroadcast;
use mempool::listing::top;
use mempool::queries::{contains, len, spending_tx};
use pool_types::Mempool;
use replies::pieces::text;
use replies::{charges, pooled, spender, with_ids, with_number};
use words::ids::Id;

pub fn on_top(
    entries: &[u64],
    mempool: Mempool,
    listing: &mut [u64],
    limit: usize,
    out: &mut [u8],
) -> usize
    requires { (length listing.old ≤ 1024) × (32768 ≤ length out.old) }
    ensures { Prints (listing_text (top_of entries.now mempool (length listing.old) limit)) 0 out.old out.new result }
{
    let listed = top(entries, mempool, listing, limit);
    match listed {
        Ok(n) => pooled(out, &listing[..], n),
        Err(refusal) => refused_for(out, refusal),
    }
}

#[tactic(auto, unfolding(crate::specs::Console::query_text, pool_types::specs::Outcomes::tested_of))]
pub fn on_contains(
    entries: &[u64],
    cache: &[u64],
    mempool: Mempool,
    time: u64,
    id: Id,
    out: &mut [u8],
) -> usize
    requires entries_kept { EntriesKept entries.now mempool.counts.pooled × CacheKept cache.now mempool.cached }
    requires in_bounds { 32768 ≤ length out.old }
    ensures { Prints (query_text (contains_of entries.now cache.now mempool time (id_of id))) 0 out.old out.new result }
{
    let tested = contains(entries, cache, mempool, time, id);
    match tested {
        Ok(said) => {
            if said {
                text(out, 0, b"(yes)")
            } else {
                text(out, 0, b"(no)")
            }
        }
        Err(refusal) => refused_for(out, refusal),
    }
}

#[tactic(auto, unfolding(crate::specs::Console::query_text, pool_types::specs::Outcomes::looked_of))]
pub fn on_spending(
    entries: &[u64],
    boxes: &[u64],
    mempool: Mempool,
    key: Id,
    out: &mut [u8],
) -> usize
    requires pool_kept { PoolKept entries.now boxes.now mempool.counts }
    requires in_bounds { 32768 ≤ length out.old }
    ensures { Prints (query_text (spending_of entries.now boxes.now mempool (id_of key))) 0 out.old out.new result }
{
    let looked = spending_tx(entries, boxes, mempool, key);
    match looked {
        Ok(looked) => match looked {
            Some(tx) => spender(out, tx.id, tx.weight, tx.base),
            None => text(out, 0, b"(none)"),
        },
        Err(refusal) => refused_for(out, refusal),
    }
}

// The list of confirmed boxes has the first `n` words of `one`, or all where there are fewer. Cache and peers may be any.
pub fn on_rebroadcast(
    entries: &[u64],
    boxes: &[u64],
    listing: &mut [u64],
    one: &[u64],
    mempool: Mempool,
    n: usize,
    out: &mut [u8],
) -> usize
    requires pool_fits { PoolFits entries.now boxes.now mempool.counts × PoolKept entries.now boxes.now mempool.counts }
    requires listing_len_bound { (length listing.old ≤ 1024) × (32768 ≤ length out.old) }
    ensures { (k p : List ℕ) → Prints (sent_text (rebroadcast mempool (world_of entries.now boxes.now k (records p) mempool) (length listing.old / 4) (take n one.now))) 0 out.old out.new result }
{
    let m = n.min(one.len());
    let sent = select_for_rebroadcast(entries, boxes, listing, mempool, &one[..m]);
    match sent {
        Ok(k) => with_ids(out, b"(ids", &listing[..], k),
        Err(refusal) => refused_for(out, refusal),
    }
}

// A query's answer, of a pool that is there. The words of its list stand at the front of `one`.
#[tactic(auto, unfolding(crate::specs::Console::asked))]
pub fn ask(
    entries: &[u64],
    boxes: &[u64],
    cache: &[u64],
    peers: &[u64],
    answer: &[u64],
    listing: &mut [u64],
    one: &[u64],
    held: Held,
    query: Query,
    out: &mut [u8],
) -> usize
    requires holds { Holds entries.now boxes.now cache.now peers.now answer.now (kept held) }
    requires answer_len_bound { (length answer.now ≤ 1024) × (length listing.old ≤ 1024) }
    requires in_bounds { 32768 ≤ length out.old }
    ensures { Prints (asked entries.now boxes.now cache.now peers.now answer.now (kept held) (length listing.old) one.now query) 0 out.old out.new result }
{
    let mempool = held.mempool;
    let stats = held.stats;
    match query {
        Query::Listing(limit) => on_top(entries, mempool, listing, limit as usize, out),
        Query::Len => with_number(out, b"(len ", len(mempool) as u64),
        Query::Contains(time, id) => on_contains(entries, cache, mempool, time, id, out),
        Query::Spending(key) => on_spending(entries, boxes, mempool, key, out),
        Query::Fee(minutes, size) => on_fee(stats, mempool, minutes, size, out),
        Query::Wait(time, fee, size) => on_wait(entries, stats, mempool, time, fee, size, out),
        Query::Histogram(time, bins, longest) => {
            on_histogram(entries, mempool, listing, time, bins, longest, out)
        }
        Query::Rebroadcast(n) => on_rebroadcast(entries, boxes, listing, one, mempool, n, out),
        Query::Charges => charges(out, mempool.sums.interblock_cost, peers, mempool.sums.peers),
        Query::Written => with_ids(out, b"(ids", answer, held.written),
    }
}

// `ask` of a desk.
pub(crate) fn ask_on_desk(
    desk: &Desk<'_>,
    held: Held,
    listing: &mut [u64],
    one: &[u64],
    query: Query,
    out: &mut [u8],
) -> usize
    requires holds { HoldsWith desk.now held }
    requires in_bounds { (length listing.old ≤ 1024) × (32768 ≤ length out.old) }
    ensures { Prints (asked_in desk.now held (length listing.old) one.now query) 0 out.old out.new result }
{
    ask(
        desk.entries,
        desk.boxes,
        desk.cache,
        desk.peers,
        desk.answer,
        listing,
        one,
        held,
        query,
        out,
    )
}
