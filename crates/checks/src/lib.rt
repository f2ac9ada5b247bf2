// The tests of a submission up to its verdict. Each function gives the refusal of the first test that fails.
#![tactic(auto)]

ghost use Rattle.std.specs.Prelude.{◌≡◌, true, false, ◌&&◌, ◌∷◌, ◌+◌, ◌≤◌, ltb};
ghost use Rattle.words.specs.Sums.{cap};
ghost use Rattle.pool_types.specs.Refusals.{code_of};
ghost use Rattle.arguments.specs.Arguments.{whole, records, max_inputs, fee_of, height_key, ahead_of};
ghost use Rattle.expiring_cache.specs.Layout.{CacheKept, cache_of};
ghost use Rattle.entries.specs.Layout.{EntriesKept, entries_room};
ghost use Rattle.entries.specs.Views.{entries_in};
ghost use Rattle.boxes.specs.Layout.{boxes_room};
ghost use Rattle.boxes.specs.Index.{BoxesKept};
ghost use Rattle.boxes.specs.Among.{among};
ghost use Rattle.pool.specs.Pool.{Room, tables_of};
ghost use Rattle.checks.specs.Checks.{dear, remote, call_refusal, peer_refusal, state_refusal, list_refusal, refusal_of};
ghost use Rattle.checks.specs.Passed.{Welcome, Passed};
ghost use Rattle.checks.specs.Numbers.{refusals};
ghost use Rattle.store.specs.Fits.{Testable, Indexed};

use arguments::{are_whole, count_records, extract_fee, height_key, height_order};
use entries::views::Entries;
use expiring_cache::ExpiringCache;
use indexes::resolved::inputs_resolved;
use peers::{Standing, at_limit, none_free};
use pool::lent::Pool;
use pool_types::{Lists, Mempool, Refusal, Source, Submission, Verdict};
use store::lacks_room;

// The greatest size.
const MAX_TX_SIZE: u64 = 98304;
// The greatest cost of a valid verdict: 32 bits.
const MAX_COST: u64 = 4294967295;
// How many inputs are allowed, so that lookups stay cheap.
const MAX_TX_INPUTS: usize = 5000;
// How many peers can have a record.
const PEER_RECORDS: usize = 256;

// ---- what the call brings

// Whether the flagged values add up to more than a word holds.
#[tactic(auto, unfolding(arguments::specs::Arguments::fee_sum))]
fn is_fee_beyond(outputs: &[u64]) -> bool
    ensures { result ≡ ltb cap (fee_of outputs.now) }
{
    extract_fee(outputs).is_none()
}

// Whether the verdict is valid at a cost of more than 32 bits.
fn is_dear(verdict: Verdict) -> bool
    ensures { result ≡ dear verdict }
{
    match verdict {
        Verdict::Valid(cost) => MAX_COST < cost,
        Verdict::Invalid | Verdict::Absent => false,
    }
}

// Refusals 20, 1, 2, 3, 4, 5, where the answer has room for so many ids.
#[tactic(auto, unfolding(crate::specs::Checks::call_refusal))]
fn check_call(
    mempool: Mempool,
    room: usize,
    sub: Submission,
    lists: &Lists<'_>,
) -> Result<(), Refusal>
    ensures refusals_value { among (code_of result) (0 ∷ refusals) ≡ true }
    ensures value { code_of result ≡ call_refusal mempool room sub lists.now.inputs.now lists.now.outputs.now }
{
    if mempool.pass.open {
        return Err(Refusal::PassOpen);
    }
    if !are_whole(lists.inputs, 5, lists.outputs, 7) {
        return Err(Refusal::Lists);
    }
    if room <= mempool.counts.pooled {
        return Err(Refusal::AnswerTooSmall);
    }
    if MAX_TX_SIZE < sub.size {
        return Err(Refusal::Size);
    }
    if is_fee_beyond(lists.outputs) {
        return Err(Refusal::FeeSum);
    }
    let verdict = sub.verdict;
    if is_dear(verdict) {
        return Err(Refusal::Cost);
    }
    Ok(())
}

// ---- what the pool holds against it

fn is_remote(source: Source) -> bool
    ensures { result ≡ remote source }
{
    matches!(source, Source::Peer(_))
}

// Refusals 24, 25, 26 of a peer that stands so.
#[tactic(auto, unfolding(crate::specs::Checks::peer_refusal))]
fn check_peer(mempool: Mempool, standing: Standing) -> Result<(), Refusal>
    ensures refusals_value { among (code_of result) (0 ∷ refusals) ≡ true }
    ensures welcome { code_of result ≡ 0 → Welcome mempool standing }
    ensures value { code_of result ≡ peer_refusal mempool standing }
{
    if mempool.config.cost_per_block <= mempool.sums.interblock_cost {
        return Err(Refusal::BlockLimit);
    }
    if at_limit(standing, mempool.config.cost_per_peer_per_block) {
        return Err(Refusal::PeerLimit);
    }
    if none_free(standing, PEER_RECORDS, mempool.sums.peers) {
        return Err(Refusal::NoPeerRecord);
    }
    Ok(())
}

// Refusals 22, 23, 24, 25, 26. The standing of a local submission is not looked at.
#[tactic(auto, unfolding(crate::specs::Checks::state_refusal))]
fn check_state(
    entries: &Entries<'_>,
    cache: &ExpiringCache<'_>,
    mempool: Mempool,
    standing: Standing,
    sub: Submission,
) -> Result<(), Refusal>
    ensures refusals_value { among (code_of result) (0 ∷ refusals) ≡ true }
    ensures welcome { code_of result ≡ 0 → remote sub.source ≡ true → Welcome mempool standing }
    ensures value { EntriesKept entries.now.words.now entries.now.pooled → CacheKept cache.now.words.now cache.now.rows
        → code_of result ≡ state_refusal mempool (cache_of cache.now.words.now cache.now.rows) (entries_in entries.now) standing sub }
{
    if cache.contains(mempool.config.invalidation_ttl, sub.time, sub.id) {
        return Err(Refusal::HeldInvalid);
    }
    if entries.is_pooled(sub.id) {
        return Err(Refusal::AlreadyPooled);
    }
    let source = sub.source;
    if is_remote(source) {
        return check_peer(mempool, standing);
    }
    Ok(())
}

// ---- its inputs and outputs

// Whether an output's height is above the preheader.
fn is_ahead(outputs: &[u64], preheader: u32) -> bool
    ensures { result ≡ ahead_of (height_key 7 6 outputs.now) preheader }
{
    height_order(preheader as u64) < height_key(outputs, 7, 6)
}

// Refusals 7, 27, 28, 8.
#[tactic(auto, unfolding(crate::specs::Checks::list_refusal))]
fn check_lists(pool: &Pool<'_>, sub: Submission, lists: &Lists<'_>) -> Result<(), Refusal>
    ensures refusals_value { among (code_of result) (0 ∷ refusals) ≡ true }
    ensures inputs_bound { code_of result ≡ 0 → (records 5 lists.now.inputs.now ≤ max_inputs) × Room pool.now.entries.now pool.now.boxes.now pool.now.counts (records 5 lists.now.inputs.now + records 7 lists.now.outputs.now) }
    ensures value { BoxesKept pool.now.boxes.now pool.now.counts.records → code_of result ≡ list_refusal max_inputs (entries_room pool.now.entries.now) (boxes_room pool.now.boxes.now) (tables_of pool.now.entries.now pool.now.boxes.now pool.now.counts) sub lists.now.inputs.now lists.now.outputs.now }
{
    if MAX_TX_INPUTS < count_records(lists.inputs, 5) {
        return Err(Refusal::TooManyInputs);
    }
    if lacks_room(pool, lists.inputs, 5, lists.outputs, 7) {
        return Err(Refusal::NoRoom);
    }
    if !inputs_resolved(&pool.boxes(), lists.inputs) {
        return Err(Refusal::InputNotFound);
    }
    if is_ahead(lists.outputs, sub.preheader) {
        return Err(Refusal::HeightAhead);
    }
    Ok(())
}

// ---- all of them

// Every test up to the verdict, in document 01's order. On any words it gives one of its numbers, and what it lets pass is as the later steps need it.
#[tactic(auto, unfolding(crate::specs::Checks::refusal_of))]
pub fn check(
    entries: &[u64],
    boxes: &[u64],
    cache: &[u64],
    mempool: Mempool,
    room: usize,
    standing: Standing,
    sub: Submission,
    lists: &Lists<'_>,
) -> Result<(), Refusal>
    requires { Testable entries.now boxes.now cache.now mempool }
    ensures refusals_value { among (code_of result) (0 ∷ refusals) ≡ true }
    ensures passed { code_of result ≡ 0 → Passed max_inputs entries.now boxes.now mempool room standing sub lists.now.inputs.now lists.now.outputs.now }
    ensures value { Indexed entries.now boxes.now cache.now mempool → code_of result ≡ refusal_of max_inputs (entries_room entries.now) (boxes_room boxes.now) mempool room (tables_of entries.now boxes.now mempool.counts) (cache_of cache.now mempool.cached) standing sub lists.now.inputs.now lists.now.outputs.now }
{
    let pool = Pool::new(entries, boxes, mempool.counts);
    let cache = ExpiringCache::new(cache, mempool.cached);
    check_call(mempool, room, sub, lists)?;
    check_state(&pool.entries(), &cache, mempool, standing, sub)?;
    check_lists(&pool, sub, lists)
}
