// The pool's calls for C and Rust. A number passes as itself, a slice as a pointer and a length (in words, or in records): a slice named below is two
// arguments, in this order. Nothing is required of the caller but that each slice lies in memory of its own; on words and lengths of any kind a
// call is safe, and answers.
//
//     typedef uint64_t u64;
//     typedef struct { u64 peer, cost; } PeerRecord;
//     u64 gunthyd_start(const u64 *settings, size_t settings_len, u64 time, const u64 *entries, size_t entries_len,
//                       const u64 *boxes, size_t boxes_len, const u64 *cache, size_t cache_len, size_t peers,
//                       u64 *stats, size_t stats_len, u64 *state, size_t state_len, u64 *result, size_t result_len);
//     u64 gunthyd_process(u64 *entries, size_t entries_len, u64 *boxes, size_t boxes_len, u64 *cache, size_t cache_len,
//                         PeerRecord *peers, size_t peers_len, u64 *answer, size_t answer_len, u64 *state, size_t state_len,
//                         u64 *result, size_t result_len, const u64 *sub, size_t sub_len, const u64 *inputs, size_t inputs_len,
//                         const u64 *outputs, size_t outputs_len);
//     u64 gunthyd_return_to_pool(u64 *entries, size_t entries_len, u64 *boxes, size_t boxes_len, u64 *state, size_t state_len,
//                                u64 *result, size_t result_len, const u64 *tx, size_t tx_len, const u64 *inputs, size_t inputs_len,
//                                const u64 *outputs, size_t outputs_len);
//     u64 gunthyd_invalidate(u64 *entries, size_t entries_len, u64 *boxes, size_t boxes_len, u64 *cache, size_t cache_len,
//                            u64 *state, size_t state_len, u64 *result, size_t result_len, u64 time, u64 a, u64 b, u64 c, u64 d);
//     u64 gunthyd_apply_block_at(u64 *entries, size_t entries_len, u64 *boxes, size_t boxes_len, u64 *cache, size_t cache_len,
//                                u64 *answer, size_t answer_len, u64 *state, size_t state_len, u64 *stats, size_t stats_len,
//                                u64 *result, size_t result_len, u64 time,
//                                const u64 *transactions, size_t transactions_len, const u64 *inputs, size_t inputs_len);
//     u64 gunthyd_open(u64 *state, size_t state_len, u64 *result, size_t result_len, u64 time, u64 limit, uint32_t preheader);
//     u64 gunthyd_next(const u64 *entries, size_t entries_len, u64 *state, size_t state_len, u64 *result, size_t result_len);
//     u64 gunthyd_answer(u64 *entries, size_t entries_len, u64 *boxes, size_t boxes_len, u64 *cache, size_t cache_len,
//                        u64 *state, size_t state_len, u64 *result, size_t result_len, const u64 *flags, size_t flags_len,
//                        u64 verdict, u64 cost);
//     u64 gunthyd_select_for_rebroadcast(const u64 *entries, size_t entries_len, const u64 *boxes, size_t boxes_len,
//                                        u64 *answer, size_t answer_len, const u64 *state, size_t state_len,
//                                        const u64 *confirmed, size_t confirmed_len);
//     u64 gunthyd_len(const u64 *state, size_t state_len);
//     u64 gunthyd_contains(const u64 *entries, size_t entries_len, const u64 *cache, size_t cache_len, const u64 *state, size_t state_len,
//                          u64 time, u64 a, u64 b, u64 c, u64 d);
//     u64 gunthyd_spending_tx(const u64 *entries, size_t entries_len, const u64 *boxes, size_t boxes_len, const u64 *state, size_t state_len,
//                             u64 *answer, size_t answer_len, u64 a, u64 b, u64 c, u64 d);
//     u64 gunthyd_top(const u64 *entries, size_t entries_len, const u64 *state, size_t state_len, u64 *answer, size_t answer_len, size_t limit);
//     u64 gunthyd_recommended_fee(const u64 *state, size_t state_len, const u64 *stats, size_t stats_len, u64 *answer, size_t answer_len,
//                                 uint32_t minutes, uint32_t size);
//     u64 gunthyd_expected_wait_ms_at(const u64 *entries, size_t entries_len, const u64 *state, size_t state_len, const u64 *stats, size_t stats_len,
//                                     u64 *answer, size_t answer_len, u64 time, u64 fee, uint32_t size);
//     u64 gunthyd_pool_histogram_at(const u64 *entries, size_t entries_len, const u64 *state, size_t state_len, u64 *answer, size_t answer_len,
//                                   u64 time, uint32_t bins, u64 longest);
//
// Two that are no calls of document 01 serve oracle/bench:
//
//     u64 gunthyd_fee_per_factor(u64 fee, u64 size, u64 cost, u64 by_cycle);
//     u64 gunthyd_find_entry(const u64 *entries, size_t entries_len, size_t pooled, u64 a, u64 b, u64 c, u64 d);
//
// a, b, c, d are an id's four words, the first bytes first. Lent tables: 18 E + 2 words for E entries, 13 S + 2 for R box
// records and 7 S + 2 for K cached ids, where S is 5/4 of R or K, rounded up, and 256 peer records (docs/DECISIONS.md, D1). The last word of
// each of the first three is the key of its buckets: a number that peers do not know, put there before the start (D9c).
// Lists: inputs of a submission 5 words each, the id and a flag, 0 for not confirmed; of a return and a block 4; outputs 7 of a submission, 5 of a
// return; transactions of a block 5 (D3, D4); flags, one word for each input of the candidate; confirmed boxes 4. A verdict and its cost are two words as in a submission.
//
//     settings, 9 words                                 a submission, 11 words
//      0 capacity               5 invalidation_ttl       0 time
//      1 min_fee                6 invalidation_capacity  1 to 4 id
//      2 strategy: 0 by byte    7 cost_per_block         5 size
//      3 cleanup_interval       8 cost_per_peer_per_     6 preheader (low 32 bits)
//      4 rebroadcast_count        block                  7 source: 0 local, else a peer
//                                                        8 peer
//     state, 25 words                                    9 verdict: 0 absent, 1 invalid, else valid
//      0 to 8 the settings     14 pass open             10 cost
//      9 pooled                15 candidate out
//     10 box records           16 to 19 its id          result, 16 words
//     11 cached                20 pass time              0 the number that the call answers
//     12 interblock_cost       21 limit                  1 ids written
//     13 peers in use          22 preheader (low 32      2 to 5 the id of a candidate, missing, invalid or valid
//                                 bits)                  6 the sum of an ended pass
//                              23 spent                  7 to 15 0, kept for later
//                              24 kept for later
//
//     the statistics, 124 words                         a transaction that is given back, 13 words
//       0 to 59 counts by minute                         0 to 3 id                7 validation cost: 0 unmeasured
//      60 to 119 sums of bases by minute                 4 fee                    8 its number
//     120 window_start                                   5 size                   9 created
//     121 taken                                          6 cost (low 32 bits)    10 last checked
//     122 snap_time                                                              11 source: 0 local, else a peer
//     123 snap_taken                                                             12 peer
//
//     answers of calls that change the pool             answers of queries
//     0 ready, accepted, returned, invalidated, opened  len: the number pooled; top: how many entries were written
//     100 replaced, applied: ids written                contains: 1 yes, 0 no
//     101 verdict needed                                spending_tx: 1 written to the first 6 words, 0 none
//     102 candidate: its id                             recommended_fee, expected_wait_ms_at: 1 written to the first word
//     103 ended: the sum                                pool_histogram_at: how many pairs were written
//     104 an input is missing, 105 invalid, 106 valid   select_for_rebroadcast: how many ids were written
//     n refusal n; at 29 ids written                    2^64-1-n refusal n
//
// Too few words of a state are refusal 1. So are too few of settings, statistics, a submission, a transaction or a result; but an open pass is named
// first there, with 20, and that there is none, or no candidate out, with 21. Nothing changes then but the result, where there is one. A start leaves
// the settings in words 0 to 8 of the state, clears the others and empties the statistics, their window at `time`; open, next and answer change 9 to
// 23; any other changing call changes 9 to 13, and no other word of the state. Every changing call fills the result. A refusal leaves every other word
// that is lent; but for what 9, 10, 29 and 30 say.
#![tactic(auto)]

pub mod changes;
pub mod codes;
pub mod fee_queries;
pub mod layout;
pub mod passes;
pub mod queries;
pub mod statistics;
pub mod submission;

ghost use Rattle.std.specs.Prelude.{◌≡◌, ◌<◌};
ghost use Rattle.weight.specs.Weight.{fee_per_factor};
ghost use Rattle.words.specs.Sums.{cap};
ghost use Rattle.words.specs.Ids.{id_of};
ghost use Rattle.entries.specs.Layout.{entries_room, EntriesKept};
ghost use Rattle.host.specs.Host.{strategy_of, rank_of};
ghost use Rattle.host.specs.Starts.{scant, Started};

use crate::codes::{lacks, plain, put, refuse};
use crate::layout::{SETTINGS_WORDS, STATE_WORDS, begin, load_config, strategy_of};
use crate::statistics::{STATS_WORDS, store_stats};
use entries::fields::entries_room;
use entries::views::Entries;
use mempool::start;
use pool_types::Refusal;
use stats::FeeStats;
use weight::fee_per_factor;
use words::ids::Id;

// ---- by numbers alone

// The base weight of a transaction.
#[unsafe(no_mangle)]
pub extern "C" fn gunthyd_fee_per_factor(fee: u64, size: u64, cost: u64, by_cycle: u64) -> u64
    ensures { result ≡ fee_per_factor (strategy_of by_cycle) fee size cost }
{
    fee_per_factor(fee, size, cost, strategy_of(by_cycle))
}

// The rank of a transaction among the first `pooled` entries of a table, 0 for the heaviest; 2^64−1 where it is not pooled, or where the
// table has no room for so many.
#[unsafe(no_mangle)]
pub extern "C" fn gunthyd_find_entry(
    entries: &[u64],
    pooled: usize,
    a: u64,
    b: u64,
    c: u64,
    d: u64,
) -> u64
    ensures value { (entries_room entries.now < pooled → result ≡ cap) × ((result ≡ cap → ⊥) → result < pooled) }
    ensures value_2 { EntriesKept entries.now pooled → result ≡ rank_of entries.now pooled (id_of (record { a = a; b = b; c = c; d = d })) }
{
    if entries_room(entries) < pooled {
        return u64::MAX;
    }
    let place = Entries::new(entries, pooled).find(Id { a, b, c, d });
    match place {
        Some(i) => i as u64,
        None => u64::MAX,
    }
}

// ---- a start

// Whether there are too few words of settings, state, statistics or result.
fn too_short(settings: &[u64], stats: &[u64], state: &[u64], res: &[u64]) -> bool
    ensures { result ≡ scant settings.now stats.now state.now res.now }
{
    if settings.len() < SETTINGS_WORDS {
        return true;
    }
    if state.len() < STATE_WORDS {
        return true;
    }
    lacks(stats.len(), STATS_WORDS, res.len())
}

// Starts an empty pool under these settings, and its statistics at `time`.
#[unsafe(no_mangle)]
pub extern "C" fn gunthyd_start(
    settings: &[u64],
    time: u64,
    entries: &[u64],
    boxes: &[u64],
    cache: &[u64],
    peers: usize,
    stats: &mut [u64],
    state: &mut [u64],
    res: &mut [u64],
) -> u64
    ensures { Started time settings.now entries.now boxes.now cache.now peers
        stats.old stats.new state.old state.new res.old res.new result }
{
    if too_short(settings, stats, state, res) {
        return refuse(res, Refusal::Lists);
    }
    let config = load_config(settings);
    let outcome = start(entries, boxes, cache, peers, config);
    match outcome {
        Ok(_) => {
            begin(state, settings);
            store_stats(stats, FeeStats::new(time));
            put(res, plain(0, 0, 0))
        }
        Err(refusal) => refuse(res, refusal),
    }
}
