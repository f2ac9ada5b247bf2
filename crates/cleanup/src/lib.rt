// A pass over the pool, in three calls: open it, ask for the next candidate, answer what is known of it; and the transactions to send again. The
// store is plain words that the caller lends, the state goes in and out by value.
#![tactic(auto)]

pub mod rebroadcast;

ghost use Rattle.std.specs.Prelude.{Some, ◌≡◌, true, false, not, List, [], ◌∷◌, ℕ, ◌+◌, ◌≤◌, ◌<◌, max, leb, length};
ghost use Rattle.words.specs.Lists.{pick};
ghost use Rattle.words.specs.Find.{found};
ghost use Rattle.words.specs.Ids.{id_of};
ghost use Rattle.pool_types.specs.Refusals.{code_of};
ghost use Rattle.pool_types.specs.Outcomes.{refused, done_of, next_of, answered_of};
ghost use Rattle.arguments.specs.Arguments.{ahead_of};
ghost use Rattle.expiring_cache.specs.Layout.{cache_room};
ghost use Rattle.peers.specs.declared.PeerRecord.{PeerRecord};
ghost use Rattle.entries.specs.Entries.{stamped};
ghost use Rattle.entries.specs.Layout.{EntriesOk, EntriesKept, entry_at, entries_of, entries_room};
ghost use Rattle.entries.specs.Views.{KeptIn, entries_in};
ghost use Rattle.boxes.specs.Records.{inputs_of};
ghost use Rattle.boxes.specs.Among.{among};
ghost use Rattle.boxes.specs.Layout.{BoxesOk, boxes_of};
ghost use Rattle.boxes.specs.Index.{BoxesKept};
ghost use Rattle.pool.specs.Pool.{PoolFits, PoolKept, tables_of, remove_tx};
ghost use Rattle.store.specs.World.{World, world_of};
ghost use Rattle.store.specs.Fits.{Testable, Kept, cache_fits};
ghost use Rattle.store.specs.Spares.{Spares, lent};
ghost use Rattle.cleanup.specs.Passes.{pass_of, opened, due, offered, measured, previous_cost, answered_with, weighed};
ghost use Rattle.cleanup.specs.Post.{PassPost, PassOnly, repassed, none_out, answer_code, Stepped};
ghost use Rattle.cleanup.specs.Promises.{OpenPromise, NextPromise, AnswerPromise};
ghost use Rattle.cleanup.specs.Numbers.{of_open, of_next, of_answer};
ghost use Rattle.cleanup.specs.Search.{looked, Sought};

use arguments::height_order;
use boxes::views::Boxes;
use entries::fields::entries_room;
use entries::table::stamp_entry;
use entries::views::Entries;
use indexes::inputs::count_inputs;
use indexes::resolved::answer_resolved;
use pool_types::{AnswerOutcome, Done, Mempool, NextOutcome, Pass, Refusal, Verdict};
use returns::{remember, take_out};
use store::fits_cache;
use words::ids::Id;

// ---- open

// The id of no transaction in particular, where there is no candidate.
fn no_id() -> Id
    ensures { id_of result ≡ 0 }
{
    Id {
        a: 0,
        b: 0,
        c: 0,
        d: 0,
    }
}

// Opens a pass at a time, with a limit of its cost, against a preheader's height.
#[tactic(auto, unfolding(crate::specs::Numbers::of_open, pool_types::specs::Outcomes::done_of, crate::specs::Passes::opened))]
pub fn open(mempool: Mempool, time: u64, limit: u64, preheader: u32) -> Done<Result<(), Refusal>>
    ensures open_promise { OpenPromise mempool time limit preheader result.mempool (done_of result.outcome) }
    ensures outcome_value { of_open result.outcome ≡ true }
    ensures by_index { (e b k : List ℕ) (ys : List PeerRecord) (a : List ℕ) → Spares (done_of result.outcome) (lent e b k ys a mempool) (lent e b k ys a result.mempool) }
    ensures pass_only { (w : World) → PassOnly mempool result.mempool (done_of result.outcome) (opened w (pass_of mempool.pass) time limit preheader) }
{
    if mempool.pass.open {
        return Done {
            mempool,
            outcome: Err(Refusal::PassOpen),
        };
    }
    let pass = Pass {
        open: true,
        out: false,
        candidate: no_id(),
        time,
        limit,
        preheader,
        spent: 0,
    };
    Done {
        mempool: Mempool { pass, ..mempool },
        outcome: Ok(()),
    }
}

// ---- next

// Whether more than the interval passed since the last check.
#[tactic(auto, unfolding(crate::specs::Passes::due))]
fn is_due(interval: u64, time: u64, checked: u64) -> bool
    ensures { result ≡ due interval time checked }
{
    interval < time.saturating_sub(checked)
}

// Whether the sum has reached the limit.
fn has_reached(spent: u64, limit: u64) -> bool
    ensures { result ≡ leb limit spent }
{
    limit <= spent
}

// Whether an output is ahead of the preheader: heights are read as signed.
fn is_ahead(key: u64, preheader: u32) -> bool
    ensures { result ≡ ahead_of key preheader }
{
    height_order(preheader as u64) < key
}

// What an entry is to the pass: passed over, the place where it stops because its sum has reached the limit, or the candidate.
#[derive(Clone, Copy)]
enum Look {
    Over,
    Stop,
    Take,
}

// The limit is tested after the due test, and the height after the limit.
#[tactic(auto, unfolding(crate::specs::Search::looked))]
fn look_at(entries: &Entries<'_>, i: usize, interval: u64, pass: Pass) -> Look
    requires { i < entries.now.pooled }
    ensures { result ≡ looked interval (pass_of pass) (entry_at entries.now.words.now i) }
{
    if !is_due(interval, pass.time, entries.last_checked_at(i)) {
        return Look::Over;
    }
    if has_reached(pass.spent, pass.limit) {
        return Look::Stop;
    }
    if is_ahead(entries.height_key_at(i), pass.preheader) {
        return Look::Over;
    }
    Look::Take
}

// The place of the first due entry in priority order, those ahead in height being passed over; nowhere if the sum has reached the limit. A loop that
// yields its answer by `break`, a form that the scope names, and no `for`.
fn first_due(entries: &Entries<'_>, interval: u64, pass: Pass) -> Option<usize>
    ensures { Sought entries.now.words.now entries.now.pooled interval (pass_of pass) result }
{
    let mut i = 0;
    loop {
        if entries.len() <= i {
            break None;
        }
        match look_at(entries, i, interval, pass) {
            Look::Over => {
                i += 1;
            }
            Look::Stop => {
                break None;
            }
            Look::Take => {
                break Some(i);
            }
        }
    }
}

// The candidate goes out.
#[tactic(auto, unfolding(crate::specs::Numbers::of_next, pool_types::specs::Outcomes::next_of, crate::specs::Passes::offered))]
fn offer(mempool: Mempool, id: Id) -> Done<Result<NextOutcome, Refusal>>
    ensures pass_only { (w : World) → PassOnly mempool result.mempool (next_of result.outcome) (offered (id_of id ∷ []) w (pass_of mempool.pass)) }
    ensures outcome_value { of_next result.outcome ≡ true }
{
    let pass = Pass {
        out: true,
        candidate: id,
        ..mempool.pass
    };
    Done {
        mempool: Mempool { pass, ..mempool },
        outcome: Ok(NextOutcome::Candidate(id)),
    }
}

// The pass is closed.
#[tactic(auto, unfolding(crate::specs::Numbers::of_next, pool_types::specs::Outcomes::next_of, crate::specs::Passes::offered))]
fn end_pass(mempool: Mempool) -> Done<Result<NextOutcome, Refusal>>
    ensures pass_only { (w : World) → PassOnly mempool result.mempool (next_of result.outcome) (offered [] w (pass_of mempool.pass)) }
    ensures outcome_value { of_next result.outcome ≡ true }
{
    let pass = Pass {
        open: false,
        out: false,
        candidate: no_id(),
        time: 0,
        limit: 0,
        preheader: 0,
        spent: 0,
    };
    Done {
        mempool: Mempool { pass, ..mempool },
        outcome: Ok(NextOutcome::Ended(mempool.pass.spent)),
    }
}

// The next candidate, or the one that waits for its answer; or that the pass has ended. On words and counts that no start and calls left it is
// safe, and answers with a number of this call.
#[tactic(auto, unfolding(crate::specs::Numbers::of_next, pool_types::specs::Outcomes::next_of))]
pub fn next(entries: &[u64], mempool: Mempool) -> Done<Result<NextOutcome, Refusal>>
    ensures next_promise { NextPromise entries.now mempool result.mempool (next_of result.outcome) }
    ensures outcome_value { of_next result.outcome ≡ true }
    ensures by_index { (b k : List ℕ) (ys : List PeerRecord) (a : List ℕ) → Spares (next_of result.outcome)
        (lent entries.now b k ys a mempool) (lent entries.now b k ys a result.mempool) }
    ensures outcome_value_2 { leb mempool.counts.pooled (entries_room entries.now) ≡ false → next_of result.outcome ≡ refused (pick (not mempool.pass.open) 21 1) 0 }
    ensures mempool_value { result.mempool ≡ repassed mempool result.mempool.pass }
{
    let pass = mempool.pass;
    if !pass.open {
        return Done {
            mempool,
            outcome: Err(Refusal::NoPass),
        };
    }
    let n = mempool.counts.pooled;
    if entries_room(entries) < n {
        return Done {
            mempool,
            outcome: Err(Refusal::Lists),
        };
    }
    if pass.out {
        return Done {
            mempool,
            outcome: Ok(NextOutcome::Candidate(pass.candidate)),
        };
    }
    let entries = Entries::new(entries, n);
    match first_due(&entries, mempool.config.cleanup_interval, pass) {
        Some(i) => offer(mempool, entries.id_at(i)),
        None => end_pass(mempool),
    }
}

// ---- answer: what is tested

// Whether no candidate waits for its answer.
fn none_out(pass: Pass) -> bool
    ensures { result ≡ none_out pass }
{
    !(pass.open && pass.out)
}

// Refusals 21 and 1: the first that is met. Counts that do not fit what is lent are refused as another number of flags is.
#[tactic(auto, unfolding(crate::specs::Numbers::of_answer, crate::specs::Post::answer_code))]
fn check_answer(
    entries: &[u64],
    boxes: &[u64],
    cache: &[u64],
    mempool: Mempool,
    flags: &[u64],
) -> Result<(), Refusal>
    ensures refusal_value { of_answer result ≡ true }
    ensures fits { code_of result ≡ 0 → Testable entries.now boxes.now cache.now mempool × (max mempool.config.invalidation_capacity 1 ≤ cache_room cache.now) }
    ensures value { cache_fits entries.now boxes.now cache.now mempool ≡ true → BoxesKept boxes.now mempool.counts.records
        → code_of result ≡ answer_code (none_out mempool.pass) (length flags.now) (length (inputs_of (id_of mempool.pass.candidate) (boxes_of boxes.now mempool.counts.records))) }
    ensures unfit { cache_fits entries.now boxes.now cache.now mempool ≡ false → code_of result ≡ pick (none_out mempool.pass) 21 1 }
{
    if none_out(mempool.pass) {
        return Err(Refusal::NoPass);
    }
    if !fits_cache(entries, boxes, cache, mempool) {
        return Err(Refusal::Lists);
    }
    let boxes = Boxes::new(boxes, mempool.counts.records);
    if flags.len() != count_inputs(&boxes, mempool.pass.candidate) {
        return Err(Refusal::Lists);
    }
    Ok(())
}

// ---- answer: what is done

// The cost that the last validation of a transaction measured, 0 if none did.
fn previous_cost(entries: &Entries<'_>, id: Id) -> u64
    ensures { KeptIn entries.now → result ≡ previous_cost (found (λ x. x.id) (id_of id) (entries_in entries.now)) }
{
    match entries.find(id) {
        Some(i) => entries.validation_cost_at(i).unwrap_or(0),
        None => 0,
    }
}

// The candidate is answered, and this cost is added to the sum.
#[tactic(auto, unfolding(crate::specs::Passes::answered_with))]
fn answered_with(pass: Pass, cost: u64) -> Pass
    ensures { pass_of result ≡ answered_with cost (pass_of pass) }
{
    let spent = pass.spent.saturating_add(cost);
    Pass {
        out: false,
        spent,
        ..pass
    }
}

// The candidate leaves the pool with its records, and its previous cost is added.
fn answer_out(entries: &mut [u64], boxes: &mut [u64], mempool: Mempool) -> Mempool
    requires { PoolFits entries.old boxes.old mempool.counts }
    ensures { PoolKept entries.old boxes.old mempool.counts → Stepped entries.new boxes.new mempool result
        (remove_tx (id_of mempool.pass.candidate) (tables_of entries.old boxes.old mempool.counts))
        (answered_with (previous_cost (found (λ x. x.id) (id_of mempool.pass.candidate) (entries_of entries.old mempool.counts.pooled))) (pass_of mempool.pass)) }
{
    let answering = mempool.pass;
    let id = answering.candidate;
    let cost = previous_cost(&Entries::new(entries, mempool.counts.pooled), id);
    let left = take_out(entries, boxes, mempool, id);
    let pass = answered_with(answering, cost);
    Mempool { pass, ..left }
}

// The candidate is stamped with the cost that was measured and the pass's time, and that cost is added. No box changes, so that the entries alone
// are lent: over a `PoolMut` it would be no plainer.
fn stamp(entries: &mut [u64], mempool: Mempool, cost: u64) -> Mempool
    requires { EntriesOk entries.old mempool.counts.pooled }
    ensures { (b : List ℕ) → BoxesOk b mempool.counts.records → PoolKept entries.old b mempool.counts → Stepped entries.new b mempool result
        (record { entries = stamped (id_of mempool.pass.candidate) (Some cost) mempool.pass.time (entries_of entries.old mempool.counts.pooled); boxes = boxes_of b mempool.counts.records })
        (answered_with cost (pass_of mempool.pass)) }
{
    let answering = mempool.pass;
    let id = answering.candidate;
    stamp_entry(
        entries,
        mempool.counts.pooled,
        id,
        Some(cost),
        answering.time,
    );
    let pass = answered_with(answering, cost);
    Mempool { pass, ..mempool }
}

// All inputs are found: the verdict decides.
#[tactic(auto, unfolding(crate::specs::Numbers::of_answer, pool_types::specs::Outcomes::answered_of))]
fn weigh(
    entries: &mut [u64],
    boxes: &mut [u64],
    cache: &mut [u64],
    mempool: Mempool,
    verdict: Verdict,
) -> Done<Result<AnswerOutcome, Refusal>>
    requires testable { Testable entries.old boxes.old cache.old mempool }
    requires invalidation_capacity_bound { max mempool.config.invalidation_capacity 1 ≤ cache_room cache.old }
    ensures pass_post { (ys : List PeerRecord) → Kept entries.old boxes.old cache.old ys mempool →
        PassPost mempool result.mempool (answered_of result.outcome) entries.new boxes.new cache.new ys
        (weighed mempool.config (world_of entries.old boxes.old cache.old ys mempool) (pass_of mempool.pass) verdict) }
    ensures outcome_value { of_answer result.outcome ≡ true }
    ensures spares { (ys : List PeerRecord) (a : List ℕ) → Spares (answered_of result.outcome)
        (lent entries.old boxes.old cache.old ys a mempool)
        (lent entries.new boxes.new cache.new ys a result.mempool) }
{
    let id = mempool.pass.candidate;
    match verdict {
        Verdict::Absent => Done {
            mempool,
            outcome: Ok(AnswerOutcome::AnswerNeeded),
        },
        Verdict::Invalid => {
            let known = remember(cache, mempool, mempool.pass.time, id);
            let after = answer_out(entries, boxes, known);
            Done {
                mempool: after,
                outcome: Ok(AnswerOutcome::FoundInvalid(id)),
            }
        }
        Verdict::Valid(cost) => {
            let after = stamp(entries, mempool, cost);
            Done {
                mempool: after,
                outcome: Ok(AnswerOutcome::FoundValid(id)),
            }
        }
    }
}

// What is known of the candidate: one flag 'confirmed' for each of its inputs, in order, and the verdict. Safe as `next` is.
#[tactic(auto, unfolding(crate::specs::Numbers::of_answer, pool_types::specs::Outcomes::answered_of))]
pub fn answer(
    entries: &mut [u64],
    boxes: &mut [u64],
    cache: &mut [u64],
    mempool: Mempool,
    flags: &[u64],
    verdict: Verdict,
) -> Done<Result<AnswerOutcome, Refusal>>
    ensures answer_promise { AnswerPromise entries.old boxes.old cache.old mempool flags.now verdict entries.new boxes.new cache.new result.mempool (answered_of result.outcome) }
    ensures outcome_value { of_answer result.outcome ≡ true }
    ensures spares { (ys : List PeerRecord) (a : List ℕ) → Spares (answered_of result.outcome)
        (lent entries.old boxes.old cache.old ys a mempool)
        (lent entries.new boxes.new cache.new ys a result.mempool) }
    ensures outcome_value_2 { cache_fits entries.old boxes.old cache.old mempool ≡ false → answered_of result.outcome ≡ refused (pick (none_out mempool.pass) 21 1) 0 }
{
    if let Err(refusal) = check_answer(entries, boxes, cache, mempool, flags) {
        return Done {
            mempool,
            outcome: Err(refusal),
        };
    }
    let id = mempool.pass.candidate;
    let found = Boxes::new(boxes, mempool.counts.records);
    if !answer_resolved(&found, id, flags) {
        let after = answer_out(entries, boxes, mempool);
        return Done {
            mempool: after,
            outcome: Ok(AnswerOutcome::InputMissing(id)),
        };
    }
    weigh(entries, boxes, cache, mempool, verdict)
}
