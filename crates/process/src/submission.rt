// A submission by value: all of it but the peer records. What is due from a peer is handed back, for the caller to charge.
ghost use Rattle.std.specs.Prelude.{◌≡◌, List, ℕ, ◌≤◌, ◌/◌, min, length};
ghost use Rattle.peers.specs.Peers.{peers_of};
ghost use Rattle.peers.specs.declared.PeerRecord.{PeerRecord};
ghost use Rattle.pool.specs.Lent.{Same};
ghost use Rattle.pool.specs.Pool.{tables_of};
ghost use Rattle.checks.specs.Passed.{Passed};
ghost use Rattle.admit.specs.Admit.{admit_spec};
ghost use Rattle.process.specs.Process.{standing_of, admitted, judged};
ghost use Rattle.store.specs.World.{world_of};
ghost use Rattle.store.specs.Fits.{Fits};
ghost use Rattle.process.specs.Bills.{bill_of, uncharged};
ghost use Rattle.process.specs.Post.{result_of};
ghost use Rattle.process.specs.Claims.{Ready, Sure, Claims, Offers};

use admit::admission::{admit, cost_of};
use checks::check;
use expiring_cache::ExpiringCacheMut;
use peers::{Standing, used_after};
use pool::lent::PoolMut;
use pool_types::{Lists, Mempool, ProcessingOutcome, Refusal, Source, Submission, Sums, Verdict};
use store::{fits_all, unfit};

// What is due from a peer, which stands so among the records in use.
#[derive(Clone, Copy)]
pub struct Due {
    pub used: usize,
    pub standing: Standing,
    pub peer: u64,
    pub cost: u64,
}

// The sums after a charge, and what is due.
#[derive(Clone, Copy)]
struct Bill {
    sums: Sums,
    due: Option<Due>,
}

// What a submission comes to: the state as it will be once what is due was charged, and what it answers.
#[derive(Clone, Copy)]
pub struct Submitted {
    pub mempool: Mempool,
    pub outcome: ProcessingOutcome,
    pub due: Option<Due>,
}

impl Submitted {
    // Nothing is due.
    fn uncharged(mempool: Mempool, outcome: ProcessingOutcome) -> Submitted
        ensures { result ≡ uncharged mempool outcome }
    {
        Submitted {
            mempool,
            outcome,
            due: None,
        }
    }
}

// ---- the charge

// A remote submission is charged to the block sum and to its peer's record, a local one to nobody.
fn charged(sums: Sums, source: Source, standing: Standing, cost: u64) -> Bill
    requires { sums.peers ≤ 256 }
    ensures { result ≡ bill_of sums source standing cost }
{
    match source {
        Source::Local => Bill { sums, due: None },
        Source::Peer(peer) => Bill {
            sums: Sums {
                interblock_cost: sums.interblock_cost.saturating_add(cost),
                peers: used_after(standing, sums.peers),
            },
            due: Some(Due {
                used: sums.peers,
                standing,
                peer,
                cost,
            }),
        },
    }
}

// ---- the verdict

// A valid verdict: the charge stands, whatever the admission comes to.
fn valid(
    pool: &mut PoolMut<'_>,
    answer: &mut [u64],
    mempool: Mempool,
    standing: Standing,
    sub: Submission,
    cost: u64,
    lists: &Lists<'_>,
) -> Submitted
    requires peers_bound { mempool.sums.peers ≤ 256 }
    requires passed { (pool.old.counts ≡ mempool.counts) × Passed 5000 pool.old.entries.now pool.old.boxes.now mempool (length answer.old / 4) standing sub lists.now.inputs.now lists.now.outputs.now }
    ensures same { Same pool.old pool.new }
    ensures claims { (k : List ℕ) (ys : List PeerRecord) → Fits pool.old.entries.now pool.old.boxes.now k ys mempool →
        standing ≡ standing_of sub.source (peers_of ys mempool.sums.peers) →
        Claims (Sure pool.old.entries.now pool.old.boxes.now k ys mempool sub) pool.old.entries.now pool.old.boxes.now k mempool result pool.new.entries.now pool.new.boxes.now k ys answer.old answer.new
        (admitted (admit_spec 500 (length answer.old / 4) mempool.config (tables_of pool.old.entries.now pool.old.boxes.now mempool.counts) sub cost lists.now.inputs.now lists.now.outputs.now)
        (world_of pool.old.entries.now pool.old.boxes.now k ys mempool) sub cost) }
{
    let bill = charged(mempool.sums, sub.source, standing, cost_of(cost, sub.size));
    let outcome = admit(pool, mempool.config, sub, cost, lists, answer);
    Submitted {
        mempool: Mempool {
            counts: pool.counts,
            sums: bill.sums,
            ..mempool
        },
        outcome,
        due: bill.due,
    }
}

// What the verdict of a submission that passed its tests comes to. Pool and cache are made of what is lent here, where it is known which is changed.
fn judge(
    entries: &mut [u64],
    boxes: &mut [u64],
    cache: &mut [u64],
    answer: &mut [u64],
    mempool: Mempool,
    standing: Standing,
    sub: Submission,
    lists: &Lists<'_>,
) -> Submitted
    requires ready { Ready entries.old boxes.old cache.old mempool }
    requires passed { Passed 5000 entries.old boxes.old mempool (length answer.old / 4) standing sub lists.now.inputs.now lists.now.outputs.now }
    ensures { (ys : List PeerRecord) → Fits entries.old boxes.old cache.old ys mempool →
        standing ≡ standing_of sub.source (peers_of ys mempool.sums.peers) →
        Claims (Sure entries.old boxes.old cache.old ys mempool sub) entries.old boxes.old cache.old mempool result entries.new boxes.new cache.new ys answer.old answer.new
        (judged 500 (length answer.old / 4) mempool (world_of entries.old boxes.old cache.old ys mempool) sub lists.now.inputs.now lists.now.outputs.now sub.verdict) }
{
    match sub.verdict {
        Verdict::Absent => Submitted::uncharged(mempool, ProcessingOutcome::VerdictNeeded),
        Verdict::Invalid => {
            let mut known = ExpiringCacheMut::new(cache, mempool.cached);
            known.insert(mempool.config.invalidation_capacity, sub.time, sub.id);
            Submitted::uncharged(
                Mempool {
                    cached: known.len(),
                    ..mempool
                },
                ProcessingOutcome::Declined(Refusal::InvalidVerdict),
            )
        }
        Verdict::Valid(cost) => {
            let mut pool = PoolMut {
                entries,
                boxes,
                counts: mempool.counts,
            };
            valid(&mut pool, answer, mempool, standing, sub, cost, lists)
        }
    }
}

// ---- the call

// A submission whose peer was found to stand so among the records, of which there are so many.
pub fn submit(
    entries: &mut [u64],
    boxes: &mut [u64],
    cache: &mut [u64],
    answer: &mut [u64],
    records: usize,
    standing: Standing,
    mempool: Mempool,
    sub: Submission,
    inputs: &[u64],
    outputs: &[u64],
) -> Submitted
    ensures { (ys : List PeerRecord) → length ys ≡ records → standing ≡ standing_of sub.source (peers_of ys (min mempool.sums.peers records)) →
        Offers entries.old boxes.old cache.old mempool result entries.new boxes.new cache.new ys answer.old answer.new
        (result_of entries.old boxes.old cache.old ys answer.old mempool sub inputs.now outputs.now) }
{
    if !fits_all(entries, boxes, cache, records, mempool) {
        let refusal = unfit(mempool.pass.open);
        return Submitted::uncharged(mempool, ProcessingOutcome::Declined(refusal));
    }
    let lists = Lists { inputs, outputs };
    let tested = check(
        entries,
        boxes,
        cache,
        mempool,
        answer.len() / 4,
        standing,
        sub,
        &lists,
    );
    match tested {
        Err(first) => Submitted::uncharged(mempool, ProcessingOutcome::Declined(first)),
        Ok(()) => judge(
            entries, boxes, cache, answer, mempool, standing, sub, &lists,
        ),
    }
}
