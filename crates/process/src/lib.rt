// A submission, whole: its tests, its verdict, the charge, and what follows a valid one. The store is lent, the state goes in and out by value.
#![tactic(auto)]

mod peer_words;
mod submission;

ghost use Rattle.std.specs.Prelude.{◌≡◌, true, false, ◌/◌, ◌≤◌, min, length};
ghost use Rattle.words.specs.Lists.{pick};
ghost use Rattle.pool_types.specs.Outcomes.{processed_of, refused, written_of};
ghost use Rattle.peers.specs.Peers.{peers_of};
ghost use Rattle.peers.specs.Flat.{records};
ghost use Rattle.store.specs.Fits.{all_fit};
ghost use Rattle.store.specs.Spares.{lent, Spares};
ghost use Rattle.process.specs.Process.{standing_of};
ghost use Rattle.process.specs.Bills.{Payable, Paid};
ghost use Rattle.process.specs.Numbers.{of_submission};
ghost use Rattle.process.specs.Promises.{ProcessPromise};
ghost use Rattle.process.specs.Words.{SparesPeers};

use peer_words::{load_peers, store_peers};
use peers::{PeerRecord, Standing, charge_peer, find_peer};
use pool_types::{Done, Mempool, ProcessingOutcome, Source, Submission};
use store::unfit;
use submission::{Due, submit};

// The words of 256 peer records.
const PEER_WORDS: usize = 512;

// ---- the peer

// Where the peer of a submission stands among the records, on a count that may not fit them. A local one stands nowhere.
fn look_up(records: &[PeerRecord], mempool: Mempool, source: Source) -> Standing
    ensures { result ≡ standing_of source (peers_of records.now (min mempool.sums.peers (length records.now))) }
{
    match source {
        Source::Local => None,
        Source::Peer(peer) => find_peer(records, mempool.sums.peers.min(records.len()), peer),
    }
}

// Charges what is due to the record of its peer.
fn charge(records: &mut [PeerRecord], due: Option<Due>)
    requires { Payable records.old due }
    ensures { Paid records.old records.new due }
{
    if let Some(due) = due {
        charge_peer(records, due.used, due.standing, due.peer, due.cost);
    }
}

// ---- the call

// Submits a transaction: its peer is found, the rest goes by value, and what is due is charged.
pub fn process(
    entries: &mut [u64],
    boxes: &mut [u64],
    cache: &mut [u64],
    peers: &mut [PeerRecord],
    answer: &mut [u64],
    mempool: Mempool,
    sub: Submission,
    inputs: &[u64],
    outputs: &[u64],
) -> Done<ProcessingOutcome>
    ensures { ProcessPromise entries.old boxes.old cache.old peers.old mempool sub inputs.now outputs.now entries.new boxes.new cache.new peers.new answer.old answer.new result
        × (of_submission (processed_of result.outcome) ≡ true)
        × (all_fit entries.old boxes.old cache.old (length peers.old) mempool ≡ false → processed_of result.outcome ≡ refused (pick mempool.pass.open 20 1) 0)
        × Spares (processed_of result.outcome) (lent entries.old boxes.old cache.old peers.old answer.old mempool) (lent entries.new boxes.new cache.new peers.new answer.new result.mempool)
        × (written_of (processed_of result.outcome) ≤ length answer.old / 4) }
{
    let standing = look_up(peers, mempool, sub.source);
    let done = submit(
        entries,
        boxes,
        cache,
        answer,
        peers.len(),
        standing,
        mempool,
        sub,
        inputs,
        outputs,
    );
    charge(peers, done.due);
    Done {
        mempool: done.mempool,
        outcome: done.outcome,
    }
}

// ---- over flat words, for callers that hold the peer records so

// Submits a transaction, the peer records in words, two each; fewer than 256 of them are counts that do not fit.
pub fn process_words(
    entries: &mut [u64],
    boxes: &mut [u64],
    cache: &mut [u64],
    peers: &mut [u64],
    answer: &mut [u64],
    mempool: Mempool,
    sub: Submission,
    inputs: &[u64],
    outputs: &[u64],
) -> Done<ProcessingOutcome>
    ensures { ProcessPromise entries.old boxes.old cache.old (records peers.old) mempool sub inputs.now outputs.now entries.new boxes.new cache.new (records peers.new) answer.old answer.new result
        × (of_submission (processed_of result.outcome) ≡ true)
        × (all_fit entries.old boxes.old cache.old (length peers.old / 2) mempool ≡ false → processed_of result.outcome ≡ refused (pick mempool.pass.open 20 1) 0)
        × Spares (processed_of result.outcome) (lent entries.old boxes.old cache.old (records peers.old) answer.old mempool) (lent entries.new boxes.new cache.new (records peers.new) answer.new result.mempool)
        × (written_of (processed_of result.outcome) ≤ length answer.old / 4)
        × SparesPeers (processed_of result.outcome) peers.old peers.new }
{
    if peers.len() < PEER_WORDS {
        return Done {
            mempool,
            outcome: ProcessingOutcome::Declined(unfit(mempool.pass.open)),
        };
    }
    let mut records = load_peers(peers);
    let processed = process(
        entries,
        boxes,
        cache,
        &mut records,
        answer,
        mempool,
        sub,
        inputs,
        outputs,
    );
    store_peers(peers, records);
    processed
}
