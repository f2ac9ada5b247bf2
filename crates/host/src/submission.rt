// A submission, exported. The peer records are lent as records.
ghost use Rattle.host.specs.Calls.{lent, Submitted};

use crate::codes::{lacks, put, refuse};
use crate::layout::{
    STATE_WORDS, SUBMISSION_WORDS, load_state, load_submission, store_left, too_few,
};
use peers::PeerRecord;
use pool_types::Refusal;
use process::process;

// Submits a transaction.
#[unsafe(no_mangle)]
pub extern "C" fn gunthyd_process(
    entries: &mut [u64],
    boxes: &mut [u64],
    cache: &mut [u64],
    peers: &mut [PeerRecord],
    answer: &mut [u64],
    state: &mut [u64],
    res: &mut [u64],
    sub: &[u64],
    inputs: &[u64],
    outputs: &[u64],
) -> u64
    ensures { Submitted
        (lent entries.old boxes.old cache.old peers.old answer.old)
        (lent entries.new boxes.new cache.new peers.new answer.new)
        state.old state.new res.old res.new sub.now inputs.now outputs.now result }
{
    if state.len() < STATE_WORDS {
        return refuse(res, Refusal::Lists);
    }
    if lacks(sub.len(), SUBMISSION_WORDS, res.len()) {
        return refuse(res, too_few(state));
    }
    let mempool = load_state(state);
    let given = load_submission(sub);
    let done = process(
        entries, boxes, cache, peers, answer, mempool, given, inputs, outputs,
    );
    let left = done.mempool;
    let outcome = done.outcome;
    store_left(state, left);
    put(res, outcome.into())
}
