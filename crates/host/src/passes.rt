// A pass in three calls, and a rebroadcast, exported.
ghost use Rattle.host.specs.State.{verdict_of};
ghost use Rattle.host.specs.Passes.{OpenCall, NextCall, AnswerCall, RebroadcastCall};

use crate::codes::{RESULT_WORDS, list_code, put, refusal_code, refuse};
use crate::layout::{
    STATE_WORDS, load_state, store_state, too_few, too_few_of_answer, too_few_of_next, verdict_of,
};
use cleanup::rebroadcast::select_for_rebroadcast;
use cleanup::{answer, next, open};
use pool_types::Refusal;

// Opens a pass.
#[unsafe(no_mangle)]
pub extern "C" fn gunthyd_open(
    state: &mut [u64],
    res: &mut [u64],
    time: u64,
    limit: u64,
    preheader: u32,
) -> u64
    ensures { OpenCall state.old state.new res.old res.new time limit preheader result }
{
    if state.len() < STATE_WORDS {
        return refuse(res, Refusal::Lists);
    }
    if res.len() < RESULT_WORDS {
        return refuse(res, too_few(state));
    }
    let mempool = load_state(state);
    let opened = open(mempool, time, limit, preheader);
    let left = opened.mempool;
    let outcome = opened.outcome;
    store_state(state, left);
    put(res, outcome.into())
}

// The next candidate of a pass, or that it has ended.
#[unsafe(no_mangle)]
pub extern "C" fn gunthyd_next(entries: &[u64], state: &mut [u64], res: &mut [u64]) -> u64
    ensures { NextCall entries.now state.old state.new res.old res.new result }
{
    if state.len() < STATE_WORDS {
        return refuse(res, Refusal::Lists);
    }
    if res.len() < RESULT_WORDS {
        return refuse(res, too_few_of_next(state));
    }
    let mempool = load_state(state);
    let offered = next(entries, mempool);
    let left = offered.mempool;
    let outcome = offered.outcome;
    store_state(state, left);
    put(res, outcome.into())
}

// Answers what is known of the candidate.
#[unsafe(no_mangle)]
pub extern "C" fn gunthyd_answer(
    entries: &mut [u64],
    boxes: &mut [u64],
    cache: &mut [u64],
    state: &mut [u64],
    res: &mut [u64],
    flags: &[u64],
    verdict: u64,
    cost: u64,
) -> u64
    ensures { AnswerCall entries.old entries.new boxes.old boxes.new cache.old cache.new state.old state.new res.old res.new flags.now (verdict_of verdict cost) result }
{
    if state.len() < STATE_WORDS {
        return refuse(res, Refusal::Lists);
    }
    if res.len() < RESULT_WORDS {
        return refuse(res, too_few_of_answer(state));
    }
    let mempool = load_state(state);
    let said = verdict_of(verdict, cost);
    let answered = answer(entries, boxes, cache, mempool, flags, said);
    let left = answered.mempool;
    let outcome = answered.outcome;
    store_state(state, left);
    put(res, outcome.into())
}

// The transactions to send again: their ids.
#[unsafe(no_mangle)]
pub extern "C" fn gunthyd_select_for_rebroadcast(
    entries: &[u64],
    boxes: &[u64],
    answer: &mut [u64],
    state: &[u64],
    confirmed: &[u64],
) -> u64
    ensures { RebroadcastCall entries.now boxes.now answer.old answer.new state.now confirmed.now result }
{
    if state.len() < STATE_WORDS {
        return refusal_code(Refusal::Lists);
    }
    let mempool = load_state(state);
    list_code(select_for_rebroadcast(entries, boxes, answer, mempool, confirmed))
}
