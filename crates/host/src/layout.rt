// The state, a submission and a transaction that is given back, read from words that the C side holds; the state is stored back to them. Only this
// file knows the layout.
ghost use Rattle.std.specs.Prelude.{◌≡◌, not, ◌+◌, ◌≤◌, length, set};
ghost use Rattle.std.proofs.lemmas.List.Edits.{sets};
ghost use Rattle.words.specs.Lists.{pick};
ghost use Rattle.pool_types.specs.Refusals.{refusal_number};
ghost use Rattle.entries.specs.Layout.{cost_of};
ghost use Rattle.cleanup.specs.Post.{none_out};
ghost use Rattle.host.specs.Host.{strategy_of};
ghost use Rattle.host.specs.State.{low_half, config_of, counts_of, sums_of, pass_of, state_of, source_of, verdict_of, submission_of, left_words};
ghost use Rattle.host.specs.Stored.{flag_word, half_word, pass_words, Stored};
ghost use Rattle.host.specs.Starts.{first_word, Begun};
ghost use Rattle.host.specs.Changes.{tx_of};

use pool_types::{
    Counts, FeeStrategy, Mempool, MempoolConfig, Pass, Refusal, Source, Submission, Sums, Verdict,
};
use returns::UnconfirmedTx;
use store::unfit;
use words::ids::{get_id, put_id};

pub const SETTINGS_WORDS: usize = 9;

pub const STATE_WORDS: usize = 25;

pub const SUBMISSION_WORDS: usize = 11;

pub const TX_WORDS: usize = 13;

// ---- single words

// 0 is by byte, any other by cycle.
pub fn strategy_of(word: u64) -> FeeStrategy
    ensures { result ≡ strategy_of word }
{
    if word == 0 {
        return FeeStrategy::FeePerByte;
    }
    FeeStrategy::FeePerCycle
}

// The low 32 bits.
fn low_half(word: u64) -> u32
    ensures { result ≡ low_half word }
{
    (word % 4294967296) as u32
}

// ---- the state

pub fn load_config(s: &[u64]) -> MempoolConfig
    requires { 9 ≤ length s.now }
    ensures { result ≡ config_of s.now }
{
    let fee_strategy = strategy_of(s[2]);
    MempoolConfig {
        capacity: s[0] as usize,
        min_fee: s[1],
        fee_strategy,
        cleanup_interval: s[3],
        rebroadcast_count: s[4] as usize,
        invalidation_ttl: s[5],
        invalidation_capacity: s[6] as usize,
        cost_per_block: s[7],
        cost_per_peer_per_block: s[8],
    }
}

fn load_counts(s: &[u64]) -> Counts
    requires { 25 ≤ length s.now }
    ensures { result ≡ counts_of s.now }
{
    Counts {
        pooled: s[9] as usize,
        records: s[10] as usize,
    }
}

fn load_sums(s: &[u64]) -> Sums
    requires { 25 ≤ length s.now }
    ensures { result ≡ sums_of s.now }
{
    Sums {
        interblock_cost: s[12],
        peers: s[13] as usize,
    }
}

pub fn load_pass(s: &[u64]) -> Pass
    requires { 25 ≤ length s.now }
    ensures { result ≡ pass_of s.now }
{
    let candidate = get_id(s, 16);
    let preheader = low_half(s[22]);
    Pass {
        open: s[14] != 0,
        out: s[15] != 0,
        candidate,
        time: s[20],
        limit: s[21],
        preheader,
        spent: s[23],
    }
}

pub fn load_state(s: &[u64]) -> Mempool
    requires { 25 ≤ length s.now }
    ensures { result ≡ state_of s.now }
{
    let config = load_config(s);
    let counts = load_counts(s);
    let sums = load_sums(s);
    let pass = load_pass(s);
    Mempool {
        config,
        counts,
        cached: s[11] as usize,
        sums,
        pass,
    }
}

// What too few words of another list are answered with: an open pass is named first here too, ..
pub fn too_few(s: &[u64]) -> Refusal
    requires { 25 ≤ length s.now }
    ensures { refusal_number result ≡ pick (pass_of s.now).«open» 20 1 }
{
    let pass = load_pass(s);
    unfit(pass.open)
}

// .. of next that there is none, ..
pub fn too_few_of_next(s: &[u64]) -> Refusal
    requires { 25 ≤ length s.now }
    ensures { refusal_number result ≡ pick (not (pass_of s.now).«open») 21 1 }
{
    let pass = load_pass(s);
    if pass.open {
        Refusal::Lists
    } else {
        Refusal::NoPass
    }
}

// .. and of answer that no candidate is out.
pub fn too_few_of_answer(s: &[u64]) -> Refusal
    requires { 25 ≤ length s.now }
    ensures { refusal_number result ≡ pick (none_out (pass_of s.now)) 21 1 }
{
    let pass = load_pass(s);
    if pass.open && pass.out {
        Refusal::Lists
    } else {
        Refusal::NoPass
    }
}

// What a submission changes: the counts, ..
fn store_counts(s: &mut [u64], counts: Counts)
    requires { 25 ≤ length s.old }
    ensures { s.new ≡ set (set s.old 9 counts.pooled) 10 counts.records }
{
    s[9] = counts.pooled as u64;
    s[10] = counts.records as u64;
}

// .. the charges, ..
fn store_sums(s: &mut [u64], sums: Sums)
    requires { 25 ≤ length s.old }
    ensures { s.new ≡ set (set s.old 12 sums.interblock_cost) 13 sums.peers }
{
    s[12] = sums.interblock_cost;
    s[13] = sums.peers as u64;
}

// .. and all.
pub fn store_left(s: &mut [u64], mempool: Mempool)
    requires { 25 ≤ length s.old }
    ensures { s.new ≡ left_words s.old mempool.counts mempool.cached mempool.sums }
{
    let counts = mempool.counts;
    store_counts(s, counts);
    s[11] = mempool.cached as u64;
    let sums = mempool.sums;
    store_sums(s, sums);
}

// A flag's word for C, where `was` stood: it stays where it says the same, ..
fn flag_word(was: u64, b: bool) -> u64
    ensures { result ≡ flag_word was b }
{
    if !b {
        return 0;
    }
    if was == 0 {
        return 1;
    }
    was
}

// .. and so does the word of 32 bits.
fn half_word(was: u64, n: u32) -> u64
    ensures { result ≡ half_word was n }
{
    if low_half(was) == n {
        return was;
    }
    n as u64
}

// A call of a pass changes the pass too, ..
fn store_pass(s: &mut [u64], pass: Pass)
    requires { 25 ≤ length s.old }
    ensures s_after { s.new ≡ sets s.old 14 (pass_words s.old pass) }
    ensures preheader_value { low_half pass.preheader ≡ pass.preheader }
{
    let candidate = pass.candidate;
    let open = flag_word(s[14], pass.open);
    let out = flag_word(s[15], pass.out);
    let preheader = half_word(s[22], pass.preheader);
    s[14] = open;
    s[15] = out;
    put_id(s, 16, candidate);
    s[20] = pass.time;
    s[21] = pass.limit;
    s[22] = preheader;
    s[23] = pass.spent;
}

// .. and so all.
pub fn store_state(s: &mut [u64], mempool: Mempool)
    requires { 25 ≤ length s.old }
    ensures { Stored s.old s.new mempool }
{
    store_left(s, mempool);
    store_pass(s, mempool.pass);
}

// ---- a start

// A word of the state of an empty pool: its setting, or 0.
fn first_word(settings: &[u64], i: usize) -> u64
    requires { 9 ≤ length settings.now }
    ensures { result ≡ first_word settings.now i }
{
    if i < SETTINGS_WORDS {
        return settings[i];
    }
    0
}

pub fn begin(s: &mut [u64], settings: &[u64])
    requires in_bounds { 25 ≤ length s.old }
    requires in_bounds_2 { 9 ≤ length settings.now }
    ensures { Begun settings.now s.old s.new }
{
    for i in 0..STATE_WORDS {
        s[i] = first_word(settings, i);
    }
}

// ---- a submission

// 0 is local, any other a peer.
fn source_of(kind: u64, peer: u64) -> Source
    ensures { result ≡ source_of kind peer }
{
    if kind == 0 {
        return Source::Local;
    }
    Source::Peer(peer)
}

// 0 is absent, 1 invalid, any other valid.
pub fn verdict_of(kind: u64, cost: u64) -> Verdict
    ensures { result ≡ verdict_of kind cost }
{
    if kind == 0 {
        return Verdict::Absent;
    }
    if kind == 1 {
        return Verdict::Invalid;
    }
    Verdict::Valid(cost)
}

pub fn load_submission(s: &[u64]) -> Submission
    requires { 11 ≤ length s.now }
    ensures { result ≡ submission_of s.now }
{
    let id = get_id(s, 1);
    let preheader = low_half(s[6]);
    let source = source_of(s[7], s[8]);
    let verdict = verdict_of(s[9], s[10]);
    Submission {
        time: s[0],
        id,
        size: s[5],
        preheader,
        source,
        verdict,
    }
}

// ---- a transaction that is given back

// 0 is unmeasured, any other word measured.
fn measured_of(kind: u64, cost: u64) -> Option<u64>
    ensures { result ≡ cost_of kind cost }
{
    if kind == 0 {
        return None;
    }
    Some(cost)
}

pub fn load_tx(s: &[u64]) -> UnconfirmedTx
    requires { 13 ≤ length s.now }
    ensures { result ≡ tx_of s.now }
{
    let id = get_id(s, 0);
    let cost = low_half(s[6]);
    let validation_cost = measured_of(s[7], s[8]);
    let source = source_of(s[11], s[12]);
    UnconfirmedTx {
        id,
        fee: s[4],
        size: s[5],
        cost,
        validation_cost,
        created: s[9],
        last_checked: s[10],
        source,
    }
}
