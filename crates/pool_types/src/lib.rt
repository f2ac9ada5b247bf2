// What the pool's calls take, hand on and answer.
#![tactic(auto)]

ghost use Rattle.std.specs.Prelude.{◌≡◌};

use words::ids::Id;

// How a transaction is weighed: by its size, or by its cost.
#[derive(Clone, Copy)]
pub enum FeeStrategy {
    FeePerByte,
    FeePerCycle,
}

// The settings, fixed at the start, in the order of the Rust's and without its reward delay.
#[derive(Clone, Copy)]
pub struct MempoolConfig {
    pub capacity: usize,
    pub min_fee: u64,
    pub fee_strategy: FeeStrategy,
    pub cleanup_interval: u64,
    pub rebroadcast_count: usize,
    pub invalidation_ttl: u64,
    pub invalidation_capacity: usize,
    pub cost_per_block: u64,
    pub cost_per_peer_per_block: u64,
}

// How much of the lent tables is in use: entries, and slots of box records, vacated ones included. Only crate `pool` changes it.
#[derive(Clone, Copy)]
pub struct Counts {
    pub pooled: usize,
    pub records: usize,
}

// What remote submissions were charged since the last block: the block sum, and how many peers have a record.
#[derive(Clone, Copy)]
pub struct Sums {
    pub interblock_cost: u64,
    pub peers: usize,
}

// A pass: `open` from open to ended, `out` while a candidate waits for its answer. Flags and no Option: the host holds these words, and each is handed
// back as it came.
#[derive(Clone, Copy)]
pub struct Pass {
    pub open: bool,
    pub out: bool,
    pub candidate: Id,
    pub time: u64,
    pub limit: u64,
    pub preheader: u32,
    pub spent: u64,
}

// The state that goes through every call: handed in by value, and handed back.
#[derive(Clone, Copy)]
pub struct Mempool {
    pub config: MempoolConfig,
    pub counts: Counts,
    pub cached: usize,
    pub sums: Sums,
    pub pass: Pass,
}

// What the validator said of a transaction.
#[derive(Clone, Copy)]
pub enum Verdict {
    Valid(u64),
    Invalid,
    Absent,
}

// Who submitted it. The Rust's names: an Option of a number would not say who is meant where there is none.
#[derive(Clone, Copy)]
pub enum Source {
    Local,
    Peer(u64),
}

// A submission, but for its lists of inputs and outputs.
#[derive(Clone, Copy)]
pub struct Submission {
    pub time: u64,
    pub id: Id,
    pub size: u64,
    pub preheader: u32,
    pub source: Source,
    pub verdict: Verdict,
}

// The lists of a submission, or of a transaction that is given back: its inputs and its outputs.
#[derive(Clone, Copy)]
pub struct Lists<'a> {
    pub inputs: &'a [u64],
    pub outputs: &'a [u64],
}

// ---- refusals

// Why a call is refused, with the number that the rules have for it. `specs/Refusals.antt` has each number's sentence.
#[derive(Clone, Copy, Debug, PartialEq, Eq)]
pub enum Refusal {
    // the lists, or counts that do not fit the store
    Lists = 1,
    AnswerTooSmall = 2,
    Size = 3,
    FeeSum = 4,
    Cost = 5,
    Settings = 6,
    TooManyInputs = 7,
    HeightAhead = 8,
    InvalidVerdict = 9,
    FeeBelowMinimum = 10,
    Bins = 11,
    PassOpen = 20,
    NoPass = 21,
    HeldInvalid = 22,
    AlreadyPooled = 23,
    BlockLimit = 24,
    PeerLimit = 25,
    NoPeerRecord = 26,
    NoRoom = 27,
    InputNotFound = 28,
    DoubleSpend = 29,
    PoolFull = 30,
}

impl From<Refusal> for u64 {
    ghost use Rattle.pool_types.specs.Refusals.{refusal_number};

    ghost from_gives = { λ refusal number. number ≡ refusal_number refusal };

    fn from(refusal: Refusal) -> u64 {
        refusal as u64
    }
}

// ---- what a changing call hands back: the state, and what it answers

#[derive(Clone, Copy)]
pub struct Done<O> {
    pub mempool: Mempool,
    pub outcome: O,
}

// ---- outcomes. `specs/Outcomes.antt` gives number and values of every case. A start answers the state of an empty pool, a return, an invalidation and an
// opening nothing, a block and a query that writes a list how many ids, entries or pairs were written, a query for a number the number.

#[derive(Clone, Copy, Debug, PartialEq, Eq)]
pub enum ProcessingOutcome {
    Accepted,
    // so many ids were written: the conflicts, then the evicted
    Replaced(usize),
    // the conflicts' ids were written
    DoubleSpendLoser(usize),
    VerdictNeeded,
    Declined(Refusal),
}

#[derive(Clone, Copy, Debug, PartialEq, Eq)]
pub enum NextOutcome {
    Candidate(Id),
    Ended(u64),
}

#[derive(Clone, Copy, Debug, PartialEq, Eq)]
pub enum AnswerOutcome {
    InputMissing(Id),
    AnswerNeeded,
    FoundInvalid(Id),
    FoundValid(Id),
}

// A pooled transaction as a query tells it.
#[derive(Clone, Copy, Debug, PartialEq, Eq)]
pub struct PooledTx {
    pub id: Id,
    pub weight: u64,
    pub base: u64,
}
