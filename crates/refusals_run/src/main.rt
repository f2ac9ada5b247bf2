// Submissions that no line of poolrun can make: each line has a case and what the call answers. The lines of `stdout` are worked out by hand
// from document 01: "Order: 20, 1, 2, .. 7, 27, ..".
#![tactic(auto)]

use mempool::start;
use pool_types::{
    Counts, FeeStrategy, Mempool, MempoolConfig, Pass, ProcessingOutcome, Refusal, Source,
    Submission, Sums, Verdict,
};
use process::process_words;
use std::io;
use words::ids::Id;

// ---- the states

// A start: an empty pool of at most 3 transactions.
fn begin(entries: &[u64], boxes: &[u64]) -> Result<Mempool, Refusal> {
    // lent words, no heap
    let cache = [0u64; 23];
    let config = MempoolConfig {
        capacity: 3,
        min_fee: 1000,
        fee_strategy: FeeStrategy::FeePerByte,
        cleanup_interval: 30000,
        rebroadcast_count: 3,
        invalidation_ttl: 1800000,
        invalidation_capacity: 2,
        cost_per_block: 12000000,
        cost_per_peer_per_block: 10000000,
    };
    start(entries, boxes, &cache, 256, config)
}

// The same while a pass is open.
fn passing(mempool: Mempool) -> Mempool {
    let pass = mempool.pass;
    Mempool {
        pass: Pass { open: true, ..pass },
        ..mempool
    }
}

// The same with other counts.
fn counting(mempool: Mempool, pooled: usize, records: usize) -> Mempool {
    Mempool {
        counts: Counts { pooled, records },
        ..mempool
    }
}

// The same with so many peers charged.
fn charged(mempool: Mempool, peers: usize) -> Mempool {
    Mempool {
        sums: Sums {
            interblock_cost: 0,
            peers,
        },
        ..mempool
    }
}

// ---- a submission, and what is printed of it

fn submission(id: u64) -> Submission {
    Submission {
        time: 0,
        id: Id {
            a: 0,
            b: 0,
            c: 0,
            d: id,
        },
        size: 1024,
        preheader: 50,
        source: Source::Local,
        verdict: Verdict::Valid(500),
    }
}

fn show(rt: &impl Print, outcome: ProcessingOutcome) -> io::Result<()> {
    match outcome {
        ProcessingOutcome::Accepted => print!(rt; " accepted"),
        ProcessingOutcome::Replaced(_) => print!(rt; " replaced"),
        ProcessingOutcome::DoubleSpendLoser(_) => print!(rt; " refused 29"),
        ProcessingOutcome::VerdictNeeded => print!(rt; " verdict needed"),
        ProcessingOutcome::Declined(refusal) => print!(rt; " refused {}", u64::from(refusal)),
    }
}

// Submits a transaction with these lists, with so many words for the answer, and prints what is answered.
fn submit(
    rt: &impl Print,
    entries: &mut [u64],
    boxes: &mut [u64],
    case: &str,
    words: usize,
    mempool: Mempool,
    id: u64,
    inputs: &[u64],
    outputs: &[u64],
) -> io::Result<Mempool> {
    // lent words, no heap
    let mut cache = [0u64; 23];
    let mut peers = [0u64; 512];
    let mut answer = [0u64; 8];
    if 8 < words {
        return Ok(mempool);
    }
    let done = process_words(
        entries,
        boxes,
        &mut cache,
        &mut peers,
        &mut answer[..words],
        mempool,
        submission(id),
        inputs,
        outputs,
    );
    let outcome = done.outcome;
    let after = done.mempool;
    print!(rt; "{case}")?;
    show(rt, outcome)?;
    println!(rt; "")?;
    Ok(after)
}

// The transaction of the cases that are about the state: it spends box `id`, which is confirmed, and pays 2,000.
fn offer(
    rt: &impl Print,
    entries: &mut [u64],
    boxes: &mut [u64],
    case: &str,
    words: usize,
    mempool: Mempool,
    id: u64,
) -> io::Result<Mempool> {
    let inputs = [0, 0, 0, id, 1];
    let outputs = [0, 0, 1, id, 2000, 1, 50];
    submit(
        rt, entries, boxes, case, words, mempool, id, &inputs, &outputs,
    )
}

// ---- the cases

// 1: "a list is no whole number of records"
fn broken_inputs(
    rt: &impl Print,
    entries: &mut [u64],
    boxes: &mut [u64],
    case: &str,
    mempool: Mempool,
) -> io::Result<()> {
    let inputs = [0, 0, 0, 7, 1, 0];
    let outputs = [0, 0, 0, 11, 2000, 1, 50];
    submit(rt, entries, boxes, case, 4, mempool, 1, &inputs, &outputs)?;
    Ok(())
}

fn broken_outputs(
    rt: &impl Print,
    entries: &mut [u64],
    boxes: &mut [u64],
    case: &str,
    mempool: Mempool,
) -> io::Result<()> {
    let inputs = [0, 0, 0, 7, 1];
    let outputs = [0, 0, 0, 11, 2000, 1];
    submit(rt, entries, boxes, case, 4, mempool, 1, &inputs, &outputs)?;
    Ok(())
}

fn broken(
    rt: &impl Print,
    entries: &mut [u64],
    boxes: &mut [u64],
    empty: Mempool,
) -> io::Result<()> {
    broken_inputs(rt, entries, boxes, "an input of 6 words:", empty)?;
    broken_outputs(rt, entries, boxes, "an output of 6 words:", empty)
}

// 1: ".. or its counts disagree": with what is lent, 4 entries, 5,001 box records and 256 peer records
fn miscounted(
    rt: &impl Print,
    entries: &mut [u64],
    boxes: &mut [u64],
    empty: Mempool,
) -> io::Result<()> {
    let pooled = counting(empty, 5, 0);
    let recorded = counting(empty, 0, 5002);
    offer(rt, entries, boxes, "5 of 4 entries used:", 8, pooled, 1)?;
    offer(
        rt,
        entries,
        boxes,
        "5002 of 5001 records used:",
        8,
        recorded,
        1,
    )?;
    Ok(())
}

fn overcharged(
    rt: &impl Print,
    entries: &mut [u64],
    boxes: &mut [u64],
    empty: Mempool,
) -> io::Result<()> {
    let peers = charged(empty, 257);
    offer(rt, entries, boxes, "257 of 256 peers charged:", 8, peers, 1)?;
    Ok(())
}

// 2: "answer buffer below pooled + 1 ids", of four words each
fn first(
    rt: &impl Print,
    entries: &mut [u64],
    boxes: &mut [u64],
    empty: Mempool,
) -> io::Result<Mempool> {
    let none = offer(
        rt,
        entries,
        boxes,
        "none pooled, an answer of 3 words:",
        3,
        empty,
        1,
    )?;
    offer(
        rt,
        entries,
        boxes,
        "none pooled, an answer of 4 words:",
        4,
        none,
        1,
    )
}

fn second(rt: &impl Print, entries: &mut [u64], boxes: &mut [u64], one: Mempool) -> io::Result<()> {
    let still = offer(
        rt,
        entries,
        boxes,
        "one pooled, an answer of 7 words:",
        7,
        one,
        2,
    )?;
    offer(
        rt,
        entries,
        boxes,
        "one pooled, an answer of 8 words:",
        8,
        still,
        2,
    )?;
    Ok(())
}

// 20: "a pass is open", before all else
fn open(rt: &impl Print, entries: &mut [u64], boxes: &mut [u64], empty: Mempool) -> io::Result<()> {
    let open = passing(empty);
    offer(rt, entries, boxes, "a pass is open:", 4, open, 1)?;
    let unfit = counting(open, 5, 0);
    offer(
        rt,
        entries,
        boxes,
        "a pass is open, 5 of 4 entries used:",
        4,
        unfit,
        1,
    )?;
    broken_inputs(
        rt,
        entries,
        boxes,
        "a pass is open, an input of 6 words:",
        open,
    )
}

// 7: "more than 5,000 inputs"; 5,000 and an output find their box records
fn too_many(
    rt: &impl Print,
    entries: &mut [u64],
    boxes: &mut [u64],
    inputs: &[u64],
    empty: Mempool,
) -> io::Result<()> {
    let outputs = [0, 0, 0, 11, 2000, 1, 50];
    submit(
        rt,
        entries,
        boxes,
        "5001 inputs:",
        4,
        empty,
        1,
        inputs,
        &outputs,
    )?;
    Ok(())
}

fn one_less(
    rt: &impl Print,
    entries: &mut [u64],
    boxes: &mut [u64],
    inputs: &[u64],
    empty: Mempool,
) -> io::Result<()> {
    let outputs = [0, 0, 0, 11, 2000, 1, 50];
    if inputs.len() < 5 {
        return Ok(());
    }
    submit(
        rt,
        entries,
        boxes,
        "5000 inputs:",
        4,
        empty,
        1,
        &inputs[5..],
        &outputs,
    )?;
    Ok(())
}

// ---- all of them, on one store

fn unfit(
    rt: &impl Print,
    entries: &mut [u64],
    boxes: &mut [u64],
    empty: Mempool,
) -> io::Result<()> {
    broken(rt, entries, boxes, empty)?;
    miscounted(rt, entries, boxes, empty)?;
    overcharged(rt, entries, boxes, empty)
}

fn fitting(
    rt: &impl Print,
    entries: &mut [u64],
    boxes: &mut [u64],
    inputs: &[u64],
    empty: Mempool,
) -> io::Result<()> {
    let one = first(rt, entries, boxes, empty)?;
    second(rt, entries, boxes, one)?;
    open(rt, entries, boxes, empty)?;
    too_many(rt, entries, boxes, inputs, empty)?;
    one_less(rt, entries, boxes, inputs, empty)
}

fn run(
    rt: &impl Print,
    entries: &mut [u64],
    boxes: &mut [u64],
    inputs: &[u64],
    empty: Mempool,
) -> io::Result<()> {
    unfit(rt, entries, boxes, empty)?;
    fitting(rt, entries, boxes, inputs, empty)
}

// One store: room for 4 transactions, and for the records of 5,000 inputs and an output. The inputs are one confirmed box, 5,001 times.
fn main(rt: HostRuntime) -> io::Result<()> {
    // lent words, no heap
    let mut entries = [0u64; 74];
    let mut boxes = [0u64; 81278];
    let inputs = [1u64; 25005];
    match begin(&entries, &boxes) {
        Ok(empty) => run(&rt, &mut entries, &mut boxes, &inputs, empty),
        Err(refusal) => print!(rt; "start: refused {}", u64::from(refusal)),
    }
}
