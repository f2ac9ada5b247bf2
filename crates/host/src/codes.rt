// What a call answers the C side: one number for each outcome, and the result record, which says the rest.
ghost use Rattle.std.specs.Prelude.{◌≡◌, ◌-◌};
ghost use Rattle.words.specs.Ids.{id_of};
ghost use Rattle.words.specs.Sums.{cap};
ghost use Rattle.pool_types.specs.Refusals.{refusal_number};
ghost use Rattle.pool_types.specs.Outcomes.{refused, processed_of, done_of, next_of, answered_of, tested_of, listed_of};
ghost use Rattle.host.specs.Codes.{four_of, sheet, result_of};
ghost use Rattle.host.specs.Results.{told_words, lacking, Puts, Says};
ghost use Rattle.host.specs.Queries.{query_of};

use pool_types::{AnswerOutcome, NextOutcome, ProcessingOutcome, Refusal};
use words::ids::Id;
use words::rows::put_words;

pub const RESULT_WORDS: usize = 16;

// What a result record says: the number that C sees, how many ids were written, the id spoken of, and a sum.
#[derive(Clone, Copy)]
pub struct Told {
    code: u64,
    written: u64,
    id: Id,
    sum: u64,
}

impl Told {
    // The words of the record. The last nine are kept for later.
    fn words(&self) -> [u64; RESULT_WORDS]
        ensures { result ≡ told_words self.now }
    {
        let id = self.id;
        [
            self.code,
            self.written,
            id.a,
            id.b,
            id.c,
            id.d,
            self.sum,
            0,
            0,
            0,
            0,
            0,
            0,
            0,
            0,
            0,
        ]
    }
}

// ---- by what there is to say

// Of no id.
pub fn plain(code: u64, written: u64, sum: u64) -> Told
    ensures { told_words result ≡ sheet code written (four_of 0) sum }
{
    let id = Id {
        a: 0,
        b: 0,
        c: 0,
        d: 0,
    };
    Told {
        code,
        written,
        id,
        sum,
    }
}

// A refusal's number.
fn declined(refusal: Refusal) -> Told
    ensures { told_words result ≡ sheet (refusal_number refusal) 0 (four_of 0) 0 }
{
    plain(refusal.into(), 0, 0)
}

// Of an id alone.
fn of_id(code: u64, id: Id) -> Told
    ensures { told_words result ≡ sheet code 0 (four_of (id_of id)) 0 }
{
    Told {
        code,
        written: 0,
        id,
        sum: 0,
    }
}

// ---- by outcome

impl From<ProcessingOutcome> for Told {
    ghost from_gives = { λ outcome told. told_words told ≡ result_of (processed_of outcome) };

    fn from(outcome: ProcessingOutcome) -> Told {
        match outcome {
            ProcessingOutcome::Accepted => plain(0, 0, 0),
            ProcessingOutcome::Replaced(n) => plain(100, n as u64, 0),
            ProcessingOutcome::DoubleSpendLoser(n) => plain(29, n as u64, 0),
            ProcessingOutcome::VerdictNeeded => plain(101, 0, 0),
            ProcessingOutcome::Declined(refusal) => declined(refusal),
        }
    }
}

// A return, an invalidation, an opening.
impl From<Result<(), Refusal>> for Told {
    ghost from_gives = { λ outcome told. told_words told ≡ result_of (done_of outcome) };

    fn from(outcome: Result<(), Refusal>) -> Told {
        match outcome {
            Ok(()) => plain(0, 0, 0),
            Err(refusal) => declined(refusal),
        }
    }
}

// A block.
impl From<Result<usize, Refusal>> for Told {
    ghost from_gives = { λ outcome told. told_words told ≡ result_of (listed_of outcome) };

    fn from(outcome: Result<usize, Refusal>) -> Told {
        match outcome {
            Ok(n) => plain(100, n as u64, 0),
            Err(refusal) => declined(refusal),
        }
    }
}

impl From<Result<NextOutcome, Refusal>> for Told {
    ghost from_gives = { λ outcome told. told_words told ≡ result_of (next_of outcome) };

    fn from(outcome: Result<NextOutcome, Refusal>) -> Told {
        match outcome {
            Ok(next) => match next {
                NextOutcome::Candidate(id) => of_id(102, id),
                NextOutcome::Ended(sum) => plain(103, 0, sum),
            },
            Err(refusal) => declined(refusal),
        }
    }
}

impl From<Result<AnswerOutcome, Refusal>> for Told {
    ghost from_gives = { λ outcome told. told_words told ≡ result_of (answered_of outcome) };

    fn from(outcome: Result<AnswerOutcome, Refusal>) -> Told {
        match outcome {
            Ok(answer) => match answer {
                AnswerOutcome::InputMissing(id) => of_id(104, id),
                AnswerOutcome::AnswerNeeded => plain(101, 0, 0),
                AnswerOutcome::FoundInvalid(id) => of_id(105, id),
                AnswerOutcome::FoundValid(id) => of_id(106, id),
            },
            Err(refusal) => declined(refusal),
        }
    }
}

// ---- the record

// Whether there are too few words of a list or of the record.
pub fn lacks(have: usize, need: usize, room: usize) -> bool
    ensures { result ≡ lacking have need room }
{
    if have < need {
        return true;
    }
    room < RESULT_WORDS
}

// Fills the record, where there is room for it, and answers its number.
pub fn put(res: &mut [u64], told: Told) -> u64
    ensures { Puts res.old res.new told result }
{
    if res.len() < RESULT_WORDS {
        return told.code;
    }
    put_words(res, 0, &told.words());
    told.code
}

// A refusal.
pub fn refuse(res: &mut [u64], refusal: Refusal) -> u64
    ensures { Says res.old res.new (refused (refusal_number refusal) 0) result }
{
    put(res, declined(refusal))
}

// ---- queries

// Refusal n is 2^64−1−n.
pub fn refusal_code(refusal: Refusal) -> u64
    ensures { result ≡ cap - refusal_number refusal }
{
    u64::MAX - u64::from(refusal)
}

pub fn test_code(outcome: Result<bool, Refusal>) -> u64
    ensures { result ≡ query_of (tested_of outcome) }
{
    match outcome {
        Ok(said) => u64::from(said),
        Err(refusal) => refusal_code(refusal),
    }
}

pub fn list_code(outcome: Result<usize, Refusal>) -> u64
    ensures { result ≡ query_of (listed_of outcome) }
{
    match outcome {
        Ok(k) => k as u64,
        Err(refusal) => refusal_code(refusal),
    }
}
