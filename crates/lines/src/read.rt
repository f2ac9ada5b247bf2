// The forms of poolrun, each read from behind its first word. A form's fields are read one behind the other, and it is that form exactly if its list
// then ends.
ghost use Rattle.std.specs.Prelude.{length, false, unwrap_or, MatchOption};
ghost use Rattle.lines.specs.Fields.{FieldAt, NoField};
ghost use Rattle.lines.specs.Forms.{FormAt, strategies, pool_of, invalidate_of, open_of, top_of, contains_of, spending_of, fee_of, wait_of, histogram_of, plain_of, ListsAt, tx_of, return_of, block_of, answer_of, rebroadcast_of, measure_of, query_of, change_of, tx_one, tx_two, return_one, return_two, block_one, block_two, answer_one, rebroadcast_one, AnswerAt, ReadAt, worded, one_of, two_of};
ghost use Rattle.lines.specs.declared.read.Form.TheVariants.{Unread};

use crate::blocks::block_field;
use crate::fields::{choice, id, if_ends, number_or, number32, number64, same_word, verdict_field};
use crate::items::{Records, list_field};
use forms::text::{read_line, word};
use pool_types::{FeeStrategy, Verdict};
use words::ids::Id;

// The settings, in the order of `MempoolConfig`.
#[derive(Clone, Copy)]
pub struct PoolForm {
    pub capacity: u64,
    pub min_fee: u64,
    pub strategy: FeeStrategy,
    pub interval: u64,
    pub rebroadcast: u64,
    pub ttl: u64,
    pub cache: u64,
    pub block_limit: u64,
    pub peer_limit: u64,
}

// A submission. `inputs` and `outputs` count the words that its lists have in the two lent slices.
#[derive(Clone, Copy)]
pub struct TxForm {
    pub time: u64,
    pub id: Id,
    // the number of a peer, or absent for local
    pub peer: Option<u64>,
    pub size: u64,
    pub preheader: u32,
    pub inputs: usize,
    pub outputs: usize,
    pub verdict: Verdict,
}

// A return. `inputs` and `outputs` count words, as in a submission.
#[derive(Clone, Copy)]
pub struct ReturnForm {
    pub id: Id,
    pub fee: u64,
    pub size: u64,
    pub cost: u32,
    pub measured: Option<u64>,
    pub created: u64,
    pub checked: u64,
    pub peer: Option<u64>,
    pub inputs: usize,
    pub outputs: usize,
}

// A block. `transactions` counts the words of its records in the first slice, `inputs` those of all their boxes in the second.
#[derive(Clone, Copy)]
pub struct BlockForm {
    pub time: u64,
    pub transactions: usize,
    pub inputs: usize,
}

#[derive(Clone, Copy)]
pub enum Form {
    Pool(PoolForm),
    Tx(TxForm),
    Return(ReturnForm),
    Block(BlockForm),
    // time, id
    Invalidate(u64, Id),
    // time, limit, preheader
    Open(u64, u64, u32),
    Next,
    // words of flags, verdict
    Answer(usize, Verdict),
    // words of box ids
    Rebroadcast(usize),
    List,
    // limit
    Top(u64),
    Len,
    // time, id
    Contains(u64, Id),
    // box
    Spending(Id),
    // minutes, size
    Fee(u32, u32),
    // time, fee, size
    Wait(u64, u64, u32),
    // time, bins, longest
    Histogram(u64, u32, u64),
    Charges,
    Written,
    // no form: poolrun answers it too, so that it is one of the things that a line can say
    Unread,
}

// A form of one word.
fn plain(rest: &[u8], form: Form) -> Option<Form>
    ensures { FormAt (plain_of form) rest.now (unwrap_or result Unread) }
{
    if_ends(rest, form)
}

fn invalidate(rest: &[u8]) -> Option<Form>
    ensures { FormAt invalidate_of rest.now (unwrap_or result Unread) }
{
    let (time, rest) = number64(rest)?;
    let (id, rest) = id(rest, false)?;
    if_ends(rest, Form::Invalidate(time, id))
}

fn open_pass(rest: &[u8]) -> Option<Form>
    ensures { FormAt open_of rest.now (unwrap_or result Unread) }
{
    let (time, rest) = number64(rest)?;
    let (limit, rest) = number64(rest)?;
    let (preheader, rest) = number32(rest)?;
    if_ends(rest, Form::Open(time, limit, preheader))
}

fn top(rest: &[u8]) -> Option<Form>
    ensures { FormAt top_of rest.now (unwrap_or result Unread) }
{
    let (limit, rest) = number64(rest)?;
    if_ends(rest, Form::Top(limit))
}

fn contains(rest: &[u8]) -> Option<Form>
    ensures { FormAt contains_of rest.now (unwrap_or result Unread) }
{
    let (time, rest) = number64(rest)?;
    let (id, rest) = id(rest, false)?;
    if_ends(rest, Form::Contains(time, id))
}

fn spending(rest: &[u8]) -> Option<Form>
    ensures { FormAt spending_of rest.now (unwrap_or result Unread) }
{
    let (id, rest) = id(rest, false)?;
    if_ends(rest, Form::Spending(id))
}

fn fee(rest: &[u8]) -> Option<Form>
    ensures { FormAt fee_of rest.now (unwrap_or result Unread) }
{
    let (minutes, rest) = number32(rest)?;
    let (size, rest) = number32(rest)?;
    if_ends(rest, Form::Fee(minutes, size))
}

fn wait(rest: &[u8]) -> Option<Form>
    ensures { FormAt wait_of rest.now (unwrap_or result Unread) }
{
    let (time, rest) = number64(rest)?;
    let (fee, rest) = number64(rest)?;
    let (size, rest) = number32(rest)?;
    if_ends(rest, Form::Wait(time, fee, size))
}

fn histogram(rest: &[u8]) -> Option<Form>
    ensures { FormAt histogram_of rest.now (unwrap_or result Unread) }
{
    let (time, rest) = number64(rest)?;
    let (bins, rest) = number32(rest)?;
    let (longest, rest) = number64(rest)?;
    if_ends(rest, Form::Histogram(time, bins, longest))
}

// What a fee is reckoned by.
fn strategy(rest: &[u8]) -> Option<(FeeStrategy, &[u8])>
    ensures { MatchOption result (NoField strategies rest.now false) (λ p. FieldAt strategies rest.now false p.0 p.1.now) }
{
    choice(
        rest,
        false,
        b"byte",
        FeeStrategy::FeePerByte,
        b"cycle",
        FeeStrategy::FeePerCycle,
    )
}

fn pool(rest: &[u8]) -> Option<Form>
    ensures { FormAt pool_of rest.now (unwrap_or result Unread) }
{
    let (capacity, rest) = number64(rest)?;
    let (min_fee, rest) = number64(rest)?;
    let (strategy, rest) = strategy(rest)?;
    let (interval, rest) = number64(rest)?;
    let (rebroadcast, rest) = number64(rest)?;
    let (ttl, rest) = number64(rest)?;
    let (cache, rest) = number64(rest)?;
    let (block_limit, rest) = number64(rest)?;
    let (peer_limit, rest) = number64(rest)?;
    if_ends(
        rest,
        Form::Pool(PoolForm {
            capacity,
            min_fee,
            strategy,
            interval,
            rebroadcast,
            ttl,
            cache,
            block_limit,
            peer_limit,
        }),
    )
}

fn tx(rest: &[u8], first: &mut [u64], second: &mut [u64]) -> Option<Form>
    ensures { ListsAt tx_of rest.now first.old first.new second.old second.new tx_one (tx_two (length first.old)) (unwrap_or result Unread) }
{
    let (time, rest) = number64(rest)?;
    let (id, rest) = id(rest, false)?;
    let (peer, rest) = number_or(rest, b"local")?;
    let (size, rest) = number64(rest)?;
    let (preheader, rest) = number32(rest)?;
    let (inputs, rest) = list_field(rest, 7, Records::Inputs, first)?;
    let (outputs, rest) = list_field(rest, 7, Records::Outputs, second)?;
    let (verdict, rest) = verdict_field(rest, 7)?;
    if_ends(
        rest,
        Form::Tx(TxForm {
            time,
            id,
            peer,
            size,
            preheader,
            inputs,
            outputs,
            verdict,
        }),
    )
}

fn take_back(rest: &[u8], first: &mut [u64], second: &mut [u64]) -> Option<Form>
    ensures { ListsAt return_of rest.now first.old first.new second.old second.new return_one (return_two (length first.old)) (unwrap_or result Unread) }
{
    let (id, rest) = id(rest, false)?;
    let (fee, rest) = number64(rest)?;
    let (size, rest) = number64(rest)?;
    let (cost, rest) = number32(rest)?;
    let (measured, rest) = number_or(rest, b"none")?;
    let (created, rest) = number64(rest)?;
    let (checked, rest) = number64(rest)?;
    let (peer, rest) = number_or(rest, b"local")?;
    let (inputs, rest) = list_field(rest, 7, Records::Boxes, first)?;
    let (outputs, rest) = list_field(rest, 7, Records::Heights, second)?;
    if_ends(
        rest,
        Form::Return(ReturnForm {
            id,
            fee,
            size,
            cost,
            measured,
            created,
            checked,
            peer,
            inputs,
            outputs,
        }),
    )
}

fn block(rest: &[u8], first: &mut [u64], second: &mut [u64]) -> Option<Form>
    ensures { ListsAt block_of rest.now first.old first.new second.old second.new block_one block_two (unwrap_or result Unread) }
{
    let (time, rest) = number64(rest)?;
    let (transactions, inputs, rest) = block_field(rest, 7, first, second)?;
    if_ends(
        rest,
        Form::Block(BlockForm {
            time,
            transactions,
            inputs,
        }),
    )
}

fn answer(rest: &[u8], first: &mut [u64]) -> Option<Form>
    ensures { AnswerAt answer_of rest.now first.old first.new answer_one (unwrap_or result Unread) }
{
    let (flags, rest) = list_field(rest, 7, Records::Flags, first)?;
    let (verdict, rest) = verdict_field(rest, 7)?;
    if_ends(rest, Form::Answer(flags, verdict))
}

fn rebroadcast(rest: &[u8], first: &mut [u64]) -> Option<Form>
    ensures { AnswerAt rebroadcast_of rest.now first.old first.new rebroadcast_one (unwrap_or result Unread) }
{
    let (boxes, rest) = list_field(rest, 7, Records::Boxes, first)?;
    if_ends(rest, Form::Rebroadcast(boxes))
}

// By the first word, test by test: a `match` on the word's bytes leaves its proof a case for each byte at which a word may differ from the nineteen.

// The queries about fees and waits, and what poolrun keeps.
fn measure(word: &[u8], rest: &[u8]) -> Option<Form>
    ensures { FormAt (measure_of word.now) rest.now (unwrap_or result Unread) }
{
    if same_word(word, b"fee") {
        return fee(rest);
    }
    if same_word(word, b"wait") {
        return wait(rest);
    }
    if same_word(word, b"histogram") {
        return histogram(rest);
    }
    if same_word(word, b"charges") {
        return plain(rest, Form::Charges);
    }
    if same_word(word, b"written") {
        return plain(rest, Form::Written);
    }
    None
}

// The other queries.
fn query(word: &[u8], rest: &[u8]) -> Option<Form>
    ensures { FormAt (query_of word.now) rest.now (unwrap_or result Unread) }
{
    if same_word(word, b"list") {
        return plain(rest, Form::List);
    }
    if same_word(word, b"top") {
        return top(rest);
    }
    if same_word(word, b"len") {
        return plain(rest, Form::Len);
    }
    if same_word(word, b"contains") {
        return contains(rest);
    }
    if same_word(word, b"spending") {
        return spending(rest);
    }
    measure(word, rest)
}

// The changing calls without lists.
fn change(word: &[u8], rest: &[u8]) -> Option<Form>
    ensures { FormAt (change_of word.now) rest.now (unwrap_or result Unread) }
{
    if same_word(word, b"pool") {
        return pool(rest);
    }
    if same_word(word, b"invalidate") {
        return invalidate(rest);
    }
    if same_word(word, b"open") {
        return open_pass(rest);
    }
    if same_word(word, b"next") {
        return plain(rest, Form::Next);
    }
    query(word, rest)
}

// The form whose first word this is.
fn worded(word: &[u8], rest: &[u8], first: &mut [u64], second: &mut [u64]) -> Option<Form>
    ensures { ListsAt (worded word.now) rest.now first.old first.new second.old second.new (one_of word.now) (two_of word.now (length first.old)) (unwrap_or result Unread) }
{
    if same_word(word, b"tx") {
        return tx(rest, first, second);
    }
    if same_word(word, b"return") {
        return take_back(rest, first, second);
    }
    if same_word(word, b"block") {
        return block(rest, first, second);
    }
    if same_word(word, b"answer") {
        return answer(rest, first);
    }
    if same_word(word, b"rebroadcast") {
        return rebroadcast(rest, first);
    }
    change(word, rest)
}

// The form that a line is, if it is one.
fn form_of(line: &[u8], first: &mut [u64], second: &mut [u64]) -> Option<Form>
    ensures { ReadAt line.now first.old first.new second.old second.new (unwrap_or result Unread) }
{
    let inside = read_line(line)?;
    let (word, rest) = word(inside, true)?;
    worded(word, rest, first, second)
}

// Reads a line. The words of its form's lists go into the two lent slices: inputs, flags, box ids or a block's
// transactions into the first, outputs or a block's inputs into the second.
pub fn read_form(line: &[u8], first: &mut [u64], second: &mut [u64]) -> Form
    ensures { ReadAt line.now first.old first.new second.old second.new result }
{
    form_of(line, first, second).unwrap_or(Form::Unread)
}
