// `open`, `next` and `answer`: a pass over the pool.
ghost use Rattle.std.specs.Prelude.{◌≡◌, ℕ, ◌≤◌, List, length};
ghost use Rattle.pool_types.specs.Outcomes.{done_of, next_of, answered_of};
ghost use Rattle.forms.specs.Nums.{Prints};
ghost use Rattle.console.specs.declared.calls.Change.TheVariants.{Open, Next, Answer};
ghost use Rattle.console.specs.Console.{pass_text, altered};
ghost use Rattle.console.specs.After.{Holds, After};
ghost use Rattle.console.specs.Desk.{kept, told, HoldsWith, AfterIn, SameLengths, SameWords, altered_in};

use crate::answer::refused_for;
use crate::desk::{Desk, Held, Told};
use cleanup::{answer, next, open};
use pool_types::{AnswerOutcome, NextOutcome, Refusal, Verdict};
use replies::pieces::text;
use replies::{with_id, with_number};

#[tactic(auto, unfolding(crate::specs::Console::pass_text, pool_types::specs::Outcomes::done_of))]
fn tell_opened(out: &mut [u8], outcome: Result<(), Refusal>) -> usize
    requires { 32768 ≤ length out.old }
    ensures { Prints (pass_text (done_of outcome)) 0 out.old out.new result }
{
    match outcome {
        Ok(()) => text(out, 0, b"(opened)"),
        Err(refusal) => refused_for(out, refusal),
    }
}

#[tactic(auto, unfolding(crate::specs::Console::pass_text, pool_types::specs::Outcomes::next_of))]
fn tell_offered(out: &mut [u8], outcome: Result<NextOutcome, Refusal>) -> usize
    requires { 32768 ≤ length out.old }
    ensures { Prints (pass_text (next_of outcome)) 0 out.old out.new result }
{
    match outcome {
        Ok(next) => match next {
            NextOutcome::Candidate(id) => with_id(out, b"(candidate ", id),
            NextOutcome::Ended(sum) => with_number(out, b"(ended ", sum),
        },
        Err(refusal) => refused_for(out, refusal),
    }
}

#[tactic(auto, unfolding(crate::specs::Console::pass_text, pool_types::specs::Outcomes::answered_of))]
fn tell_answered(out: &mut [u8], outcome: Result<AnswerOutcome, Refusal>) -> usize
    requires { 32768 ≤ length out.old }
    ensures { Prints (pass_text (answered_of outcome)) 0 out.old out.new result }
{
    match outcome {
        Ok(answer) => match answer {
            AnswerOutcome::InputMissing(id) => with_id(out, b"(missing ", id),
            AnswerOutcome::AnswerNeeded => text(out, 0, b"(verdict needed)"),
            AnswerOutcome::FoundInvalid(id) => with_id(out, b"(invalid ", id),
            AnswerOutcome::FoundValid(id) => with_id(out, b"(valid ", id),
        },
        Err(refusal) => refused_for(out, refusal),
    }
}

// These three have no lists but the flags and write no ids. The words that they are not lent are whatever is held.
pub fn on_open(held: Held, time: u64, limit: u64, preheader: u32, out: &mut [u8]) -> Told
    requires { 32768 ≤ length out.old }
    ensures { (e b k p a f s : List ℕ) → Holds e b k p a (kept held) →
        After e b k p a out.old out.new (told result) (altered e b k p a (kept held) f s (Open time limit preheader)) }
{
    let opened = open(held.mempool, time, limit, preheader);
    Told {
        held: Some(Held {
            mempool: opened.mempool,
            stats: held.stats,
            written: 0,
        }),
        len: tell_opened(out, opened.outcome),
    }
}

pub fn on_next(entries: &[u64], held: Held, out: &mut [u8]) -> Told
    requires { 32768 ≤ length out.old }
    ensures { (b k p a f s : List ℕ) → Holds entries.now b k p a (kept held) →
        After entries.now b k p a out.old out.new (told result) (altered entries.now b k p a (kept held) f s Next) }
{
    let offered = next(entries, held.mempool);
    let after = offered.mempool;
    Told {
        held: Some(Held {
            mempool: after,
            stats: held.stats,
            written: 0,
        }),
        len: tell_offered(out, offered.outcome),
    }
}

pub fn on_answer(
    entries: &mut [u64],
    boxes: &mut [u64],
    cache: &mut [u64],
    flags: &[u64],
    held: Held,
    verdict: Verdict,
    out: &mut [u8],
) -> Told
    requires { 32768 ≤ length out.old }
    ensures { (n : ℕ) (p a s : List ℕ) → Holds entries.old boxes.old cache.old p a (kept held) →
        After entries.new boxes.new cache.new p a out.old out.new (told result)
        (altered entries.old boxes.old cache.old p a (kept held) flags.now s (Answer n verdict)) }
{
    let answered = answer(entries, boxes, cache, held.mempool, flags, verdict);
    Told {
        held: Some(Held {
            mempool: answered.mempool,
            stats: held.stats,
            written: 0,
        }),
        len: tell_answered(out, answered.outcome),
    }
}

// The same three of a desk, which holds then what is told.

pub(crate) fn open_on_desk(
    desk: &mut Desk<'_>,
    held: Held,
    time: u64,
    limit: u64,
    preheader: u32,
    out: &mut [u8],
) -> usize
    requires { 32768 ≤ length out.old }
    ensures after { (f s : List ℕ) → HoldsWith desk.old held → AfterIn desk.new out.old out.new result (altered_in desk.old held f s (Open time limit preheader)) }
    ensures same_words { SameWords desk.old desk.new }
{
    let told = on_open(held, time, limit, preheader, out);
    desk.held = told.held;
    told.len
}

pub(crate) fn next_on_desk(desk: &mut Desk<'_>, held: Held, out: &mut [u8]) -> usize
    requires { 32768 ≤ length out.old }
    ensures after { (f s : List ℕ) → HoldsWith desk.old held → AfterIn desk.new out.old out.new result (altered_in desk.old held f s Next) }
    ensures same_words { SameWords desk.old desk.new }
{
    // lent from here, since of a field that is lent to be read nothing is known afterwards
    let entries = &mut *desk.entries;
    let told = on_next(entries, held, out);
    desk.held = told.held;
    told.len
}

pub(crate) fn answer_on_desk(
    desk: &mut Desk<'_>,
    held: Held,
    flags: &[u64],
    verdict: Verdict,
    out: &mut [u8],
) -> usize
    requires { 32768 ≤ length out.old }
    ensures after { (n : ℕ) (s : List ℕ) → HoldsWith desk.old held → AfterIn desk.new out.old out.new result (altered_in desk.old held flags.now s (Answer n verdict)) }
    ensures same_lengths { SameLengths desk.old desk.new }
    ensures others { (desk.new.peers.now ≡ desk.old.peers.now) × (desk.new.answer.now ≡ desk.old.answer.now) }
{
    let told = on_answer(
        desk.entries,
        desk.boxes,
        desk.cache,
        flags,
        held,
        verdict,
        out,
    );
    desk.held = told.held;
    told.len
}
