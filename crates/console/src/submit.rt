// `tx`: a submission.
ghost use Rattle.std.specs.Prelude.{◌≡◌, ◌≤◌, length};
ghost use Rattle.words.specs.Ids.{id_of};
ghost use Rattle.pool_types.specs.Outcomes.{processed_of};
ghost use Rattle.boxes.specs.Flat.{count_of, ids_to};
ghost use Rattle.forms.specs.Nums.{Prints};
ghost use Rattle.console.specs.declared.calls.Change.TheVariants.{Submit};
ghost use Rattle.console.specs.Console.{source_of, submission_of, tx_text};
ghost use Rattle.pool_types.specs.Outcomes.{written_of};
ghost use Rattle.console.specs.Desk.{HoldsWith, AfterIn, SameLengths, altered_in};

use crate::answer::refused_for;
use crate::desk::{Desk, Held};
use lines::read::TxForm;
use pool_types::{ProcessingOutcome, Refusal, Source, Submission};
use process::process_words;
use replies::pieces::text;
use replies::{replaced, with_id};
use words::ids::Id;

#[tactic(auto, unfolding(crate::specs::Console::source_of))]
pub fn source_of(peer: Option<u64>) -> Source
    ensures { result ≡ source_of peer }
{
    match peer {
        Some(p) => Source::Peer(p),
        None => Source::Local,
    }
}

#[tactic(auto, unfolding(crate::specs::Console::submission_of))]
fn submission_of(t: TxForm) -> Submission
    ensures { result ≡ submission_of t }
{
    let id = t.id;
    let peer = t.peer;
    let verdict = t.verdict;
    Submission {
        time: t.time,
        id,
        size: t.size,
        preheader: t.preheader,
        source: source_of(peer),
        verdict,
    }
}

// The ids that a submission says it wrote.
#[tactic(auto, unfolding(pool_types::specs::Outcomes::written_of, pool_types::specs::Outcomes::processed_of))]
fn written_of(outcome: ProcessingOutcome) -> usize
    ensures { result ≡ written_of (processed_of outcome) }
{
    match outcome {
        ProcessingOutcome::Accepted => 0,
        ProcessingOutcome::Replaced(n) => n,
        ProcessingOutcome::DoubleSpendLoser(n) => n,
        ProcessingOutcome::VerdictNeeded => 0,
        ProcessingOutcome::Declined(_) => 0,
    }
}

// The answer to a submission that wrote so many ids.
#[tactic(auto, unfolding(crate::specs::Console::tx_text, pool_types::specs::Outcomes::processed_of))]
fn tell_processed(
    out: &mut [u8],
    id: Id,
    desk: &Desk<'_>,
    written: usize,
    outcome: ProcessingOutcome,
) -> usize
    requires written_bound { written ≤ count_of 4 desk.now.answer.now }
    requires in_bounds { 32768 ≤ length out.old }
    ensures { Prints (tx_text (processed_of outcome) (id_of id) (ids_to 4 desk.now.answer.now written)) 0 out.old out.new result }
{
    match outcome {
        ProcessingOutcome::Accepted => with_id(out, b"(accepted ", id),
        ProcessingOutcome::Replaced(_) => replaced(out, id, desk.answer, written),
        ProcessingOutcome::DoubleSpendLoser(_) => refused_for(out, Refusal::DoubleSpend),
        ProcessingOutcome::VerdictNeeded => text(out, 0, b"(verdict needed)"),
        ProcessingOutcome::Declined(refusal) => refused_for(out, refusal),
    }
}

pub fn on_tx(
    desk: &mut Desk<'_>,
    held: Held,
    inputs: &[u64],
    outputs: &[u64],
    t: TxForm,
    out: &mut [u8],
) -> usize
    requires holds { HoldsWith desk.old held }
    requires in_bounds { 32768 ≤ length out.old }
    ensures after { AfterIn desk.new out.old out.new result (altered_in desk.old held inputs.now outputs.now (Submit t)) }
    ensures same_lengths { SameLengths desk.old desk.new }
{
    let id = t.id;
    let sub = submission_of(t);
    let done = process_words(
        desk.entries,
        desk.boxes,
        desk.cache,
        desk.peers,
        desk.answer,
        held.mempool,
        sub,
        inputs,
        outputs,
    );
    let outcome = done.outcome;
    let written = written_of(outcome).min(desk.answer.len() / 4);
    desk.held = Some(Held {
        mempool: done.mempool,
        stats: held.stats,
        written,
    });
    tell_processed(out, id, desk, written, outcome)
}
