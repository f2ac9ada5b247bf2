// `block`: the transactions that a block confirmed.
ghost use Rattle.std.specs.Prelude.{◌≡◌, ℕ, ◌≤◌, List, length};
ghost use Rattle.pool_types.specs.Outcomes.{listed_of};
ghost use Rattle.boxes.specs.Flat.{count_of, ids_to};
ghost use Rattle.forms.specs.Nums.{Prints};
ghost use Rattle.console.specs.declared.calls.Change.TheVariants.{Block};
ghost use Rattle.console.specs.Console.{removed_text, altered};
ghost use Rattle.pool_types.specs.Outcomes.{written_of};
ghost use Rattle.console.specs.After.{Holds, After};
ghost use Rattle.console.specs.Desk.{kept, told, HoldsWith, AfterIn, SameLengths, altered_in};

use crate::answer::refused_for;
use crate::desk::{Desk, Held, Told};
use blocks::apply_block_by_value;
use lines::read::BlockForm;
use pool_types::Refusal;
use replies::with_ids;

// The ids that a block says it wrote.
#[tactic(auto, unfolding(pool_types::specs::Outcomes::written_of, pool_types::specs::Outcomes::listed_of))]
fn removed_of(outcome: Result<usize, Refusal>) -> usize
    ensures { result ≡ written_of (listed_of outcome) }
{
    outcome.unwrap_or(0)
}

// The answer to a block that wrote so many ids.
#[tactic(auto, unfolding(crate::specs::Console::or_refused, pool_types::specs::Outcomes::listed_of))]
fn tell_removed(
    out: &mut [u8],
    answer: &[u64],
    written: usize,
    outcome: Result<usize, Refusal>,
) -> usize
    requires written_bound { (written ≤ count_of 4 answer.now) × (length answer.now ≤ 1024) }
    requires in_bounds { 32768 ≤ length out.old }
    ensures { Prints (removed_text (listed_of outcome) (ids_to 4 answer.now written)) 0 out.old out.new result }
{
    match outcome {
        Ok(_) => with_ids(out, b"(removed", answer, written),
        Err(refusal) => refused_for(out, refusal),
    }
}

// Peers are whatever is held: their count alone frees them.
pub fn on_block(
    entries: &mut [u64],
    boxes: &mut [u64],
    cache: &mut [u64],
    answer: &mut [u64],
    transactions: &[u64],
    inputs: &[u64],
    held: Held,
    g: BlockForm,
    out: &mut [u8],
) -> Told
    requires { (length answer.old ≤ 1024) × (32768 ≤ length out.old) }
    ensures { (p : List ℕ) → Holds entries.old boxes.old cache.old p answer.old (kept held) →
        After entries.new boxes.new cache.new p answer.new out.old out.new (told result)
        (altered entries.old boxes.old cache.old p answer.old (kept held) transactions.now inputs.now (Block g)) }
{
    let done = apply_block_by_value(
        entries,
        boxes,
        cache,
        answer,
        held.stats,
        held.mempool,
        g.time,
        transactions,
        inputs,
    );
    let recorded = done.stats;
    let outcome = done.outcome;
    let written = removed_of(outcome).min(answer.len() / 4);
    Told {
        held: Some(Held {
            mempool: done.mempool,
            stats: recorded,
            written,
        }),
        len: tell_removed(out, &answer[..], written, outcome),
    }
}

// `on_block` of a desk, which holds then what is told.
pub(crate) fn block_on_desk(
    desk: &mut Desk<'_>,
    held: Held,
    transactions: &[u64],
    inputs: &[u64],
    g: BlockForm,
    out: &mut [u8],
) -> usize
    requires { 32768 ≤ length out.old }
    ensures after { HoldsWith desk.old held → AfterIn desk.new out.old out.new result (altered_in desk.old held transactions.now inputs.now (Block g)) }
    ensures same_lengths { SameLengths desk.old desk.new }
    ensures peers { desk.new.peers.now ≡ desk.old.peers.now }
{
    let told = on_block(
        desk.entries,
        desk.boxes,
        desk.cache,
        desk.answer,
        transactions,
        inputs,
        held,
        g,
        out,
    );
    desk.held = told.held;
    told.len
}
