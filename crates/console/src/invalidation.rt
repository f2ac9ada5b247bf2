// `invalidate`: a transaction found invalid.
ghost use Rattle.std.specs.Prelude.{◌≡◌, ℕ, ◌≤◌, List, length};
ghost use Rattle.words.specs.Ids.{id_of};
ghost use Rattle.pool_types.specs.Outcomes.{done_of};
ghost use Rattle.forms.specs.Nums.{Prints};
ghost use Rattle.replies.specs.Replies.{named};
ghost use Rattle.console.specs.declared.calls.Change.TheVariants.{Invalidate};
ghost use Rattle.console.specs.Console.{w_invalidated, or_refused, altered};
ghost use Rattle.console.specs.After.{Holds, After};
ghost use Rattle.console.specs.Desk.{kept, told, HoldsWith, AfterIn, SameLengths, altered_in};

use crate::answer::refused_for;
use crate::desk::{Desk, Held, Told};
use pool_types::Refusal;
use replies::with_id;
use returns::invalidate;
use words::ids::Id;

#[tactic(auto, unfolding(crate::specs::Console::or_refused, pool_types::specs::Outcomes::done_of))]
fn tell_invalidated(out: &mut [u8], id: Id, outcome: Result<(), Refusal>) -> usize
    requires { 32768 ≤ length out.old }
    ensures { Prints (or_refused (named w_invalidated (id_of id)) (done_of outcome)) 0 out.old out.new result }
{
    match outcome {
        Ok(()) => with_id(out, b"(invalidated ", id),
        Err(refusal) => refused_for(out, refusal),
    }
}

// It has no lists and writes no ids. Peers and answer buffer are whatever is held.
pub fn on_invalidate(
    entries: &mut [u64],
    boxes: &mut [u64],
    cache: &mut [u64],
    held: Held,
    time: u64,
    id: Id,
    out: &mut [u8],
) -> Told
    requires { 32768 ≤ length out.old }
    ensures { (p a f s : List ℕ) → Holds entries.old boxes.old cache.old p a (kept held) →
        After entries.new boxes.new cache.new p a out.old out.new (told result)
        (altered entries.old boxes.old cache.old p a (kept held) f s (Invalidate time id)) }
{
    let done = invalidate(entries, boxes, cache, held.mempool, time, id);
    Told {
        held: Some(Held {
            mempool: done.mempool,
            stats: held.stats,
            written: 0,
        }),
        len: tell_invalidated(out, id, done.outcome),
    }
}

// `on_invalidate` of a desk, which holds then what is told.
pub(crate) fn invalidate_on_desk(
    desk: &mut Desk<'_>,
    held: Held,
    time: u64,
    id: Id,
    out: &mut [u8],
) -> usize
    requires { 32768 ≤ length out.old }
    ensures after { (f s : List ℕ) → HoldsWith desk.old held → AfterIn desk.new out.old out.new result (altered_in desk.old held f s (Invalidate time id)) }
    ensures same_lengths { SameLengths desk.old desk.new }
    ensures others { (desk.new.peers.now ≡ desk.old.peers.now) × (desk.new.answer.now ≡ desk.old.answer.now) }
{
    let told = on_invalidate(desk.entries, desk.boxes, desk.cache, held, time, id, out);
    desk.held = told.held;
    told.len
}
