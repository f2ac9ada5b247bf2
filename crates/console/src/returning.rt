// `return`: a transaction that a block rolled back gives back.
ghost use Rattle.std.specs.Prelude.{◌≡◌, ℕ, ◌≤◌, List, length};
ghost use Rattle.words.specs.Ids.{id_of};
ghost use Rattle.pool_types.specs.Outcomes.{done_of};
ghost use Rattle.forms.specs.Nums.{Prints};
ghost use Rattle.replies.specs.Replies.{named};
ghost use Rattle.console.specs.declared.calls.Change.TheVariants.{Return};
ghost use Rattle.console.specs.Console.{w_returned, or_refused, unconfirmed_of, altered};
ghost use Rattle.console.specs.After.{Holds, After};
ghost use Rattle.console.specs.Desk.{kept, told, HoldsWith, AfterIn, SameLengths, altered_in};

use crate::answer::refused_for;
use crate::desk::{Desk, Held, Told};
use crate::submit::source_of;
use lines::read::ReturnForm;
use pool_types::Refusal;
use replies::with_id;
use returns::{UnconfirmedTx, return_to_pool};
use words::ids::Id;

#[tactic(auto, unfolding(crate::specs::Console::unconfirmed_of))]
fn unconfirmed_of(g: ReturnForm) -> UnconfirmedTx
    ensures { result ≡ unconfirmed_of g }
{
    let id = g.id;
    let peer = g.peer;
    UnconfirmedTx {
        id,
        fee: g.fee,
        size: g.size,
        cost: g.cost,
        validation_cost: g.measured,
        created: g.created,
        last_checked: g.checked,
        source: source_of(peer),
    }
}

#[tactic(auto, unfolding(crate::specs::Console::or_refused, pool_types::specs::Outcomes::done_of))]
fn tell_returned(out: &mut [u8], id: Id, outcome: Result<(), Refusal>) -> usize
    requires { 32768 ≤ length out.old }
    ensures { Prints (or_refused (named w_returned (id_of id)) (done_of outcome)) 0 out.old out.new result }
{
    match outcome {
        Ok(()) => with_id(out, b"(returned ", id),
        Err(refusal) => refused_for(out, refusal),
    }
}

// It writes no ids. Cache, peers and answer buffer are whatever is held.
pub fn on_return(
    entries: &mut [u64],
    boxes: &mut [u64],
    inputs: &[u64],
    outputs: &[u64],
    held: Held,
    g: ReturnForm,
    out: &mut [u8],
) -> Told
    requires { 32768 ≤ length out.old }
    ensures { (k p a : List ℕ) → Holds entries.old boxes.old k p a (kept held) →
        After entries.new boxes.new k p a out.old out.new (told result)
        (altered entries.old boxes.old k p a (kept held) inputs.now outputs.now (Return g)) }
{
    let id = g.id;
    let tx = unconfirmed_of(g);
    let done = return_to_pool(entries, boxes, held.mempool, tx, inputs, outputs);
    Told {
        held: Some(Held {
            mempool: done.mempool,
            stats: held.stats,
            written: 0,
        }),
        len: tell_returned(out, id, done.outcome),
    }
}

// `on_return` of a desk, which holds then what is told.
pub(crate) fn return_on_desk(
    desk: &mut Desk<'_>,
    held: Held,
    inputs: &[u64],
    outputs: &[u64],
    g: ReturnForm,
    out: &mut [u8],
) -> usize
    requires { 32768 ≤ length out.old }
    ensures after { HoldsWith desk.old held → AfterIn desk.new out.old out.new result (altered_in desk.old held inputs.now outputs.now (Return g)) }
    ensures same_lengths { SameLengths desk.old desk.new }
    ensures others { (desk.new.cache.now ≡ desk.old.cache.now) × (desk.new.peers.now ≡ desk.old.peers.now) × (desk.new.answer.now ≡ desk.old.answer.now) }
{
    let told = on_return(desk.entries, desk.boxes, inputs, outputs, held, g, out);
    desk.held = told.held;
    told.len
}
