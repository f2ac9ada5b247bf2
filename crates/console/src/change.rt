// The calls that change the pool, of a pool that is there.
ghost use Rattle.std.specs.Prelude.{◌≤◌, length, take};
ghost use Rattle.console.specs.Calls.{words_of};
ghost use Rattle.console.specs.Desk.{HoldsWith, AfterIn, SameLengths, altered_in};

use crate::block::block_on_desk;
use crate::calls::{Change, words_of};
use crate::desk::{Desk, Held};
use crate::invalidation::invalidate_on_desk;
use crate::pass::{answer_on_desk, next_on_desk, open_on_desk};
use crate::returning::return_on_desk;
use crate::submit::on_tx;

// `one` and `two` are the form's lists.
fn make(
    desk: &mut Desk<'_>,
    held: Held,
    one: &[u64],
    two: &[u64],
    change: Change,
    out: &mut [u8],
) -> usize
    requires holds { HoldsWith desk.old held }
    requires in_bounds { 32768 ≤ length out.old }
    ensures after { AfterIn desk.new out.old out.new result (altered_in desk.old held one.now two.now change) }
    ensures same_lengths { SameLengths desk.old desk.new }
{
    match change {
        Change::Submit(t) => on_tx(desk, held, one, two, t, out),
        Change::Return(g) => return_on_desk(desk, held, one, two, g, out),
        Change::Block(g) => block_on_desk(desk, held, one, two, g, out),
        Change::Invalidate(time, id) => invalidate_on_desk(desk, held, time, id, out),
        Change::Open(time, limit, preheader) => open_on_desk(
            desk, held, time, limit, preheader, out,
        ),
        Change::Next => next_on_desk(desk, held, out),
        Change::Answer(_, verdict) => answer_on_desk(desk, held, one, verdict, out),
    }
}

// The form's lists stand at the front of `one` and of `two`.
pub fn alter(
    desk: &mut Desk<'_>,
    held: Held,
    one: &[u64],
    two: &[u64],
    change: Change,
    out: &mut [u8],
) -> usize
    requires holds { HoldsWith desk.old held }
    requires in_bounds { 32768 ≤ length out.old }
    ensures after { AfterIn desk.new out.old out.new result
        (altered_in desk.old held (take (words_of change).one one.now) (take (words_of change).two two.now) change) }
    ensures same_lengths { SameLengths desk.old desk.new }
{
    let words = words_of(change);
    let n = words.one.min(one.len());
    let m = words.two.min(two.len());
    make(desk, held, &one[..n], &two[..m], change, out)
}
