// What poolrun does with a line that was read: makes the call and prints the answer into `out`. All memory is lent.
#![tactic(auto)]

pub mod answer;
pub mod block;
pub mod calls;
pub mod change;
pub mod desk;
pub mod estimates;
pub mod invalidation;
pub mod pass;
pub mod query;
pub mod returning;
pub mod start;
pub mod submit;

ghost use Rattle.std.specs.Prelude.{◌≤◌, length};
ghost use Rattle.console.specs.Desk.{HoldsIn, AfterIn, SameLengths, line_in};

use crate::answer::{no_pool, unread};
use crate::calls::Call;
use crate::change::alter;
use crate::desk::Desk;
use crate::query::ask_on_desk;
use crate::start::start_on_desk;

// Makes the call that line `number` asked for, and answers how long its answer is, which stands at the start of `out`. The words of its lists stand at
// the front of `one` and of `two`; lists that a query answers with go through `listing`, so that the ids in `desk.answer` stay until the next changing
// call.
pub fn tell(
    desk: &mut Desk<'_>,
    listing: &mut [u64],
    one: &[u64],
    two: &[u64],
    number: u64,
    call: Call,
    out: &mut [u8],
) -> usize
    requires holds { HoldsIn desk.old }
    requires in_bounds { (length listing.old ≤ 1024) × (32768 ≤ length out.old) }
    ensures after { AfterIn desk.new out.old out.new result (line_in desk.old number (length listing.old) one.now two.now call) }
    ensures same_lengths { SameLengths desk.old desk.new }
{
    match call {
        Call::Start(p) => start_on_desk(desk, p, out),
        Call::Alter(g) => match desk.held {
            Some(held) => alter(desk, held, one, two, g, out),
            None => no_pool(out),
        },
        Call::Ask(q) => match desk.held {
            Some(held) => ask_on_desk(desk, held, listing, one, q, out),
            None => no_pool(out),
        },
        Call::Unreadable => unread(out, number),
    }
}
