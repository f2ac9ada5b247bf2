// The call that a form asks for.
ghost use Rattle.std.specs.Prelude.{◌≡◌};
ghost use Rattle.console.specs.Calls.{call_of, words_of};

use lines::read::{BlockForm, Form, PoolForm, ReturnForm, TxForm};
use pool_types::Verdict;
use words::ids::Id;

// What changes nothing. `charges` and `written` are no calls of the pool: they read what poolrun holds.
#[derive(Clone, Copy)]
pub enum Query {
    // at most so many entries
    Listing(u64),
    Len,
    // time, id
    Contains(u64, Id),
    // box
    Spending(Id),
    // minutes, size
    Fee(u32, u32),
    // time, fee, size
    Wait(u64, u64, u32),
    // time, bins, longest
    Histogram(u64, u32, u64),
    // words of box ids
    Rebroadcast(usize),
    Charges,
    Written,
}

// What changes the pool.
#[derive(Clone, Copy)]
pub enum Change {
    Submit(TxForm),
    Return(ReturnForm),
    Block(BlockForm),
    // time, id
    Invalidate(u64, Id),
    // time, limit, preheader
    Open(u64, u64, u32),
    Next,
    // words of flags, verdict
    Answer(usize, Verdict),
}

#[derive(Clone, Copy)]
pub enum Call {
    Start(PoolForm),
    Alter(Change),
    Ask(Query),
    // no form
    Unreadable,
}

// How many words the lists of a form have in the two slices that they are read into.
#[derive(Clone, Copy)]
pub struct Words {
    pub one: usize,
    pub two: usize,
}

#[tactic(auto, unfolding(crate::specs::Calls::call_of))]
pub fn call_of(form: Form) -> Call
    ensures { result ≡ call_of form }
{
    match form {
        Form::Pool(p) => Call::Start(p),
        Form::Tx(t) => Call::Alter(Change::Submit(t)),
        Form::Return(g) => Call::Alter(Change::Return(g)),
        Form::Block(g) => Call::Alter(Change::Block(g)),
        Form::Invalidate(time, id) => Call::Alter(Change::Invalidate(time, id)),
        Form::Open(time, limit, preheader) => Call::Alter(Change::Open(time, limit, preheader)),
        Form::Next => Call::Alter(Change::Next),
        Form::Answer(n, verdict) => Call::Alter(Change::Answer(n, verdict)),
        Form::List => Call::Ask(Query::Listing(u64::MAX)),
        Form::Top(limit) => Call::Ask(Query::Listing(limit)),
        Form::Len => Call::Ask(Query::Len),
        Form::Contains(time, id) => Call::Ask(Query::Contains(time, id)),
        Form::Spending(key) => Call::Ask(Query::Spending(key)),
        Form::Fee(minutes, size) => Call::Ask(Query::Fee(minutes, size)),
        Form::Wait(time, fee, size) => Call::Ask(Query::Wait(time, fee, size)),
        Form::Histogram(time, bins, longest) => Call::Ask(Query::Histogram(time, bins, longest)),
        Form::Rebroadcast(n) => Call::Ask(Query::Rebroadcast(n)),
        Form::Charges => Call::Ask(Query::Charges),
        Form::Written => Call::Ask(Query::Written),
        Form::Unread => Call::Unreadable,
    }
}

#[tactic(auto, unfolding(crate::specs::Calls::words_of))]
pub fn words_of(change: Change) -> Words
    ensures { result ≡ words_of change }
{
    match change {
        Change::Submit(t) => Words {
            one: t.inputs,
            two: t.outputs,
        },
        Change::Return(g) => Words {
            one: g.inputs,
            two: g.outputs,
        },
        Change::Block(g) => Words {
            one: g.transactions,
            two: g.inputs,
        },
        Change::Invalidate(_, _) => Words { one: 0, two: 0 },
        Change::Open(_, _, _) => Words { one: 0, two: 0 },
        Change::Next => Words { one: 0, two: 0 },
        Change::Answer(n, _) => Words { one: n, two: 0 },
    }
}
