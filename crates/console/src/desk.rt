// What a line is answered from: the words that are lent to the pool, the buffer that its changing calls write ids into, and what is held between lines.
ghost use Rattle.std.specs.Prelude.{◌≤◌, length};

use pool_types::Mempool;
use stats::FeeStats;

// The pool's state, its statistics, and how many ids the last changing call wrote into the answer buffer.
#[derive(Clone, Copy)]
pub struct Held {
    pub mempool: Mempool,
    pub stats: FeeStats,
    pub written: usize,
}

// A call's effect where it is lent single slices: what is held after it, and the length of its answer.
#[derive(Clone, Copy)]
pub struct Told {
    pub held: Option<Held>,
    pub len: usize,
}

// Nothing is held before the first `(ready)`. No call changes how many words there are. That the words fit what is held is no ghost field: between a
// call and the storing of its state they do not.
#[derive(Drop)]
pub struct Desk<'a> {
    pub entries: &'a mut [u64],
    pub boxes: &'a mut [u64],
    pub cache: &'a mut [u64],
    pub peers: &'a mut [u64],
    pub answer: &'a mut [u64],
    pub held: Option<Held>,
    ghost places: { length answer.now ≤ 1024 },
}
