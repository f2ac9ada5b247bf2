// Credits to parents: a newcomer's base is added to the weight of each pooled transaction that its inputs come from, directly or through
// others, once for every chain of spends.
#![tactic(auto)]

ghost use Rattle.std.specs.Prelude.{◌+◌, ◌≤◌, ◌<◌, length};
ghost use Rattle.words.specs.Ids.{id_of};
ghost use Rattle.entries.specs.Layout.{EntriesOk, EntriesKept};
ghost use Rattle.boxes.specs.Layout.{all_rows};
ghost use Rattle.boxes.specs.Views.{KeptIn};
ghost use Rattle.pool.specs.Pool.{PoolFits, PoolKept, Left, tables_of};
ghost use Rattle.family.specs.Frames.{todo_of};
ghost use Rattle.family.specs.Steps.{Visited, Nearer, Turned};
ghost use Rattle.family.specs.Family.{propagated};

use boxes::views::Boxes;
use entries::table::credit_entry;
use indexes::inputs::last_parent;
use pool_types::Counts;
use words::ids::Id;

// At most so many parents are visited.
const MAX_PARENT_SCAN_DEPTH: usize = 500;

// A frame of the walk's stack: of a transaction's inputs, those in so many of the first slots are still to be looked at.
#[derive(Clone, Copy)]
struct Frame {
    id: Id,
    bound: usize,
}

// One frame more than there are visits.
const STACK: usize = MAX_PARENT_SCAN_DEPTH + 1;

const EMPTY: Frame = Frame {
    id: Id {
        a: 0,
        b: 0,
        c: 0,
        d: 0,
    },
    bound: 0,
};

// How many frames are open, and how many visits are left.
#[derive(Clone, Copy)]
struct Progress {
    depth: usize,
    budget: usize,
}

// Credits a parent and opens a frame for it on top, above what is left of its child's. No slot is at an index past the words.
fn visit(
    entries: &mut [u64],
    pooled: usize,
    boxes: &Boxes<'_>,
    frames: &mut [Frame],
    depth: usize,
    child: Frame,
    parent: Id,
    amount: u64,
)
    requires entries_ok { EntriesOk entries.old pooled }
    requires depth_nonzero { (0 < depth) × (depth + 1 ≤ length frames.old) }
    ensures { EntriesKept entries.old pooled → Visited entries.old entries.new frames.old frames.new (length boxes.now.words.now) pooled depth amount (id_of parent) (todo_of child) }
{
    credit_entry(entries, pooled, parent, amount);
    let bound = boxes.end();
    frames[depth - 1] = child;
    frames[depth] = Frame { id: parent, bound };
}

// Looks at the top frame: visits the last parent that its inputs have left, or closes it where there is none. With no visit left the walk ends.
fn turn(
    entries: &mut [u64],
    pooled: usize,
    boxes: &Boxes<'_>,
    frames: &mut [Frame],
    w: Progress,
    amount: u64,
) -> Progress
    requires entries_ok { EntriesOk entries.old pooled }
    requires depth_nonzero { (0 < w.depth) × (w.depth + w.budget ≤ length frames.old) }
    ensures nearer { Nearer w result }
    ensures turned { EntriesKept entries.old pooled → KeptIn boxes.now → Turned entries.old entries.new frames.old frames.new (all_rows boxes.now.words.now boxes.now.records) pooled amount w result }
{
    let top = frames[w.depth - 1];
    match last_parent(boxes, top.id, top.bound) {
        None => Progress {
            depth: w.depth - 1,
            budget: w.budget,
        },
        Some(parent) => {
            if w.budget == 0 {
                return Progress {
                    depth: 0,
                    budget: 0,
                };
            }
            visit(
                entries,
                pooled,
                boxes,
                frames,
                w.depth,
                Frame {
                    id: top.id,
                    bound: parent.slot,
                },
                parent.id,
                amount,
            );
            Progress {
                depth: w.depth + 1,
                budget: w.budget - 1,
            }
        }
    }
}

// The walk from a transaction with at most `cap` visits. Each opens one frame, so that `cap` and one frames are enough.
fn walk(
    entries: &mut [u64],
    boxes: &[u64],
    counts: Counts,
    frames: &mut [Frame],
    id: Id,
    amount: u64,
    cap: usize,
)
    requires pool_fits { PoolFits entries.old boxes.now counts }
    requires frames_bound { 1 + cap ≤ length frames.old }
    ensures { PoolKept entries.old boxes.now counts → Left entries.new boxes.now counts (propagated cap amount (id_of id) (tables_of entries.old boxes.now counts)) }
{
    let records = Boxes::new(boxes, counts.records);
    let bound = records.end();
    frames[0] = Frame { id, bound };
    let mut w = Progress {
        depth: 1,
        budget: cap,
    };
    // until the stack is empty: no index is counted
    while 0 < w.depth {
        w = turn(entries, counts.pooled, &records, frames, w, amount);
    }
}

// Propagates a newcomer's base to its ancestors in the pool. It has entered before, so that one that spends its own output credits itself. The boxes are
// only read, so that they are lent as they are and not in a `PoolMut`.
pub fn propagate_family_weight(
    entries: &mut [u64],
    boxes: &[u64],
    counts: Counts,
    id: Id,
    amount: u64,
)
    requires { PoolFits entries.old boxes.now counts }
    ensures fits { PoolFits entries.new boxes.now counts }
    ensures left { PoolKept entries.old boxes.now counts → Left entries.new boxes.now counts (propagated 500 amount (id_of id) (tables_of entries.old boxes.now counts)) }
{
    // no heap: the stack is as large as a walk can need
    let mut frames = [EMPTY; STACK];
    walk(
        entries,
        boxes,
        counts,
        &mut frames,
        id,
        amount,
        MAX_PARENT_SCAN_DEPTH,
    );
}
