// The order of the entries: the rank of a weight and an id by halving, and turns of the words of ranks by one place.
ghost use Rattle.std.specs.Prelude.{◌≡◌, ◌≤◌, ◌<◌, length};
ghost use Rattle.std.specs.List.{RotatedLeft};
ghost use Rattle.words.specs.Ids.{id_of};
ghost use Rattle.entries.specs.Cells.{slot_count, entry_in};
ghost use Rattle.entries.specs.Ranks.{ahead_of, Ranks};
ghost use Rattle.entries.specs.Turns.{inward, outward};
ghost use Rattle.entries.specs.Held.{Turned};

use crate::cells::{WEIGHT, get, id_in, place, slot_at};
use words::ids::Id;

// Whether the entry in slot `i` is ahead of a weight and an id, which is read only on a tie.
fn is_ahead(s: &[u64], i: usize, weight: u64, id: Id) -> bool
    requires { i < slot_count s.now }
    ensures { result ≡ ahead_of (entry_in s.now i) weight (id_of id) }
{
    let w = get(s, i, WEIGHT);
    if w != weight {
        return weight < w;
    }
    id_in(s, i) < id
}

// The rank that a weight and an id have among the first n, by halving.
pub(crate) fn rank(s: &[u64], n: usize, weight: u64, id: Id) -> usize
    requires { n ≤ slot_count s.now }
    ensures { Ranks s.now n weight (id_of id) result }
{
    let mut lo = 0;
    let mut hi = n;
    // std's `partition_point` halves at other places, and so gives another rank where the words of ranks are in no order, which a host may lend
    while lo < hi {
        let mid = lo + (hi - lo) / 2;
        if is_ahead(s, slot_at(s, mid), weight, id) {
            lo = mid + 1;
        } else {
            hi = mid;
        }
    }
    lo
}

// The first word becomes the last, by one move of memory. std's `rotate_left` says the same, and moves back in parts: at 4,000 words it takes 1.4 times as long.
fn first_to_last(t: &mut [u64])
    requires { 0 < length t.old }
    ensures len { length t.new ≡ length t.old }
    ensures turned { RotatedLeft t.old t.new (length t.old) 1 }
{
    let last = t.len() - 1;
    let first = t[0];
    for i in 0..last {
        t[i] = t[i + 1];
    }
    t[last] = first;
}

// The last rank becomes rank `at`: those from there on move down by one. It is one move of memory.
pub(crate) fn turn_in(s: &mut [u64], at: usize, last: usize)
    requires { (at ≤ last) × (last < slot_count s.old) }
    ensures { Turned s.old s.new (inward at last) }
{
    let (from, to) = (place(s, at), place(s, last));
    s[from..=to].rotate_right(1);
}

// Rank `at` becomes the last: those behind it move up by one. The way back of `turn_in`, and no twin of it.
pub(crate) fn turn_out(s: &mut [u64], at: usize, last: usize)
    requires { (at ≤ last) × (last < slot_count s.old) }
    ensures { Turned s.old s.new (outward at last) }
{
    let (from, to) = (place(s, at), place(s, last));
    first_to_last(&mut s[from..=to]);
}
