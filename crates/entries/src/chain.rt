// The index of ids: a chain of slots for each bucket, from high slots to low. A head that names no slot in use of its bucket is taken for none, so that a start
// clears nothing; a link that does not go down is taken for none, so that a walk ends.
ghost use Rattle.std.specs.Prelude.{◌≡◌, true, false, ◌≤◌, ◌<◌, eqb};
ghost use Rattle.words.specs.Ids.{id_of};
ghost use Rattle.words.specs.Chains.{name_of, checked, bounded};
ghost use Rattle.entries.specs.Cells.{slot_count, last_word, cell};
ghost use Rattle.entries.specs.Index.{home_of, hash_at, link_at, head_at, Cutting, FoundSlot};
ghost use Rattle.entries.specs.Marking.{mended, Marked};

use crate::cells::{HEAD, LAST, LINK, USE, get, id_in, put, raw, slots};
use words::buckets::bucket_of;
use words::chains::{name_of, named};
use words::ids::Id;

// A place in a chain: the slot above it, where it is not the head, and the slot that is linked to there.
#[derive(Clone, Copy)]
pub struct Cut {
    pub above: Option<usize>,
    pub below: Option<usize>,
}

// The bucket of ids whose last word is `d`.
fn home_of(s: &[u64], d: u64) -> usize
    requires { 0 < slot_count s.now }
    ensures { (result ≡ home_of s.now d) × (result < slot_count s.now) }
{
    let n = slots(s);
    bucket_of(d, raw(s, n + 1), n)
}

// Whether slot `i` is in bucket `b`, which is that of ids whose last word is `d`. Where the slot's id ends so too, no bucket is computed.
fn is_in(s: &[u64], i: usize, b: usize, d: u64) -> bool
    requires { (i < slot_count s.now) × (b ≡ home_of s.now d) }
    ensures { result ≡ eqb (hash_at s.now i) b }
{
    if get(s, i, USE) != 1 {
        return false;
    }
    let e = get(s, i, LAST);
    e == d || home_of(s, e) == b
}

// The highest of the first u slots that is in bucket `b`, which is that of ids whose last word is `d`.
#[tactic(auto, unfolding(crate::specs::Index::head_at, words::specs::Chains::checked))]
fn head(s: &[u64], u: usize, b: usize, d: u64) -> Option<usize>
    requires { (u ≤ slot_count s.now) × (b < slot_count s.now) × (b ≡ home_of s.now d) }
    ensures { name_of result ≡ checked (hash_at s.now) u b (head_at s.now b) }
{
    named(get(s, b, HEAD)).filter(|i| *i < u && is_in(s, *i, b, d))
}

// The slot that slot `i` links to.
#[tactic(auto, unfolding(crate::specs::Index::link_at, words::specs::Chains::bounded))]
fn link(s: &[u64], i: usize) -> Option<usize>
    requires { i < slot_count s.now }
    ensures { name_of result ≡ bounded i (link_at s.now i) }
{
    named(get(s, i, LINK)).filter(|below| *below < i)
}

// The place in the chain of bucket `b`, its id's, where slot `i` is or belongs.
fn cut_at(s: &[u64], u: usize, b: usize, i: usize) -> Cut
    requires { (u ≤ slot_count s.now) × (b < slot_count s.now) × (i < slot_count s.now) × (b ≡ home_of s.now (cell s.now i last_word)) }
    ensures { Cutting s.now u b i (name_of result.above) (name_of result.below) }
{
    let mut above = None;
    let mut below = head(s, u, b, get(s, i, LAST));
    while let Some(j) = below {
        if j <= i {
            break;
        }
        above = below;
        below = link(s, j);
    }
    Cut { above, below }
}

// At a place in the chain of bucket `b`, `x` is linked to.
#[tactic(auto, unfolding(crate::specs::Marking::mended))]
fn mend(s: &mut [u64], b: usize, above: Option<usize>, x: u64)
    requires { (b < slot_count s.old) × (name_of above ≤ slot_count s.old) }
    ensures { s.new ≡ mended s.old b (name_of above) x }
{
    match above {
        Some(i) => put(s, i, LINK, x),
        None => put(s, b, HEAD, x),
    }
}

// Slot `i` comes into use, and into the chain of its id's bucket.
pub(crate) fn link_in(s: &mut [u64], u: usize, i: usize)
    requires { (u ≤ slot_count s.old) × (i < slot_count s.old) }
    ensures { Marked s.old s.new u i true }
{
    let b = home_of(s, get(s, i, LAST));
    let cut = cut_at(s, u, b, i);
    put(s, i, LINK, name_of(cut.below));
    mend(s, b, cut.above, name_of(Some(i)));
    put(s, i, USE, 1);
}

// Slot `i` goes out of use, and out of its chain: the way back of `link_in`.
pub(crate) fn link_out(s: &mut [u64], u: usize, i: usize)
    requires { (u ≤ slot_count s.old) × (i < slot_count s.old) }
    ensures { Marked s.old s.new u i false }
{
    let b = home_of(s, get(s, i, LAST));
    let cut = cut_at(s, u, b, i);
    let next = name_of(link(s, i));
    mend(s, b, cut.above, next);
    put(s, i, USE, 0);
}

// The slot in use of the first u that has this id.
pub(crate) fn find_slot(s: &[u64], u: usize, id: Id) -> Option<usize>
    requires { u ≤ slot_count s.now }
    ensures { FoundSlot s.now u (id_of id) result }
{
    if u == 0 {
        return None;
    }
    let mut next = head(s, u, home_of(s, id.d), id.d);
    while let Some(i) = next {
        if id_in(s, i) == id {
            return Some(i);
        }
        next = link(s, i);
    }
    None
}
