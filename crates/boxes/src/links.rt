// The indexes: chains of slots, the newest first, one for each bucket of boxes and one for each bucket of owners. A word that stands as a head or a
// link may be anything, in words that no start left: it is tested before it is used. A head that names no slot of its bucket is taken for
// none, so that a start has nothing to clear; a link that does not go down is taken for none, so that a walk ends.
// Each walk is a `while let` over the links and no iterator: two of the four write to the words that they walk through, which an iterator would hold.
ghost use Rattle.std.specs.Prelude.{◌≡◌, ◌≤◌, ◌<◌, length};
ghost use Rattle.words.specs.Buckets.{bucket_of};
ghost use Rattle.words.specs.Chains.{name_of, checked, bounded};
ghost use Rattle.boxes.specs.Layout.{box_slots, head_place, key_word};
ghost use Rattle.boxes.specs.Index.{hash_at, link_at, head_at, linked_in};

use crate::rows::slots;
use words::buckets::bucket_of;
use words::chains::{name_of, named};

// The bucket of ids whose last word is `d`.
#[tactic(auto, unfolding(crate::specs::Layout::key_word))]
pub(crate) fn bucket_in(s: &[u64], d: u64) -> usize
    requires { 0 < box_slots s.now }
    ensures { (result ≡ bucket_of d (key_word s.now) (box_slots s.now)) × (result < box_slots s.now) }
{
    let n = slots(s);
    bucket_of(d, s[n * 13 + 1], n)
}

// The bucket of the id in column `c` of slot `i`.
#[tactic(auto, unfolding(crate::specs::Index::hash_at, crate::specs::Index::last_at))]
pub(crate) fn bucket_at(s: &[u64], c: usize, i: usize) -> usize
    requires { (c < 2) × (i < box_slots s.now) }
    ensures { (result ≡ hash_at s.now c i) × (result < box_slots s.now) }
{
    let d = s[i * 11 + c * 6 + 3];
    bucket_in(s, d)
}

// Where the head of bucket `b` stands: the heads by box are behind the slots, and behind them those by owner.
#[tactic(auto, unfolding(crate::specs::Layout::head_place))]
fn head_place(s: &[u64], c: usize, b: usize) -> usize
    requires { b < box_slots s.now }
    ensures { (result ≡ head_place (box_slots s.now) c b) × (result < length s.now) }
{
    let n = slots(s);
    if c == 0 { n * 11 + b } else { n * 12 + b }
}

// The newest of the first n slots that is in bucket `b`. Entries and cache have this line and `link`'s over words that stand elsewhere: a common function
// would take both words and the test as parameters, and be no plainer.
#[tactic(auto, unfolding(crate::specs::Index::head_at, words::specs::Chains::checked))]
pub(crate) fn head(s: &[u64], c: usize, n: usize, b: usize) -> Option<usize>
    requires { (c < 2) × (n ≤ box_slots s.now) × (b < box_slots s.now) }
    ensures { name_of result ≡ checked (hash_at s.now c) n b (head_at s.now c b) }
{
    named(s[head_place(s, c, b)]).filter(|i| *i < n && bucket_at(s, c, *i) == b)
}

// The slot that slot `i` links to.
#[tactic(auto, unfolding(crate::specs::Index::link_at, words::specs::Chains::bounded))]
pub(crate) fn link(s: &[u64], c: usize, i: usize) -> Option<usize>
    requires { (c < 2) × (i < box_slots s.now) }
    ensures { name_of result ≡ bounded i (link_at s.now c i) }
{
    named(s[i * 11 + 5 + c * 5]).filter(|next| *next < i)
}

// Slot `n` is linked in at the head of its bucket.
pub(crate) fn link_in(s: &mut [u64], c: usize, n: usize)
    requires { (c < 2) × (n < box_slots s.old) }
    ensures { s.new ≡ linked_in s.old c n }
{
    let b = bucket_at(s, c, n);
    let older = name_of(head(s, c, n, b));
    let place = head_place(s, c, b);
    s[n * 11 + 5 + c * 5] = older;
    s[place] = name_of(Some(n));
}
