// The words of the table. Only this module and `fields` know the layout: S slots, (words − 2) / 18, of seventeen words each; behind them a word for each
// rank, which names a slot; then how many slots are known, and the key of the buckets.
#![tactic(auto, unfolding(crate::specs::Cells::cell, crate::specs::Cells::raw_at, crate::specs::Cells::put_cell, crate::specs::Cells::put_raw, crate::specs::Cells::slot_of))]

ghost use Rattle.std.specs.Prelude.{◌≡◌, ◌+◌, ◌*◌, ◌≤◌, ◌<◌};
ghost use Rattle.words.specs.Ids.{id_of};
ghost use Rattle.entries.specs.Cells.{slot_count, slot_words, Stands, cell, raw_at, put_cell, put_raw, known_of, slot_named, slot_of, id_in};

use words::ids::{Id, get_id};

// The words of a slot: an entry's are 0 to 13, the last of the id 3 and the weight 4.
pub(crate) const SLOT: usize = 17;

pub(crate) const LAST: usize = 3;

pub(crate) const WEIGHT: usize = 4;
// Of the validation cost: whether there is one (1), and which.
pub(crate) const MEASURED: usize = 8;

pub(crate) const MEASURE: usize = 9;
// Whether the slot is in use (1), what it links to, and the head of the bucket that has the slot's number.
pub(crate) const USE: usize = 14;

pub(crate) const LINK: usize = 15;

pub(crate) const HEAD: usize = 16;

// How many slots there are. The functions of this file take the words beside a slot or a rank: no count travels with them that a struct could keep.
pub(crate) fn slots(s: &[u64]) -> usize
    ensures { result ≡ slot_count s.now }
{
    s.len().saturating_sub(2) / 18
}

// Word `a` of slot `i`.
pub(crate) fn get(s: &[u64], i: usize, a: usize) -> u64
    requires { (i < slot_count s.now) × (a < slot_words) }
    ensures { result ≡ cell s.now i a }
{
    s[i * SLOT + a]
}

pub(crate) fn put(s: &mut [u64], i: usize, a: usize, v: u64)
    requires { (i < slot_count s.old) × (a < slot_words) }
    ensures { s.new ≡ put_cell s.old i a v }
{
    s[i * SLOT + a] = v;
}

// Where the word of rank `r` stands.
pub(crate) fn place(s: &[u64], r: usize) -> usize
    requires { Stands s.now r }
    ensures { result ≡ slot_count s.now * slot_words + r }
{
    slots(s) * SLOT + r
}

// The word of rank `r`.
pub(crate) fn raw(s: &[u64], r: usize) -> u64
    requires { Stands s.now r }
    ensures { result ≡ raw_at s.now r }
{
    s[place(s, r)]
}

pub(crate) fn put_raw(s: &mut [u64], r: usize, v: u64)
    requires { Stands s.old r }
    ensures { s.new ≡ put_raw s.old r v }
{
    let p = place(s, r);
    s[p] = v;
}

// How many slots are known where n are in use. A word that says too little or too much is not believed, nor is any where none is in use.
pub(crate) fn known(s: &[u64], n: usize) -> usize
    requires { n ≤ slot_count s.now }
    ensures { (result ≡ known_of s.now n) × (n ≤ result) × (result ≤ slot_count s.now) }
{
    if n == 0 {
        return 0;
    }
    let most = slots(s);
    (raw(s, most) as usize).clamp(n, most)
}

// The slot that the word of a rank names. A word that names no slot is taken for the first.
pub(crate) fn slot_named(s: &[u64], word: u64) -> usize
    requires { 0 < slot_count s.now }
    ensures { (result ≡ slot_named s.now word) × (result < slot_count s.now) }
{
    let slot = word as usize;
    if slot < slots(s) { slot } else { 0 }
}

// The slot of rank `r`.
pub(crate) fn slot_at(s: &[u64], r: usize) -> usize
    requires { r < slot_count s.now }
    ensures { (result ≡ slot_of s.now r) × (result < slot_count s.now) }
{
    slot_named(s, raw(s, r))
}

// The id in slot `i`.
pub(crate) fn id_in(s: &[u64], i: usize) -> Id
    requires { i < slot_count s.now }
    ensures { id_of result ≡ id_in s.now i }
{
    get_id(s, i * SLOT)
}
