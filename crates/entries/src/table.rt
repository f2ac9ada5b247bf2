// The ordered pool's entries: found by id, put in, taken out, credited and stamped. Of the slots that are known n are in use; the first n ranks name them in
// order, and the ranks behind those name the others, which are used again first. So no entry is moved, and a word moves for each rank passed.
#![tactic(auto, unfolding(crate::specs::Layout::EntriesOk))]

ghost use Rattle.std.specs.Prelude.{◌≡◌, false, ◌+◌, ◌-◌, ◌≤◌, ◌<◌};
ghost use Rattle.words.specs.Ids.{id_of};
ghost use Rattle.words.specs.Find.{without, drop_last};
ghost use Rattle.entries.specs.Entries.{insert_by, pooled, credit, stamped};
ghost use Rattle.entries.specs.Cells.{slot_count};
ghost use Rattle.entries.specs.Layout.{EntriesOk, EntriesKept, Left, entry_of, entries_of};
ghost use Rattle.entries.specs.Held.{Settled, Cleared, Filled};
ghost use Rattle.entries.specs.Changing.{FoundRank, Grown};
ghost use Rattle.entries.specs.Crediting.{Raised};

use crate::cells::{USE, WEIGHT, get, known, put, put_raw, slot_at, slots};
use crate::chain::{find_slot, link_in, link_out};
use crate::fields::{PoolEntry, put_entry, put_stamp};
use crate::order::{rank, turn_in, turn_out};
use words::ids::Id;

// ---- what is looked for

// The rank of the entry with this id, of u slots of which n are in use.
pub(crate) fn find_rank(s: &[u64], u: usize, n: usize, id: Id) -> Option<usize>
    requires { (n ≤ u) × (u ≤ slot_count s.now) }
    ensures { FoundRank s.now u n (id_of id) result }
{
    let i = find_slot(s, u, id)?;
    let r = rank(s, n, get(s, i, WEIGHT), id);
    if r < n { Some(r) } else { None }
}

// ---- what the changes are made of

// Rank n names a slot that is not in use: one that was, or the first that never was, which is known from then on. Returns how many slots are known then.
fn free_slot(s: &mut [u64], u: usize, n: usize) -> usize
    requires { (n ≤ u) × (u ≤ slot_count s.old) × (n < slot_count s.old) }
    ensures { Grown s.old s.new u n result }
{
    if n < u {
        return u;
    }
    let end = slots(s);
    let t = u + 1;
    put(s, u, USE, 0);
    put_raw(s, u, u as u64);
    put_raw(s, end, t as u64);
    t
}

// The slot of rank n, which was not in use, gets an entry.
fn fill(s: &mut [u64], u: usize, n: usize, e: PoolEntry)
    requires { (n < u) × (u ≤ slot_count s.old) }
    ensures { Filled s.old s.new u n (entry_of e) }
{
    let i = slot_at(s, n);
    put_entry(s, i, e);
    link_in(s, u, i);
}

// The slot of rank n goes out of use.
#[tactic(auto, using(crate::specs::Held::cleared_at))]
fn clear(s: &mut [u64], u: usize, n: usize)
    requires { (n < u) × (u ≤ slot_count s.old) }
    ensures { Cleared s.old s.new u n }
{
    let i = slot_at(s, n);
    link_out(s, u, i);
}

// The entry at rank `at`, which has this weight and id, takes its place among those before it.
fn settle(s: &mut [u64], at: usize, weight: u64, id: Id)
    requires { at < slot_count s.old }
    ensures { Settled s.old s.new at weight (id_of id) }
{
    let to = rank(s, at, weight, id);
    turn_in(s, to, at);
}

// Adds to the weight of the entry at rank `at`. Returns it.
fn raise(s: &mut [u64], at: usize, amount: u64) -> u64
    requires { at < slot_count s.old }
    ensures { Raised s.old s.new at amount result }
{
    let i = slot_at(s, at);
    let w = get(s, i, WEIGHT).saturating_add(amount);
    put(s, i, WEIGHT, w);
    w
}

// ---- the changes
// These take the words and a count, and are no methods: what a struct with a `&mut` leaves is lost to callers that make it from another struct's field.

// Puts an entry, whose id is not among n, where the order has it.
pub fn insert_entry(s: &mut [u64], n: usize, e: PoolEntry)
    requires { EntriesOk s.old (n + 1) }
    ensures { EntriesKept s.old n → pooled (id_of e.id) (entries_of s.old n) ≡ false → Left s.old s.new (n + 1) (insert_by (entry_of e) (entries_of s.old n)) }
{
    let weight = e.weight;
    let id = e.id;
    let u = known(s, n);
    let t = free_slot(s, u, n);
    fill(s, t, n, e);
    settle(s, n, weight, id);
}

// Takes the entry with this id out of n, and returns how many are left: fewer than n exactly where it was there.
pub fn remove_entry(s: &mut [u64], n: usize, id: Id) -> usize
    requires { EntriesOk s.old n }
    ensures upper_bound { result ≤ n }
    ensures left { EntriesKept s.old n → Left s.old s.new result (without (λ e. e.id) (id_of id) (entries_of s.old n)) }
{
    let u = known(s, n);
    let Some(at) = find_rank(s, u, n, id) else {
        return n;
    };
    let last = n - 1;
    turn_out(s, at, last);
    clear(s, u, last);
    last
}

// Takes the entry at the last of n ranks out. No word of a rank moves.
pub fn remove_lowest(s: &mut [u64], n: usize)
    requires entries_ok { EntriesOk s.old n }
    requires n_nonzero { 0 < n }
    ensures { EntriesKept s.old n → Left s.old s.new (n - 1) (drop_last (entries_of s.old n)) }
{
    let u = known(s, n);
    clear(s, u, n - 1);
}

// Adds to the weight of the entry with this id, and puts it where the order then has it, which is at or before its old place.
pub fn credit_entry(s: &mut [u64], n: usize, id: Id, amount: u64)
    requires { EntriesOk s.old n }
    ensures { EntriesKept s.old n → Left s.old s.new n (credit amount (id_of id) (entries_of s.old n)) }
{
    let u = known(s, n);
    if let Some(at) = find_rank(s, u, n, id) {
        let w = raise(s, at, amount);
        settle(s, at, w, id);
    }
}

// Gives the entry with this id a validation cost and the time of its check. Its rank is not looked for.
pub fn stamp_entry(s: &mut [u64], n: usize, id: Id, cost: Option<u64>, time: u64)
    requires { EntriesOk s.old n }
    ensures { EntriesKept s.old n → Left s.old s.new n (stamped (id_of id) cost time (entries_of s.old n)) }
{
    if let Some(i) = find_slot(s, known(s, n), id) {
        put_stamp(s, i, cost, time);
    }
}
