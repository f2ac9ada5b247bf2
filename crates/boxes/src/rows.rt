// The words of the box records. A slot has eleven: the box's id, the kind, the slot's link in the index of boxes, the owner's id, and its link in the
// index of owners, so that what a search reads of a slot stands together. Behind the slots stand the heads of all buckets of boxes, those of
// all buckets of owners, how many slots are used, and the key of the buckets. Only this file and links.rt know the layout.
ghost use Rattle.std.specs.Prelude.{◌≡◌, ◌≤◌, ◌<◌, eqb, set};
ghost use Rattle.words.specs.Lists.{pick};
ghost use Rattle.words.specs.Ids.{id_of};
ghost use Rattle.boxes.specs.Records.{is_input};
ghost use Rattle.boxes.specs.Lookup.{is_entry};
ghost use Rattle.boxes.specs.Layout.{box_slots, part_slots, boxes_room, BoxesOk, kind_place, used_place, key_at, kind_at, slot_of, box_at, slot_at, slots_used};
ghost use Rattle.boxes.specs.Kinds.{kind_number, kind_of};
ghost use Rattle.boxes.specs.Stores.{Put};

use crate::kinds::Kind;
use words::ids::{Id, get_id, put_id};

// How many slots the lent area has. Entries and cache have this line with numbers of their own: one function of the number is no plainer.
pub(crate) fn slots(s: &[u64]) -> usize
    ensures { result ≡ box_slots s.now }
{
    s.len().saturating_sub(2) / 13
}

// How many records it holds. The rest of the slots is slack: records are moved together once in many insertions, however full it is.
#[tactic(auto, unfolding(crate::specs::Layout::boxes_room))]
pub fn boxes_room(s: &[u64]) -> usize
    ensures { result ≡ boxes_room s.now }
{
    slots(s) * 4 / 5
}

// ---- what is read

// How many slots are used, of n records. The word may be anything, in words that no start left, and where there are no records it is not read.
#[tactic(auto, unfolding(crate::specs::Layout::BoxesOk, crate::specs::Layout::boxes_room, crate::specs::Layout::used_word, crate::specs::Layout::slots_used))]
pub(crate) fn slots_used(s: &[u64], n: usize) -> usize
    requires { BoxesOk s.now n }
    ensures value { result ≡ slots_used s.now n }
    ensures low { n ≤ result }
    ensures high { result ≤ box_slots s.now }
{
    if n == 0 {
        return 0;
    }
    let most = slots(s);
    (s[most * 13] as usize).clamp(n, most)
}

// The id in column `c` of slot `i`: 0 for the box's, 1 for the owner's.
#[tactic(auto, unfolding(crate::specs::Layout::key_at))]
pub(crate) fn column_id(s: &[u64], c: usize, i: usize) -> Id
    requires { (c < 2) × (i < box_slots s.now) }
    ensures { id_of result ≡ key_at s.now c i }
{
    get_id(s, i * 11 + c * 6)
}

// The word of a slot's kind.
#[tactic(auto, unfolding(crate::specs::Layout::kind_at))]
fn kind_word(s: &[u64], i: usize) -> u64
    requires { i < box_slots s.now }
    ensures { result ≡ kind_at s.now i }
{
    s[i * 11 + 4]
}

fn kind_at(s: &[u64], i: usize) -> Kind
    requires { i < box_slots s.now }
    ensures { result ≡ kind_of (kind_at s.now i) }
{
    Kind::from(kind_word(s, i))
}

// The box of the record in slot `i`.
#[tactic(auto, unfolding(crate::specs::Layout::box_at, crate::specs::Layout::slot_at))]
pub(crate) fn box_key(s: &[u64], i: usize) -> Id
    requires { i < box_slots s.now }
    ensures { id_of result ≡ (box_at s.now i).box }
{
    column_id(s, 0, i)
}

// Its owner.
#[tactic(auto, unfolding(crate::specs::Layout::box_at, crate::specs::Layout::slot_at))]
pub(crate) fn box_owner(s: &[u64], i: usize) -> Id
    requires { i < box_slots s.now }
    ensures { id_of result ≡ (box_at s.now i).owner }
{
    column_id(s, 1, i)
}

// Whether it is an output of its owner.
pub(crate) fn box_out(s: &[u64], i: usize) -> bool
    requires { i < box_slots s.now }
    ensures { result ≡ (box_at s.now i).out }
{
    kind_at(s, i).is_output()
}

// Whether the slot was vacated.
pub(crate) fn is_gone(s: &[u64], i: usize) -> bool
    requires { i < box_slots s.now }
    ensures { result ≡ (slot_at s.now i).gone }
{
    kind_at(s, i) == Kind::Gone
}

// Whether a transaction owns the record.
pub(crate) fn is_owner(s: &[u64], i: usize, owner: Id) -> bool
    requires { i < box_slots s.now }
    ensures { result ≡ eqb (box_at s.now i).owner (id_of owner) }
{
    box_owner(s, i) == owner
}

// Whether it is an input of the transaction.
pub(crate) fn is_input(s: &[u64], i: usize, owner: Id) -> bool
    requires { i < box_slots s.now }
    ensures { result ≡ is_input (id_of owner) (box_at s.now i) }
{
    is_owner(s, i, owner) && !box_out(s, i)
}

// Whether it is an index's entry for a box. The ids are compared first: of two that share a bucket alone they differ, which is foreseen, while the kind is
// one or the other.
pub(crate) fn is_entry(s: &[u64], i: usize, out: bool, key: Id) -> bool
    requires { i < box_slots s.now }
    ensures { result ≡ is_entry out (id_of key) (box_at s.now i) }
{
    box_key(s, i) == key && kind_at(s, i) == Kind::live(out)
}

// ---- what is written

// Writes the record of slot `i` of a part that starts with a slot, its kind as a word. The words of the indexes stay as they are.
fn put_whole(s: &mut [u64], i: usize, key: Id, owner: Id, kind: u64)
    requires { i < part_slots s.old }
    ensures { Put s.old s.new i (slot_of (id_of key) (id_of owner) kind) }
{
    let p = i * 11;
    put_id(s, p, key);
    put_id(s, p + 6, owner);
    s[p + 4] = kind;
}

// The same, of a kind that is known.
pub(crate) fn put_slot(s: &mut [u64], i: usize, key: Id, owner: Id, kind: Kind)
    requires { i < part_slots s.old }
    ensures { Put s.old s.new i (slot_of (id_of key) (id_of owner) (kind_number kind)) }
{
    put_whole(s, i, key, owner, u64::from(kind));
}

// The record in slot `from`, written to slot `to` too. The word of its kind goes as it stands: in words that no start left it may be one that no `Kind`
// is written as.
pub(crate) fn move_box(s: &mut [u64], from: usize, to: usize)
    requires { (from < box_slots s.old) × (to < box_slots s.old) }
    ensures { Put s.old s.new to (slot_at s.old from) }
{
    let key = column_id(s, 0, from);
    let owner = column_id(s, 1, from);
    let kind = kind_word(s, from);
    put_whole(s, to, key, owner, kind);
}

// Slot `i` is free to be used again. It stays in its chains.
pub(crate) fn vacate_box(s: &mut [u64], i: usize)
    requires { i < box_slots s.old }
    ensures { s.new ≡ set s.old (kind_place i) 2 }
{
    s[i * 11 + 4] = u64::from(Kind::Gone);
}

// The record in slot `i` is no more an index's entry. It stays in its chains.
pub(crate) fn hide_box(s: &mut [u64], i: usize, out: bool)
    requires { i < box_slots s.old }
    ensures { s.new ≡ set s.old (kind_place i) (pick out 4 3) }
{
    s[i * 11 + 4] = u64::from(Kind::hidden(out));
}

// So many slots are used.
pub(crate) fn put_used(s: &mut [u64], used: usize)
    ensures { s.new ≡ set s.old (used_place (box_slots s.old)) used }
{
    let at = slots(s) * 13;
    if at < s.len() {
        s[at] = used as u64;
    }
}
