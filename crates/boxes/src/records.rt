// The box records as the pool changes them: a transaction's records enter, and leave. Functions over the words and a count, not methods of a struct:
// tried, what a struct with a `&mut` writes is lost to a caller that made it from a field of its own.
ghost use Rattle.std.specs.Prelude.{◌≡◌, true, false, ◌+◌, ◌-◌, ◌≤◌, ◌<◌};
ghost use Rattle.words.specs.Ids.{id_of};
ghost use Rattle.boxes.specs.Flat.{count_of, ids_of};
ghost use Rattle.boxes.specs.Layout.{box_slots, part_slots, boxes_room, BoxesOk};
ghost use Rattle.boxes.specs.Index.{BoxesKept};
ghost use Rattle.boxes.specs.Leaving.{Left, AllLeft};
ghost use Rattle.boxes.specs.Hiding.{Hid, Hidden};
ghost use Rattle.boxes.specs.Compacting.{Moved, Compacted, Roomy};
ghost use Rattle.boxes.specs.Writing.{Wrote, WroteBoth};
ghost use Rattle.boxes.specs.Linking.{OneIn, AllIn};
ghost use Rattle.boxes.specs.Posts.{Dropped, Behind, Entered};

use crate::kinds::Kind;
use crate::links::{bucket_in, head, link, link_in};
use crate::lists::{Ids, TxIds};
use crate::rows::{
    box_key, box_out, boxes_room, hide_box, is_entry, is_gone, is_owner, move_box, put_slot,
    put_used, slots, slots_used, vacate_box,
};
use words::ids::Id;

// ---- a transaction leaves

// Vacates slot `i` if it holds a record of the transaction. Returns how many of n records there are then.
fn leave(s: &mut [u64], i: usize, owner: Id, n: usize) -> usize
    requires { i < box_slots s.old }
    ensures { Left s.old s.new i (id_of owner) n result }
{
    if is_gone(s, i) || !is_owner(s, i, owner) {
        return n;
    }
    vacate_box(s, i);
    n.saturating_sub(1)
}

// The records of a transaction leave the first `used` slots, in which there are n: the walk goes through one bucket of owners.
fn leave_all(s: &mut [u64], used: usize, n: usize, owner: Id) -> usize
    requires { (0 < used) × (used ≤ box_slots s.old) }
    ensures { AllLeft s.old s.new used n result (id_of owner) }
{
    let mut left = n;
    let mut next = head(s, 1, used, bucket_in(s, owner.d));
    while let Some(i) = next {
        left = leave(s, i, owner, left);
        next = link(s, 1, i);
    }
    left
}

// All records that a transaction owns go. Returns how many are left. Their slots stay used until the records are moved together.
pub fn drop_owner(s: &mut [u64], n: usize, owner: Id) -> usize
    requires { BoxesOk s.old n }
    ensures upper_bound { result ≤ n }
    ensures dropped { BoxesKept s.old n → Dropped s.old s.new n result (id_of owner) }
{
    if n == 0 {
        return 0;
    }
    let used = slots_used(s, n);
    let r = leave_all(s, used, n, owner);
    put_used(s, used);
    r
}

// ---- vacated slots are used again

// The record in slot `from` moves to slot `to`, and is linked in there.
fn move_in(s: &mut [u64], from: usize, to: usize)
    requires { (from < box_slots s.old) × (to < box_slots s.old) }
    ensures { Moved s.old s.new from to }
{
    move_box(s, from, to);
    link_in(s, 0, to);
    link_in(s, 1, to);
}

// Moves the records together, in order, and returns how many there are. The indexes are made anew on the way, whatever they were.
fn compact(s: &mut [u64], used: usize) -> usize
    requires { used ≤ box_slots s.old }
    ensures { Compacted s.old s.new used result }
{
    let mut kept = 0;
    for from in 0..used {
        if is_gone(s, from) {
            continue;
        }
        move_in(s, from, kept);
        kept += 1;
    }
    kept
}

// Sees to it that so many more records have slots behind the used ones, where they can have. Returns how many are used then. The records stay what they are.
fn make_room(s: &mut [u64], used: usize, needed: usize) -> usize
    requires { used ≤ box_slots s.old }
    ensures { Roomy s.old s.new used result needed }
{
    if slots(s) - used < needed {
        return compact(s, used);
    }
    used
}

// ---- a transaction enters

// Writes the boxes of a list from slot `at` of the free part on, all live.
fn write_list(free: &mut [u64], at: usize, owner: Id, out: bool, list: &Ids<'_>)
    requires { at + count_of list.now.width list.now.words.now ≤ part_slots free.old }
    ensures { Wrote free.old free.new at (count_of list.now.width list.now.words.now) (id_of owner) out list.now.width list.now.words.now }
{
    for i in 0..list.len() {
        put_slot(free, at + i, list.id_at(i), owner, Kind::live(out));
    }
}

// Writes a newcomer's records into the free part, its inputs and then its outputs.
fn write_records(free: &mut [u64], owner: Id, lists: &TxIds<'_>)
    requires outputs_bound { count_of lists.now.inputs.width lists.now.inputs.words.now + count_of lists.now.outputs.width lists.now.outputs.words.now ≤ part_slots free.old }
    ensures { WroteBoth free.old free.new 0 (id_of owner) lists.now.inputs.width lists.now.inputs.words.now lists.now.outputs.width lists.now.outputs.words.now }
{
    let at = lists.inputs.len();
    write_list(free, 0, owner, false, &lists.inputs);
    write_list(free, at, owner, true, &lists.outputs);
}

// The part of the lent area behind the used slots is lent on to the writer.
fn write_behind(s: &mut [u64], used: usize, owner: Id, lists: &TxIds<'_>)
    requires outputs_bound { used + (count_of lists.now.inputs.width lists.now.inputs.words.now + count_of lists.now.outputs.width lists.now.outputs.words.now) ≤ box_slots s.old }
    ensures { WroteBoth s.old s.new used (id_of owner) lists.now.inputs.width lists.now.inputs.words.now lists.now.outputs.width lists.now.outputs.words.now }
{
    let from = used * 11;
    write_records(&mut s[from..], owner, lists);
}

// Hides slot `i` if it is the index's entry for a box.
fn hide_at(s: &mut [u64], i: usize, out: bool, key: Id)
    requires { i < box_slots s.old }
    ensures { Hid s.old s.new i out (id_of key) }
{
    if is_entry(s, i, out, key) {
        hide_box(s, i, out);
    }
}

// The entries for a box in the first n slots are hidden: the walk goes through one bucket of boxes.
fn hide_all(s: &mut [u64], n: usize, out: bool, key: Id)
    requires { n ≤ box_slots s.old }
    ensures { Hidden s.old s.new n out (id_of key) }
{
    if n == 0 {
        return;
    }
    let mut next = head(s, 0, n, bucket_in(s, key.d));
    while let Some(i) = next {
        hide_at(s, i, out, key);
        next = link(s, 0, i);
    }
}

// The record in slot `i` enters behind those before it: the older entries for its box are hidden, and it is linked in.
fn enter_slot(s: &mut [u64], i: usize)
    requires { i < box_slots s.old }
    ensures { OneIn s.old s.new i }
{
    let key = box_key(s, i);
    let out = box_out(s, i);
    hide_all(s, i, out, key);
    link_in(s, 0, i);
    link_in(s, 1, i);
}

// So many records that stand behind the used slots enter, one after the other: of a box that they repeat, the last stays the index's entry.
fn enter_slots(s: &mut [u64], used: usize, n: usize)
    requires { used + n ≤ box_slots s.old }
    ensures { AllIn s.old s.new used n }
{
    for i in 0..n {
        enter_slot(s, used + i);
    }
}

// A newcomer's records enter behind the used slots.
fn enter_behind(s: &mut [u64], used: usize, owner: Id, lists: &TxIds<'_>)
    requires outputs_bound { used + (count_of lists.now.inputs.width lists.now.inputs.words.now + count_of lists.now.outputs.width lists.now.outputs.words.now) ≤ box_slots s.old }
    ensures { Behind s.old s.new used (count_of lists.now.inputs.width lists.now.inputs.words.now + count_of lists.now.outputs.width lists.now.outputs.words.now) (id_of owner) (ids_of lists.now.inputs.width lists.now.inputs.words.now) (ids_of lists.now.outputs.width lists.now.outputs.words.now) }
{
    let n = lists.len();
    write_behind(s, used, owner, lists);
    enter_slots(s, used, n);
    put_used(s, used + n);
}

// A transaction's records enter: older ones of its boxes are hidden, and the new ones stand behind them. Returns how many records there are then.
// Where there is no room for them, none enters.
pub fn enter_tx(s: &mut [u64], n: usize, owner: Id, lists: &TxIds<'_>) -> usize
    requires boxes_ok { BoxesOk s.old n }
    ensures boxes_ok_2 { BoxesOk s.new result }
    ensures entered { BoxesKept s.old n → n + (count_of lists.now.inputs.width lists.now.inputs.words.now + count_of lists.now.outputs.width lists.now.outputs.words.now) ≤ boxes_room s.old → Entered s.old s.new n result (id_of owner) (ids_of lists.now.inputs.width lists.now.inputs.words.now) (ids_of lists.now.outputs.width lists.now.outputs.words.now) }
{
    let needed = lists.len();
    if boxes_room(s) - n < needed {
        return n;
    }
    let used = make_room(s, slots_used(s, n), needed);
    if slots(s) - used < needed {
        return n;
    }
    enter_behind(s, used, owner, lists);
    n + needed
}
