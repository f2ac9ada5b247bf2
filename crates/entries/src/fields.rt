// The words of an entry: the id's four, weight, base, size, cost, the validation cost's tag and value, created, last checked, height key, number of
// inputs. They are read by rank (`views`) and written in a slot.
#![tactic(auto, unfolding(crate::specs::Layout::entries_room))]

ghost use Rattle.std.specs.Prelude.{◌≡◌, ◌+◌, ◌≤◌, ◌<◌, length};
ghost use Rattle.words.specs.Rows.{stored};
ghost use Rattle.entries.specs.Cells.{slot_count, slot_words, field_place};
ghost use Rattle.entries.specs.Layout.{entries_room, entry_of};
ghost use Rattle.entries.specs.Storing.{entry_words};
ghost use Rattle.entries.specs.Held.{EntryPut};
ghost use Rattle.entries.specs.Crediting.{Stamps};

use crate::cells::{MEASURE, MEASURED, SLOT, put, slots};
use words::ids::{Id, put_id};
use words::rows::put_words;

#[derive(Clone, Copy)]
pub struct PoolEntry {
    pub id: Id,
    pub weight: u64,
    pub base: u64,
    pub size: u64,
    pub cost: u64,
    pub validation_cost: Option<u64>,
    pub created: u64,
    pub last_checked: u64,
    pub height_key: u64,
    pub inputs: u64,
}

// How many entries the words have room for.
pub fn entries_room(s: &[u64]) -> usize
    ensures { result ≡ entries_room s.now }
{
    slots(s)
}

// The fields that are a word by themselves, each by its place in the slot.
#[derive(Clone, Copy)]
pub(crate) enum Field {
    Weight = 4,
    Base = 5,
    Size = 6,
    Cost = 7,
    Created = 10,
    LastChecked = 11,
    HeightKey = 12,
    Inputs = 13,
}

impl Field {
    // A method, and no `as` where it is read: its clause says which place that is, and that it is in the slot.
    pub(crate) fn place(self) -> usize
        ensures { (result ≡ field_place self) × (result < slot_words) }
    {
        self as usize
    }
}

// When an entry came, and its base: what a histogram asks of every entry. Its slot is looked up once.
#[derive(Clone, Copy)]
pub struct Since {
    pub created: u64,
    pub base: u64,
}

// ---- what is written in a slot

// The entry's words, in place: an array of all fourteen would be copied once more.
fn put_row(s: &mut [u64], p: usize, e: PoolEntry)
    requires { p + 14 ≤ length s.old }
    ensures { s.new ≡ stored s.old p (entry_words e) }
{
    let measured = u64::from(e.validation_cost.is_some());
    let measure = e.validation_cost.unwrap_or(0);
    let behind_id = [
        e.weight,
        e.base,
        e.size,
        e.cost,
        measured,
        measure,
        e.created,
        e.last_checked,
        e.height_key,
        e.inputs,
    ];
    put_id(s, p, e.id);
    put_words(s, p + 4, &behind_id);
}

// Writes an entry. The slot's use and link stay as they are.
pub(crate) fn put_entry(s: &mut [u64], i: usize, e: PoolEntry)
    requires { i < slot_count s.old }
    ensures { EntryPut s.old s.new i (entry_of e) }
{
    put_row(s, i * SLOT, e);
}

// Writes a validation cost and the time of a check.
pub(crate) fn put_stamp(s: &mut [u64], i: usize, cost: Option<u64>, time: u64)
    requires { i < slot_count s.old }
    ensures { Stamps s.old s.new i cost time }
{
    put(s, i, MEASURED, u64::from(cost.is_some()));
    put(s, i, MEASURE, cost.unwrap_or(0));
    put(s, i, Field::LastChecked.place(), time);
}
