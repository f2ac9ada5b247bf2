// The pool's words as a call has them once its counts were found to fit: `Pool` to read, `PoolMut` to change. Both are flat, entries and boxes side by
// side: of a table in a struct of its own, in the pool's, no clause could be proved that the caller's words become what it leaves.
ghost use Rattle.std.specs.Prelude.{◌≡◌, true, false, not, ◌+◌, ◌≤◌, ◌<◌, ltb};
ghost use Rattle.words.specs.Ids.{id_of};
ghost use Rattle.entries.specs.Entries.{pooled, credit};
ghost use Rattle.entries.specs.Layout.{EntriesKept, entry_of, entries_of, entries_room};
ghost use Rattle.entries.specs.Layout.{Left as Rows};
ghost use Rattle.boxes.specs.Layout.{boxes_room};
ghost use Rattle.boxes.specs.Index.{BoxesKept};
ghost use Rattle.boxes.specs.Flat.{count_of, ids_of};
ghost use Rattle.pool.specs.Pool.{PoolFits, fits-one, Room, no_room, tables_of, insert_tx, remove_tx, remove_all, drop_low};

use crate::lowest_id;
use boxes::lists::{Ids, TxIds};
use boxes::records::{drop_owner, enter_tx};
use boxes::rows::boxes_room;
use boxes::views::Boxes;
use entries::fields::{PoolEntry, entries_room};
use entries::table::{credit_entry, insert_entry, remove_entry, remove_lowest};
use entries::views::Entries;
use pool_types::Counts;
use words::ids::Id;

// The pool, lent to be read.
#[derive(Clone, Copy)]
pub struct Pool<'a> {
    entries: &'a [u64],
    boxes: &'a [u64],
    counts: Counts,
    ghost fits: { PoolFits entries.now boxes.now counts } by { fits-one entries.now boxes.now counts },
}

impl<'a> Pool<'a> {
    pub fn new(entries: &'a [u64], boxes: &'a [u64], counts: Counts) -> Pool<'a>
        requires { PoolFits entries.now boxes.now counts }
        ensures { (result.entries.now ≡ entries.now) × (result.boxes.now ≡ boxes.now) × (result.counts ≡ counts) }
    {
        Pool {
            entries,
            boxes,
            counts,
        }
    }

    pub fn entries(&self) -> Entries<'_>
        ensures { (result.words.now ≡ self.now.entries.now) × (result.pooled ≡ self.now.counts.pooled) }
    {
        Entries::new(self.entries, self.counts.pooled)
    }

    pub fn boxes(&self) -> Boxes<'_>
        ensures { (result.words.now ≡ self.now.boxes.now) × (result.records ≡ self.now.counts.records) }
    {
        Boxes::new(self.boxes, self.counts.records)
    }

    // Refusal 27, turned round: whether one more entry and so many more box records have room.
    pub fn room_for(&self, needed: usize) -> bool
        ensures room { result ≡ true → Room self.now.entries.now self.now.boxes.now self.now.counts needed }
        ensures value { BoxesKept self.now.boxes.now self.now.counts.records → result ≡ not (no_room (entries_room self.now.entries.now) (boxes_room self.now.boxes.now) (tables_of self.now.entries.now self.now.boxes.now self.now.counts) needed) }
    {
        self.counts.pooled < entries_room(self.entries)
            && needed <= boxes_room(self.boxes) - self.counts.records
    }
}

// The pool, lent to be changed. A function that changes it says that its words are still the same ones (`Same`): by that a caller knows what its own
// words become.
#[derive(Drop)]
pub struct PoolMut<'a> {
    pub entries: &'a mut [u64],
    pub boxes: &'a mut [u64],
    pub counts: Counts,
    ghost fits: { PoolFits entries.now boxes.now counts } by { fits-one entries.now boxes.now counts },
}

impl<'a> PoolMut<'a> {
    ghost use Rattle.pool.specs.Lent.{Same, KeptIn, LeftIn, FewerIn, RoomIn, tables_in};

    pub fn pool(&self) -> Pool<'_>
        ensures { (result.entries.now ≡ self.now.entries.now) × (result.boxes.now ≡ self.now.boxes.now) × (result.counts ≡ self.now.counts) }
    {
        Pool::new(self.entries, self.boxes, self.counts)
    }

    // `Pool` has these two lines too: a trait for them is no plainer.
    pub fn entries(&self) -> Entries<'_>
        ensures { (result.words.now ≡ self.now.entries.now) × (result.pooled ≡ self.now.counts.pooled) }
    {
        Entries::new(self.entries, self.counts.pooled)
    }

    pub fn boxes(&self) -> Boxes<'_>
        ensures { (result.words.now ≡ self.now.boxes.now) × (result.records ≡ self.now.counts.records) }
    {
        Boxes::new(self.boxes, self.counts.records)
    }

    // ---- a transaction enters and leaves

    // Puts an entry where the order has it, and enters the records of its inputs and outputs.
    pub fn insert(&mut self, e: PoolEntry, lists: &TxIds<'_>)
        requires { RoomIn self.old (count_of lists.now.inputs.width lists.now.inputs.words.now + count_of lists.now.outputs.width lists.now.outputs.words.now) }
        ensures same { Same self.old self.new }
        ensures left { KeptIn self.old → pooled (id_of e.id) (entries_of self.old.entries.now self.old.counts.pooled) ≡ false
            → LeftIn self.new (insert_tx (entry_of e) (ids_of lists.now.inputs.width lists.now.inputs.words.now) (ids_of lists.now.outputs.width lists.now.outputs.words.now) (tables_in self.old)) }
    {
        self.counts.records = enter_tx(self.boxes, self.counts.records, e.id, lists);
        insert_entry(self.entries, self.counts.pooled, e);
        self.counts.pooled += 1;
    }

    // Takes a transaction out with its records, and tells whether it was pooled. One that was not changes nothing.
    pub fn remove(&mut self, id: Id) -> bool
        ensures same { Same self.old self.new }
        ensures told { result ≡ ltb self.new.counts.pooled self.old.counts.pooled }
        ensures fewer { FewerIn self.old self.new }
        ensures left { KeptIn self.old → LeftIn self.new (remove_tx (id_of id) (tables_in self.old)) }
    {
        let pooled = remove_entry(self.entries, self.counts.pooled, id);
        if pooled == self.counts.pooled {
            return false;
        }
        self.counts.pooled = pooled;
        self.counts.records = drop_owner(self.boxes, self.counts.records, id);
        true
    }

    // Removes the ids of a list, one after the other. Without an id no word changes.
    pub fn remove_all(&mut self, list: &Ids<'_>)
        ensures same { Same self.old self.new }
        ensures fewer { FewerIn self.old self.new }
        ensures left { KeptIn self.old → LeftIn self.new (remove_all (ids_of list.now.width list.now.words.now) (tables_in self.old)) }
        ensures entries_unchanged { count_of list.now.width list.now.words.now ≡ 0 → (self.new.entries.now ≡ self.old.entries.now) × (self.new.boxes.now ≡ self.old.boxes.now) × (self.new.counts ≡ self.old.counts) }
    {
        for i in 0..list.len() {
            self.remove(list.id_at(i));
        }
    }

    // Takes out the lowest with its records.
    pub fn evict_lowest(&mut self)
        requires { 0 < self.old.counts.pooled }
        ensures same { Same self.old self.new }
        ensures fewer { FewerIn self.old self.new × (self.new.counts.pooled + 1 ≡ self.old.counts.pooled) }
        ensures left { KeptIn self.old → LeftIn self.new (drop_low (tables_in self.old)) }
    {
        let low = lowest_id(&self.entries());
        self.counts.records = drop_owner(self.boxes, self.counts.records, low);
        remove_lowest(self.entries, self.counts.pooled);
        self.counts.pooled -= 1;
    }

    // ---- an entry changes

    // Adds to the weight of the entry with this id.
    pub fn credit(&mut self, id: Id, amount: u64)
        ensures same { Same self.old self.new }
        ensures others { (self.new.boxes.now ≡ self.old.boxes.now) × (self.new.counts ≡ self.old.counts) }
        ensures rows { EntriesKept self.old.entries.now self.old.counts.pooled → Rows self.old.entries.now self.new.entries.now self.old.counts.pooled (credit amount (id_of id) (entries_of self.old.entries.now self.old.counts.pooled)) }
    {
        credit_entry(self.entries, self.counts.pooled, id, amount);
    }
}
