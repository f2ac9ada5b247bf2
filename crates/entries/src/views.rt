// The table as its readers know it: entries found by id, and their fields by rank.
#![tactic(auto, unfolding(crate::specs::Layout::EntriesOk))]

ghost use Rattle.std.specs.Prelude.{Some};
ghost use Rattle.std.specs.Prelude.{◌≡◌, ℕ, ◌<◌};
ghost use Rattle.words.specs.Ids.{id_of};
ghost use Rattle.entries.specs.Cells.{word_of};
ghost use Rattle.entries.specs.Entries.{pooled, place_of};
ghost use Rattle.entries.specs.Layout.{EntriesOk, EntriesKept, ok-one, entry_of, entry_at, entries_of};

use crate::cells::{MEASURE, MEASURED, get, id_in, known, slot_at};
use crate::chain::find_slot;
use crate::fields::{Field, PoolEntry, Since};
use crate::table::find_rank;
use words::ids::Id;

// The words of a table and how many entries it has, lent to be read.
#[derive(Clone, Copy)]
pub struct Entries<'a> {
    words: &'a [u64],
    pooled: usize,
    ghost fits: { EntriesOk words.now pooled } by { ok-one words.now pooled },
}

impl<'a> Entries<'a> {
    pub fn new(words: &'a [u64], pooled: usize) -> Entries<'a>
        requires { EntriesOk words.now pooled }
        ensures { (result.words.now ≡ words.now) × (result.pooled ≡ pooled) }
    {
        Entries { words, pooled }
    }

    pub fn len(&self) -> usize
        ensures { result ≡ self.now.pooled }
    {
        self.pooled
    }

    // ---- the fields of the entry at rank i

    fn word_at(&self, i: usize, field: Field) -> u64
        requires { i < self.now.pooled }
        ensures { result ≡ word_of (entry_at self.now.words.now i) field }
    {
        get(self.words, slot_at(self.words, i), field.place())
    }

    pub fn id_at(&self, i: usize) -> Id
        requires { i < self.now.pooled }
        ensures { id_of result ≡ (entry_at self.now.words.now i).id }
    {
        id_in(self.words, slot_at(self.words, i))
    }

    pub fn weight_at(&self, i: usize) -> u64
        requires { i < self.now.pooled }
        ensures { result ≡ (entry_at self.now.words.now i).weight }
    {
        self.word_at(i, Field::Weight)
    }

    pub fn base_at(&self, i: usize) -> u64
        requires { i < self.now.pooled }
        ensures { result ≡ (entry_at self.now.words.now i).base }
    {
        self.word_at(i, Field::Base)
    }

    pub fn validation_cost_at(&self, i: usize) -> Option<u64>
        requires { i < self.now.pooled }
        ensures { result ≡ (entry_at self.now.words.now i).validation_cost }
    {
        let k = slot_at(self.words, i);
        (get(self.words, k, MEASURED) != 0).then_some(get(self.words, k, MEASURE))
    }

    pub fn created_at(&self, i: usize) -> u64
        requires { i < self.now.pooled }
        ensures { result ≡ (entry_at self.now.words.now i).created }
    {
        self.word_at(i, Field::Created)
    }

    pub fn since_at(&self, i: usize) -> Since
        requires { i < self.now.pooled }
        ensures { (result.created ≡ (entry_at self.now.words.now i).created) × (result.base ≡ (entry_at self.now.words.now i).base) }
    {
        let k = slot_at(self.words, i);
        Since {
            created: get(self.words, k, Field::Created.place()),
            base: get(self.words, k, Field::Base.place()),
        }
    }

    pub fn last_checked_at(&self, i: usize) -> u64
        requires { i < self.now.pooled }
        ensures { result ≡ (entry_at self.now.words.now i).last_checked }
    {
        self.word_at(i, Field::LastChecked)
    }

    pub fn height_key_at(&self, i: usize) -> u64
        requires { i < self.now.pooled }
        ensures { result ≡ (entry_at self.now.words.now i).height_key }
    {
        self.word_at(i, Field::HeightKey)
    }

    pub fn inputs_at(&self, i: usize) -> u64
        requires { i < self.now.pooled }
        ensures { result ≡ (entry_at self.now.words.now i).inputs }
    {
        self.word_at(i, Field::Inputs)
    }

    pub fn entry_at(&self, i: usize) -> PoolEntry
        requires { i < self.now.pooled }
        ensures { entry_of result ≡ entry_at self.now.words.now i }
    {
        PoolEntry {
            id: self.id_at(i),
            weight: self.weight_at(i),
            base: self.base_at(i),
            size: self.word_at(i, Field::Size),
            cost: self.word_at(i, Field::Cost),
            validation_cost: self.validation_cost_at(i),
            created: self.created_at(i),
            last_checked: self.last_checked_at(i),
            height_key: self.height_key_at(i),
            inputs: self.inputs_at(i),
        }
    }

    // ---- what is looked for

    // The rank of the entry with this id.
    pub fn find(&self, id: Id) -> Option<usize>
        ensures by_index { (i : ℕ) → result ≡ Some i → i < self.now.pooled }
        ensures value { EntriesKept self.now.words.now self.now.pooled → result ≡ place_of (id_of id) (entries_of self.now.words.now self.now.pooled) }
    {
        find_rank(self.words, known(self.words, self.pooled), self.pooled, id)
    }

    // Whether an entry has this id: its slot is found, and no rank.
    pub fn is_pooled(&self, id: Id) -> bool
        ensures { EntriesKept self.now.words.now self.now.pooled → result ≡ pooled (id_of id) (entries_of self.now.words.now self.now.pooled) }
    {
        find_slot(self.words, known(self.words, self.pooled), id).is_some()
    }
}
