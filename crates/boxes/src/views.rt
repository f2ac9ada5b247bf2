// The box records, lent to be read.
ghost use Rattle.std.specs.Prelude.{Some, ◌≡◌, ◌&&◌, ℕ, ◌≤◌, ◌<◌, ltb, length};
ghost use Rattle.words.specs.Ids.{id_of};
ghost use Rattle.words.specs.Chains.{name_of};
ghost use Rattle.boxes.specs.Records.{index, lookup, is_input};
ghost use Rattle.boxes.specs.Layout.{box_slots, BoxesOk, ok-one, box_at, boxes_of};
ghost use Rattle.boxes.specs.Index.{AllWords, words-one, BoxesKept};
ghost use Rattle.boxes.specs.Searching.{owners_at, InputAt, LastInput, Lasts};

use crate::links::{bucket_in, head, link};
use crate::rows;
use words::ids::Id;

// That each word fits 64 bits is said too, since a proof is not told it of a slice that is a field.
#[derive(Clone, Copy)]
pub struct Boxes<'a> {
    words: &'a [u64],
    records: usize,
    ghost fits: { BoxesOk words.now records } by { ok-one words.now records },
    ghost each: { AllWords words.now } by { words-one words.now },
}

impl<'a> Boxes<'a> {
    #[tactic(auto, unfolding(crate::specs::Index::AllWords))]
    pub fn new(words: &'a [u64], records: usize) -> Boxes<'a>
        requires { BoxesOk words.now records }
        ensures { (result.words.now ≡ words.now) × (result.records ≡ records) }
    {
        Boxes { words, records }
    }

    // How many records there are.
    pub fn len(&self) -> usize
        ensures { result ≡ self.now.records }
    {
        self.records
    }

    // No slot has this number or a greater one.
    pub fn end(&self) -> usize
        ensures { result ≡ length self.now.words.now }
    {
        self.words.len()
    }

    // The box of the record in slot `i`.
    pub fn box_key(&self, i: usize) -> Id
        requires { i < box_slots self.now.words.now }
        ensures { id_of result ≡ (box_at self.now.words.now i).box }
    {
        rows::box_key(self.words, i)
    }

    // Its owner.
    pub fn box_owner(&self, i: usize) -> Id
        requires { i < box_slots self.now.words.now }
        ensures { id_of result ≡ (box_at self.now.words.now i).owner }
    {
        rows::box_owner(self.words, i)
    }

    // Whether it is an output of its owner.
    pub fn box_out(&self, i: usize) -> bool
        requires { i < box_slots self.now.words.now }
        ensures { result ≡ (box_at self.now.words.now i).out }
    {
        rows::box_out(self.words, i)
    }

    // The slot of the record that an index has for a box: of several, the oldest, so that the walk goes to the end of the chain.
    pub fn find_live(&self, out: bool, key: Id) -> Option<usize>
        ensures by_index { (i : ℕ) → result ≡ Some i → i < box_slots self.now.words.now }
        ensures result_value { BoxesKept self.now.words.now self.now.records → owners_at self.now.words.now result ≡ lookup (index out (boxes_of self.now.words.now self.now.records)) (id_of key) }
    {
        if self.records == 0 {
            return None;
        }
        let used = rows::slots_used(self.words, self.records);
        let mut found = None;
        let mut next = head(self.words, 0, used, bucket_in(self.words, key.d));
        while let Some(i) = next {
            if rows::is_entry(self.words, i, out, key) {
                found = Some(i);
            }
            next = link(self.words, 0, i);
        }
        found
    }

    // Where a walk through a transaction's records before slot `below` starts: behind that slot, where it is the transaction's too.
    fn first_below(&self, used: usize, owner: Id, below: usize) -> Option<usize>
        requires { (0 < used) × (used ≤ box_slots self.now.words.now) }
        ensures { Lasts self.now.words.now used owner below (name_of result) }
    {
        if below < used && rows::is_owner(self.words, below, owner) {
            return link(self.words, 1, below);
        }
        head(self.words, 1, used, bucket_in(self.words, owner.d))
    }

    // Whether slot `i` is before slot `below` and holds an input of the transaction.
    fn is_input_below(&self, i: usize, owner: Id, below: usize) -> bool
        requires { i < box_slots self.now.words.now }
        ensures { result ≡ (ltb i below && is_input (id_of owner) (box_at self.now.words.now i)) }
    {
        i < below && rows::is_input(self.words, i, owner)
    }

    // The last slot before `below` that holds an input of the transaction.
    pub fn last_input(&self, owner: Id, below: usize) -> Option<usize>
        ensures input_at { InputAt self.now.words.now (id_of owner) below result }
        ensures last_input { BoxesKept self.now.words.now self.now.records → LastInput self.now.words.now self.now.records (id_of owner) below result }
    {
        if self.records == 0 {
            return None;
        }
        let used = rows::slots_used(self.words, self.records);
        let mut next = self.first_below(used, owner, below);
        while let Some(i) = next {
            if self.is_input_below(i, owner, below) {
                return Some(i);
            }
            next = link(self.words, 1, i);
        }
        None
    }
}
