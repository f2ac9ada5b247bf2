// Flat lists of records that begin with an id, of any width from four words on, lent to be read.
ghost use Rattle.std.specs.Prelude.{◌≡◌, ◌+◌, ◌*◌, ◌^◌, ◌≤◌, ◌<◌, drop, length};
ghost use Rattle.words.specs.Ids.{id_of, id_at};
ghost use Rattle.boxes.specs.Flat.{count_of, ids_to, ids_of};
ghost use Rattle.boxes.specs.Among.{among};

use words::ids::{Id, get_id};

// A list, as the ids of its records. That it is short, as every slice is, lets two lengths be added.
#[derive(Clone, Copy)]
pub struct Ids<'a> {
    words: &'a [u64],
    width: usize,
    ghost wide: { 4 ≤ width },
    ghost short: { length words.now < 2 ^ 60 },
}

impl<'a> Ids<'a> {
    pub fn new(words: &'a [u64], width: usize) -> Ids<'a>
        requires { 4 ≤ width }
        ensures { (result.words.now ≡ words.now) × (result.width ≡ width) }
    {
        Ids { words, width }
    }

    // How many whole records the list has.
    pub fn len(&self) -> usize
        ensures { result ≡ count_of self.now.width self.now.words.now }
    {
        self.words.len() / self.width
    }

    // The id of record `i`.
    pub fn id_at(&self, i: usize) -> Id
        requires { i < count_of self.now.width self.now.words.now }
        ensures { id_of result ≡ id_at self.now.words.now (i * self.now.width) }
    {
        get_id(self.words, i * self.width)
    }

    // Whether an id stands in the records from `from` on and before `to`.
    pub fn among(&self, from: usize, to: usize, key: Id) -> bool
        requires { to ≤ count_of self.now.width self.now.words.now }
        ensures { result ≡ among (id_of key) (drop from (ids_to self.now.width self.now.words.now to)) }
    {
        (from..to).any(|i| self.id_at(i) == key)
    }

    // Whether an id stands in the list.
    pub fn has(&self, key: Id) -> bool
        ensures { result ≡ among (id_of key) (ids_of self.now.width self.now.words.now) }
    {
        self.among(0, self.len(), key)
    }
}

// The boxes of a transaction.
#[derive(Clone, Copy)]
pub struct TxIds<'a> {
    pub inputs: Ids<'a>,
    pub outputs: Ids<'a>,
}

impl<'a> TxIds<'a> {
    // How many records they have.
    pub fn len(&self) -> usize
        ensures { result ≡ count_of self.now.inputs.width self.now.inputs.words.now + count_of self.now.outputs.width self.now.outputs.words.now }
    {
        self.inputs.len() + self.outputs.len()
    }
}
