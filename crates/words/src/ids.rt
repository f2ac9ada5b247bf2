// Ids of 32 bytes, as four words of 64 bits with the first bytes first. In a contract an id is one number, `id_of`, so that the order of
// ids as bytes is the order of numbers.
ghost use Rattle.std.specs.Prelude.{◌≡◌, ◌+◌, ◌≤◌, length, ◌==◌};
ghost use Rattle.std.specs.Ordering.{nat_cmp, on, as_partial_cmp};
ghost use Rattle.std.specs.Cmp.Rules.{comparing};
ghost use Rattle.std.specs.Cmp.{partial_order_from_own_ties};
ghost use Rattle.std.proofs.Common.{rules};
ghost use Rattle.words.specs.Ids.{id_of, id_at, words_at, Four, id_words};
ghost use Rattle.words.specs.Rows.{stored};

use crate::rows::put_words;
use std::cmp::Ordering;

#[derive(Clone, Copy, Debug)]
pub struct Id {
    pub a: u64,
    pub b: u64,
    pub c: u64,
    pub d: u64,
}

impl Id {
    // From the last word on: ids differ there most, and the compiled test then reads it alone where it differs, which the box records keep apart.
    fn is(self, other: Id) -> bool
        ensures { result ≡ (id_of self == id_of other) }
    {
        if self.d != other.d {
            return false;
        }
        if self.c != other.c {
            return false;
        }
        if self.b != other.b {
            return false;
        }
        if self.a != other.a {
            return false;
        }
        true
    }

    // The first words that differ decide.
    fn against(self, other: Id) -> Ordering
        ensures { result ≡ nat_cmp (id_of self) (id_of other) }
    {
        if self.a != other.a {
            return self.a.cmp(&other.a);
        }
        if self.b != other.b {
            return self.b.cmp(&other.b);
        }
        if self.c != other.c {
            return self.c.cmp(&other.c);
        }
        self.d.cmp(&other.d)
    }
}

// Equality and order are those of the numbers, which contracts speak of; a derive would speak of the words.
impl PartialEq for Id {
    ghost eq = { on id_of ◌==◌ };

    ghost laws = { Prim.search (comparing, rules) };

    fn eq(&self, other: &Id) -> bool {
        self.is(*other)
    }
}

impl Eq for Id {
    ghost laws = { Prim.search (comparing, rules) };
}

impl Ord for Id {
    ghost cmp = { on id_of nat_cmp };

    ghost total = { Prim.search (comparing, rules) };

    ghost matches_partial_cmp = { Prim.search (comparing, rules) };

    ghost matches_eq = { Prim.search (comparing, rules) };

    fn cmp(&self, other: &Id) -> Ordering {
        self.against(*other)
    }
}

impl PartialOrd for Id {
    ghost partial_cmp = { as_partial_cmp (on id_of nat_cmp) };

    ghost laws = { partial_order_from_own_ties (Prim.search (comparing, rules)) (Prim.search (comparing, rules)) };

    fn partial_cmp(&self, other: &Id) -> Option<Ordering> {
        Some(self.cmp(other))
    }
}

// The four words from index `at`. No `From`: an id stands in the middle of a table's words, and an array made first would say no more.
pub fn get_id(s: &[u64], at: usize) -> Id
    requires { at + 4 ≤ length s.now }
    ensures words { result ≡ words_at s.now at }
    ensures number { id_of result ≡ id_at s.now at }
{
    Id {
        a: s[at],
        b: s[at + 1],
        c: s[at + 2],
        d: s[at + 3],
    }
}

// Writes an id to the four words from index `at`.
pub fn put_id(s: &mut [u64], at: usize, x: Id)
    requires { Four at (length s.old) }
    ensures { s.new ≡ stored s.old at (id_words x) }
{
    put_words(s, at, &[x.a, x.b, x.c, x.d]);
}
