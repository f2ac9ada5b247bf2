// Pieces of a line: bytes, numbers, ids and lists of them.
ghost use Rattle.std.specs.Prelude.{◌≡◌, ◌∷◌, [], ◌++◌, ◌+◌, ◌*◌, ◌≤◌, ◌<◌, length, drop};
ghost use Rattle.words.specs.Lists.{flat};
ghost use Rattle.words.specs.Ids.{id_of};
ghost use Rattle.forms.specs.Nums.{Prints, id_text, decimal_text};
ghost use Rattle.boxes.specs.Flat.{count_of, ids_to};
ghost use Rattle.mempool.specs.Listing.{rows_of, row_at};
ghost use Rattle.replies.specs.Replies.{spaced, parted, weights, row_text, pair_text, pairs_of, pair_at};

use boxes::lists::Ids;
use forms::nums::{print_id, print_number};
use words::ids::{Id, get_id};

// A byte, printed at a place. Returns the place past it.
pub fn byte(out: &mut [u8], at: usize, c: u8) -> usize
    requires { at < length out.old }
    ensures { Prints (c ∷ []) at out.old out.new result }
{
    out[at] = c;
    at + 1
}

// Bytes, printed from a place on.
pub fn text(out: &mut [u8], at: usize, bytes: &[u8]) -> usize
    requires { at + length bytes.now ≤ length out.old }
    ensures { Prints bytes.now at out.old out.new result }
{
    let end = at + bytes.len();
    out[at..end].copy_from_slice(bytes);
    end
}

// A line in progress: the bytes that are lent for it, and how many of them are printed. Of a list its first `n` records are printed: a slice cut to `n`
// records is no plainer, since each caller would prove that the cut's records are the list's first.
#[derive(Drop)]
pub struct Line<'a> {
    bytes: &'a mut [u8],
    pub len: usize,
    ghost within: { len ≤ length bytes.now },
}

impl<'a> Line<'a> {
    pub fn new(bytes: &'a mut [u8]) -> Line<'a>
        ensures same_reference { result.bytes.ghost_name ≡ bytes.entry.ghost_name }
        ensures empty { (result.len ≡ 0) × (result.bytes.now ≡ bytes.old) }
    {
        Line { bytes, len: 0 }
    }

    // A byte.
    pub fn byte(&mut self, c: u8)
        requires { self.old.len < length self.old.bytes.now }
        ensures same_reference { self.new.bytes.ghost_name ≡ self.old.bytes.ghost_name }
        ensures kept { length self.new.bytes.now ≡ length self.old.bytes.now }
        ensures printed { Prints (c ∷ []) self.old.len self.old.bytes.now self.new.bytes.now self.new.len }
    {
        self.len = byte(self.bytes, self.len, c);
    }

    // Bytes.
    pub fn text(&mut self, bytes: &[u8])
        requires { self.old.len + length bytes.now ≤ length self.old.bytes.now }
        ensures same_reference { self.new.bytes.ghost_name ≡ self.old.bytes.ghost_name }
        ensures kept { length self.new.bytes.now ≡ length self.old.bytes.now }
        ensures printed { Prints bytes.now self.old.len self.old.bytes.now self.new.bytes.now self.new.len }
    {
        self.len = text(self.bytes, self.len, bytes);
    }

    // A number behind a head.
    pub fn number(&mut self, head: &[u8], n: u64)
        requires { self.old.len + length head.now + 20 ≤ length self.old.bytes.now }
        ensures same_reference { self.new.bytes.ghost_name ≡ self.old.bytes.ghost_name }
        ensures kept { length self.new.bytes.now ≡ length self.old.bytes.now }
        ensures printed { Prints (head.now ++ decimal_text n) self.old.len self.old.bytes.now self.new.bytes.now self.new.len }
    {
        self.text(head);
        self.len = print_number(self.bytes, self.len, n);
    }

    // An id behind a head.
    pub fn id(&mut self, head: &[u8], x: Id)
        requires { self.old.len + length head.now + 64 ≤ length self.old.bytes.now }
        ensures same_reference { self.new.bytes.ghost_name ≡ self.old.bytes.ghost_name }
        ensures kept { length self.new.bytes.now ≡ length self.old.bytes.now }
        ensures printed { Prints (head.now ++ id_text (id_of x)) self.old.len self.old.bytes.now self.new.bytes.now self.new.len }
    {
        self.text(head);
        self.len = print_id(self.bytes, self.len, x);
    }

    // The ids from `from` on and before `n`, each behind a space.
    pub fn ids(&mut self, list: &Ids<'_>, from: usize, n: usize)
        requires { (n ≤ count_of list.now.width list.now.words.now) × (self.old.len + 65 * n ≤ length self.old.bytes.now) }
        ensures same_reference { self.new.bytes.ghost_name ≡ self.old.bytes.ghost_name }
        ensures kept { length self.new.bytes.now ≡ length self.old.bytes.now }
        ensures printed { Prints (flat spaced (drop from (ids_to list.now.width list.now.words.now n))) self.old.len self.old.bytes.now self.new.bytes.now self.new.len }
    {
        for i in from..n {
            self.id(b" ", list.id_at(i));
        }
    }

    // The first `n` ids, parted by one space.
    fn parted_ids(&mut self, list: &Ids<'_>, n: usize)
        requires { (n ≤ count_of list.now.width list.now.words.now) × (self.old.len + 64 + 65 * n ≤ length self.old.bytes.now) }
        ensures same_reference { self.new.bytes.ghost_name ≡ self.old.bytes.ghost_name }
        ensures kept { length self.new.bytes.now ≡ length self.old.bytes.now }
        ensures printed { Prints (parted (ids_to list.now.width list.now.words.now n)) self.old.len self.old.bytes.now self.new.bytes.now self.new.len }
    {
        if n == 0 {
            return;
        }
        self.id(b"", list.id_at(0));
        self.ids(list, 1, n);
    }

    // The first `n` ids in brackets, behind a space, and the bracket that closes the line.
    pub fn last_ids(&mut self, list: &Ids<'_>, n: usize)
        requires { (n ≤ count_of list.now.width list.now.words.now) × (self.old.len + 68 + 65 * n ≤ length self.old.bytes.now) }
        ensures same_reference { self.new.bytes.ghost_name ≡ self.old.bytes.ghost_name }
        ensures kept { length self.new.bytes.now ≡ length self.old.bytes.now }
        ensures printed { Prints ((32 ∷ 40 ∷ []) ++ (parted (ids_to list.now.width list.now.words.now n) ++ (41 ∷ 41 ∷ []))) self.old.len self.old.bytes.now self.new.bytes.now self.new.len }
    {
        self.text(b" (");
        self.parted_ids(list, n);
        self.text(b"))");
    }

    // A weight and a base, each behind a space, and the bracket that closes.
    pub fn weights(&mut self, weight: u64, base: u64)
        requires { self.old.len + 43 ≤ length self.old.bytes.now }
        ensures same_reference { self.new.bytes.ghost_name ≡ self.old.bytes.ghost_name }
        ensures kept { length self.new.bytes.now ≡ length self.old.bytes.now }
        ensures printed { Prints (weights weight base) self.old.len self.old.bytes.now self.new.bytes.now self.new.len }
    {
        self.number(b" ", weight);
        self.number(b" ", base);
        self.byte(b')');
    }

    // Row `i`.
    fn row(&mut self, words: &[u64], i: usize)
        requires { (i * 6 + 6 ≤ length words.now) × (self.old.len + 109 ≤ length self.old.bytes.now) }
        ensures same_reference { self.new.bytes.ghost_name ≡ self.old.bytes.ghost_name }
        ensures kept { length self.new.bytes.now ≡ length self.old.bytes.now }
        ensures printed { Prints (row_text (row_at words.now i)) self.old.len self.old.bytes.now self.new.bytes.now self.new.len }
    {
        self.id(b" (", get_id(words, i * 6));
        self.weights(words[i * 6 + 4], words[i * 6 + 5]);
    }

    // The first `n` rows.
    pub fn rows(&mut self, words: &[u64], n: usize)
        requires { (n * 6 ≤ length words.now) × (self.old.len + 109 * n ≤ length self.old.bytes.now) }
        ensures same_reference { self.new.bytes.ghost_name ≡ self.old.bytes.ghost_name }
        ensures kept { length self.new.bytes.now ≡ length self.old.bytes.now }
        ensures printed { Prints (flat row_text (rows_of words.now n)) self.old.len self.old.bytes.now self.new.bytes.now self.new.len }
    {
        for i in 0..n {
            self.row(words, i);
        }
    }

    // Pair `i`.
    fn pair(&mut self, words: &[u64], i: usize)
        requires { (i * 2 + 2 ≤ length words.now) × (self.old.len + 44 ≤ length self.old.bytes.now) }
        ensures same_reference { self.new.bytes.ghost_name ≡ self.old.bytes.ghost_name }
        ensures kept { length self.new.bytes.now ≡ length self.old.bytes.now }
        ensures printed { Prints (pair_text (pair_at words.now i)) self.old.len self.old.bytes.now self.new.bytes.now self.new.len }
    {
        self.number(b" (", words[i * 2]);
        self.number(b" ", words[i * 2 + 1]);
        self.byte(b')');
    }

    // The first `n` pairs.
    pub fn pairs(&mut self, words: &[u64], n: usize)
        requires { (n * 2 ≤ length words.now) × (self.old.len + 44 * n ≤ length self.old.bytes.now) }
        ensures same_reference { self.new.bytes.ghost_name ≡ self.old.bytes.ghost_name }
        ensures kept { length self.new.bytes.now ≡ length self.old.bytes.now }
        ensures printed { Prints (flat pair_text (pairs_of words.now n)) self.old.len self.old.bytes.now self.new.bytes.now self.new.len }
    {
        for i in 0..n {
            self.pair(words, i);
        }
    }
}
