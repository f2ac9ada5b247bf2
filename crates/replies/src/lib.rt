// The lines that poolrun prints, into bytes that the caller lends, from their start and without the newline. Each function returns how many bytes
// the line has; bytes past it keep their value. A list comes with the number of its records that are printed: a slice cut to these is no plainer, since
// each caller would prove that the cut's records are the first of its buffer.
#![tactic(auto)]

pub mod pieces;

ghost use Rattle.std.specs.Prelude.{◌≡◌, ◌+◌, ◌*◌, ◌≤◌, length};
ghost use Rattle.words.specs.Ids.{id_of};
ghost use Rattle.forms.specs.Nums.{Prints};
ghost use Rattle.boxes.specs.Flat.{count_of, ids_to};
ghost use Rattle.peers.specs.Flat.{flat_peers};
ghost use Rattle.mempool.specs.Listing.{Row, rows_of};
ghost use Rattle.replies.specs.Replies.{numbered, named, listed, replaced_text, row_of, pooled_text, spender_text, pairs_of, charges_text, bins_text};

use crate::pieces::Line;
use boxes::lists::Ids;
use words::ids::Id;

// `(refused N)` and the like.
pub fn with_number(out: &mut [u8], head: &[u8], n: u64) -> usize
    requires { length head.now + 21 ≤ length out.old }
    ensures { Prints (numbered head.now n) 0 out.old out.new result }
{
    let mut line = Line::new(out);
    line.number(head, n);
    line.byte(b')');
    line.len
}

// `(accepted ID)` and the like.
pub fn with_id(out: &mut [u8], head: &[u8], id: Id) -> usize
    requires { length head.now + 65 ≤ length out.old }
    ensures { Prints (named head.now (id_of id)) 0 out.old out.new result }
{
    let mut line = Line::new(out);
    line.id(head, id);
    line.byte(b')');
    line.len
}

// `(ids ID..)` and the like.
pub fn with_ids(out: &mut [u8], head: &[u8], list: &[u64], n: usize) -> usize
    requires { (n ≤ count_of 4 list.now) × (length head.now + 65 * n + 1 ≤ length out.old) }
    ensures { Prints (listed head.now (ids_to 4 list.now n)) 0 out.old out.new result }
{
    let mut line = Line::new(out);
    line.text(head);
    line.ids(&Ids::new(list, 4), 0, n);
    line.byte(b')');
    line.len
}

// `(replaced ID (ID..))`.
pub fn replaced(out: &mut [u8], id: Id, list: &[u64], n: usize) -> usize
    requires { (n ≤ count_of 4 list.now) × (142 + 65 * n ≤ length out.old) }
    ensures { Prints (replaced_text (id_of id) (ids_to 4 list.now n)) 0 out.old out.new result }
{
    let mut line = Line::new(out);
    line.id(b"(replaced ", id);
    line.last_ids(&Ids::new(list, 4), n);
    line.len
}

// `(pooled (ID WEIGHT BASE)..)`.
pub fn pooled(out: &mut [u8], words: &[u64], n: usize) -> usize
    requires { (n * 6 ≤ length words.now) × (8 + 109 * n ≤ length out.old) }
    ensures { Prints (pooled_text (rows_of words.now n)) 0 out.old out.new result }
{
    let mut line = Line::new(out);
    line.text(b"(pooled");
    line.rows(words, n);
    line.byte(b')');
    line.len
}

// `(spender ID WEIGHT BASE)`.
pub fn spender(out: &mut [u8], id: Id, weight: u64, base: u64) -> usize
    requires { 116 ≤ length out.old }
    ensures { Prints (spender_text (row_of (id_of id) weight base)) 0 out.old out.new result }
{
    let mut line = Line::new(out);
    line.id(b"(spender ", id);
    line.weights(weight, base);
    line.len
}

// `(charges TOTAL (PEER SUM)..)`.
pub fn charges(out: &mut [u8], total: u64, peers: &[u64], n: usize) -> usize
    requires { (n * 2 ≤ length peers.now) × (30 + 44 * n ≤ length out.old) }
    ensures { Prints (charges_text total (flat_peers peers.now n)) 0 out.old out.new result }
{
    let mut line = Line::new(out);
    line.number(b"(charges ", total);
    line.pairs(peers, n);
    line.byte(b')');
    line.len
}

// `(bins (COUNT TOTAL)..)`.
pub fn bins(out: &mut [u8], words: &[u64], n: usize) -> usize
    requires { (n * 2 ≤ length words.now) × (6 + 44 * n ≤ length out.old) }
    ensures { Prints (bins_text (pairs_of words.now n)) 0 out.old out.new result }
{
    let mut line = Line::new(out);
    line.text(b"(bins");
    line.pairs(words, n);
    line.byte(b')');
    line.len
}
