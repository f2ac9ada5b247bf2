// The transactions of a block, read into two slices: a record for each, its id and the number of its boxes, and the boxes of all of them, in order.
ghost use Rattle.std.specs.Prelude.{◌≤◌, ◌<◌, length, MatchOption};
ghost use Rattle.lines.specs.Blocks.{TxAt, NoTx, TxsAt, NoTxs, BlockAt, NoBlock};

use crate::fields::id;
use crate::items::{Records, list_field};
use forms::text::{ends, inside};
use words::rows::put_words;

// A transaction: `(ID (BOX..))`. Its record goes to the front of `first`, its boxes to that of `second`:
// so many words.
fn put_tx<'a>(
    rest: &'a [u8],
    gap: bool,
    depth: usize,
    first: &mut [u64],
    second: &mut [u64],
) -> Option<(usize, &'a [u8])>
    requires { (1 < depth) × (5 ≤ length first.old) }
    ensures { MatchOption result (NoTx rest.now gap depth (length second.old)) (λ p. TxAt rest.now gap depth 0 first.old first.new second.old second.new p.0 p.1.now) }
{
    let (inside, behind) = inside(rest, gap, depth)?;
    let (id, rest) = id(inside, true)?;
    let (words, rest) = list_field(rest, depth - 1, Records::Boxes, second)?;
    if !ends(rest, false) {
        return None;
    }
    let boxes = (words / 4) as u64;
    put_words(first, 0, &[id.a, id.b, id.c, id.d, boxes]);
    Some((words, behind))
}

// All transactions of a block, from behind the list's opening bracket: the words that were written into both slices. `k` and `j` are where
// the free parts begin; how far the second goes is known only behind a transaction, so that a `for` is no plainer.
fn all_txs(
    inside: &[u8],
    depth: usize,
    first: &mut [u64],
    second: &mut [u64],
) -> Option<(usize, usize)>
    requires { 1 < depth }
    ensures { MatchOption result (NoTxs inside.now depth (length first.old) (length second.old)) (λ p. TxsAt inside.now depth first.old first.new second.old second.new p.0 p.1) }
{
    let mut rest = inside;
    let mut gap = true;
    let mut k = 0;
    let mut j = 0;
    while !ends(rest, gap) {
        if first.len() - k < 5 {
            return None;
        }
        let from = j;
        let (words, behind) = put_tx(rest, gap, depth, &mut first[k..], &mut second[from..])?;
        rest = behind;
        gap = false;
        k += 5;
        j += words;
    }
    Some((k, j))
}

// The list of a block's transactions: the words that were written into both slices, and what is left behind the list.
pub fn block_field<'a>(
    rest: &'a [u8],
    depth: usize,
    first: &mut [u64],
    second: &mut [u64],
) -> Option<(usize, usize, &'a [u8])>
    requires { 2 < depth }
    ensures { MatchOption result (NoBlock rest.now depth (length first.old) (length second.old)) (λ p. BlockAt rest.now depth first.old first.new second.old second.new p.0 p.1 p.2.now) }
{
    let (inside, rest) = inside(rest, false, depth)?;
    let (transactions, inputs) = all_txs(inside, depth - 1, first, second)?;
    Some((transactions, inputs, rest))
}
