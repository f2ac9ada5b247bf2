// Lists of records in a form, read into flat words.
ghost use Rattle.std.specs.Prelude.{◌≡◌, ◌≤◌, ◌<◌, length, MatchOption};
ghost use Rattle.lines.specs.Items.{ItemAt, NoItem, ItemsAt, NoItems, ListAt, NoListed, item_of, boxes, flags, inputs, heights, outputs};

use crate::fields::{choice, id, number32, number64};
use forms::text::{ends, inside};
use words::ids::put_id;
use words::rows::put_words;

// The kinds of records.
#[derive(Clone, Copy)]
pub enum Records {
    Boxes,
    Flags,
    Inputs,
    Heights,
    Outputs,
}

fn width(kind: Records) -> usize
    ensures { result ≡ (item_of kind).width }
{
    match kind {
        Records::Boxes => 4,
        Records::Flags => 1,
        Records::Inputs => 5,
        Records::Heights => 5,
        Records::Outputs => 7,
    }
}

// Each record is written to the front of `out`, the part of the list's words that is free.

// A box id.
fn put_box<'a>(rest: &'a [u8], gap: bool, depth: usize, out: &mut [u64]) -> Option<&'a [u8]>
    requires { 4 ≤ length out.old }
    ensures { MatchOption result (NoItem boxes rest.now gap depth) (λ r. ItemAt boxes rest.now gap depth 0 out.old out.new r.now) }
{
    let (id, rest) = id(rest, gap)?;
    put_id(out, 0, id);
    Some(rest)
}

// A flag: `set` or `not`.
fn put_flag<'a>(rest: &'a [u8], gap: bool, depth: usize, out: &mut [u64]) -> Option<&'a [u8]>
    requires { 1 ≤ length out.old }
    ensures { MatchOption result (NoItem flags rest.now gap depth) (λ r. ItemAt flags rest.now gap depth 0 out.old out.new r.now) }
{
    let (flag, rest) = choice(rest, gap, b"set", 1, b"not", 0)?;
    out[0] = flag;
    Some(rest)
}

// An input of a submission: `(BOX set|not)`.
fn put_input<'a>(rest: &'a [u8], gap: bool, depth: usize, out: &mut [u64]) -> Option<&'a [u8]>
    requires { 5 ≤ length out.old }
    ensures { MatchOption result (NoItem inputs rest.now gap depth) (λ r. ItemAt inputs rest.now gap depth 0 out.old out.new r.now) }
{
    let (inside, behind) = inside(rest, gap, depth)?;
    let (id, rest) = id(inside, true)?;
    let (flag, rest) = choice(rest, false, b"set", 1, b"not", 0)?;
    if !ends(rest, false) {
        return None;
    }
    put_words(out, 0, &[id.a, id.b, id.c, id.d, flag]);
    Some(behind)
}

// An output of a return: `(BOX HEIGHT)`.
fn put_height<'a>(rest: &'a [u8], gap: bool, depth: usize, out: &mut [u64]) -> Option<&'a [u8]>
    requires { 5 ≤ length out.old }
    ensures { MatchOption result (NoItem heights rest.now gap depth) (λ r. ItemAt heights rest.now gap depth 0 out.old out.new r.now) }
{
    let (inside, behind) = inside(rest, gap, depth)?;
    let (id, rest) = id(inside, true)?;
    let (height, rest) = number32(rest)?;
    if !ends(rest, false) {
        return None;
    }
    put_words(out, 0, &[id.a, id.b, id.c, id.d, height as u64]);
    Some(behind)
}

// An output of a submission: `(BOX VALUE fee|pay HEIGHT)`.
fn put_output<'a>(rest: &'a [u8], gap: bool, depth: usize, out: &mut [u64]) -> Option<&'a [u8]>
    requires { 7 ≤ length out.old }
    ensures { MatchOption result (NoItem outputs rest.now gap depth) (λ r. ItemAt outputs rest.now gap depth 0 out.old out.new r.now) }
{
    let (inside, behind) = inside(rest, gap, depth)?;
    let (id, rest) = id(inside, true)?;
    let (amount, rest) = number64(rest)?;
    let (fee, rest) = choice(rest, false, b"fee", 1, b"pay", 0)?;
    let (height, rest) = number32(rest)?;
    if !ends(rest, false) {
        return None;
    }
    put_words(
        out,
        0,
        &[id.a, id.b, id.c, id.d, amount, fee, height as u64],
    );
    Some(behind)
}

// One record.
fn put_item<'a>(
    rest: &'a [u8],
    gap: bool,
    depth: usize,
    kind: Records,
    out: &mut [u64],
) -> Option<&'a [u8]>
    requires { (item_of kind).width ≤ length out.old }
    ensures { MatchOption result (NoItem (item_of kind) rest.now gap depth) (λ r. ItemAt (item_of kind) rest.now gap depth 0 out.old out.new r.now) }
{
    match kind {
        Records::Boxes => put_box(rest, gap, depth, out),
        Records::Flags => put_flag(rest, gap, depth, out),
        Records::Inputs => put_input(rest, gap, depth, out),
        Records::Heights => put_height(rest, gap, depth, out),
        Records::Outputs => put_output(rest, gap, depth, out),
    }
}

// All records of a list, from behind its opening bracket: the words that were written. `k` is where the free part begins; how many records come is known
// only at the list's end, so that a `for` is no plainer.
fn all_items(inside: &[u8], depth: usize, kind: Records, out: &mut [u64]) -> Option<usize>
    ensures { MatchOption result (NoItems (item_of kind) inside.now depth (length out.old)) (λ n. ItemsAt (item_of kind) inside.now depth out.old out.new n) }
{
    let w = width(kind);
    let mut rest = inside;
    let mut gap = true;
    let mut k = 0;
    while !ends(rest, gap) {
        if out.len() - k < w {
            return None;
        }
        rest = put_item(rest, gap, depth, kind, &mut out[k..])?;
        gap = false;
        k += w;
    }
    Some(k)
}

// A list of records: the words that were written, and what is left behind the list.
pub fn list_field<'a>(
    rest: &'a [u8],
    depth: usize,
    kind: Records,
    out: &mut [u64],
) -> Option<(usize, &'a [u8])>
    requires { 0 < depth }
    ensures { MatchOption result (NoListed (item_of kind) rest.now depth (length out.old)) (λ p. ListAt (item_of kind) rest.now depth out.old out.new p.0 p.1.now) }
{
    let (inside, rest) = inside(rest, false, depth)?;
    let words = all_items(inside, depth - 1, kind, out)?;
    Some((words, rest))
}
