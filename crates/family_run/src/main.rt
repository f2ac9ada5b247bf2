// Credits to parents, run: small pools and what a newcomer's walk makes of the weights. A line has the entries in priority order, each with
// its weight. The lines of `stdout` are worked out by hand from document 01.
#![tactic(auto)]

use family_pools::{arrive, enter, nothing, show_all};
use std::io;

// ---- the pools: transactions of base 10, and newcomer 9

// 1 makes box 11, which 2 spends; 2 makes box 12, which 9 spends.
fn chain(rt: &impl Print, entries: &mut [u64], boxes: &mut [u64]) -> io::Result<()> {
    let mut pool = nothing(entries, boxes);
    enter(&mut pool, 1, 10, &[0, 0, 0, 7], &[0, 0, 0, 11]);
    enter(&mut pool, 2, 10, &[0, 0, 0, 11], &[0, 0, 0, 12]);
    arrive(&mut pool, 9, &[0, 0, 0, 12], &[0, 0, 0, 19]);
    print!(rt; "chain")?;
    show_all(rt, &pool.pool())
}

// 2 and 3 spend an output of 1 each, and 9 spends an output of both: two chains end at 1.
fn diamond(rt: &impl Print, entries: &mut [u64], boxes: &mut [u64]) -> io::Result<()> {
    let mut pool = nothing(entries, boxes);
    enter(&mut pool, 1, 10, &[0, 0, 0, 7], &[0, 0, 0, 11, 0, 0, 0, 14]);
    enter(&mut pool, 2, 10, &[0, 0, 0, 11], &[0, 0, 0, 12]);
    enter(&mut pool, 3, 10, &[0, 0, 0, 14], &[0, 0, 0, 13]);
    arrive(&mut pool, 9, &[0, 0, 0, 12, 0, 0, 0, 13], &[0, 0, 0, 19]);
    print!(rt; "diamond")?;
    show_all(rt, &pool.pool())
}

// 9 spends one output of 1 twice.
fn repeated(rt: &impl Print, entries: &mut [u64], boxes: &mut [u64]) -> io::Result<()> {
    let mut pool = nothing(entries, boxes);
    enter(&mut pool, 1, 10, &[0, 0, 0, 7], &[0, 0, 0, 11]);
    arrive(&mut pool, 9, &[0, 0, 0, 11, 0, 0, 0, 11], &[0, 0, 0, 19]);
    print!(rt; "repeated")?;
    show_all(rt, &pool.pool())
}

// 1 spends what 9 makes, and 9 what 1 makes: 500 visits, by turns.
fn cycle(rt: &impl Print, entries: &mut [u64], boxes: &mut [u64]) -> io::Result<()> {
    let mut pool = nothing(entries, boxes);
    enter(&mut pool, 1, 10, &[0, 0, 0, 12], &[0, 0, 0, 11]);
    arrive(&mut pool, 9, &[0, 0, 0, 11], &[0, 0, 0, 12]);
    print!(rt; "cycle")?;
    show_all(rt, &pool.pool())
}

// 9 spends its own output: 500 visits of itself.
fn own(rt: &impl Print, entries: &mut [u64], boxes: &mut [u64]) -> io::Result<()> {
    let mut pool = nothing(entries, boxes);
    enter(&mut pool, 1, 10, &[0, 0, 0, 7], &[0, 0, 0, 8]);
    arrive(&mut pool, 9, &[0, 0, 0, 11], &[0, 0, 0, 11]);
    print!(rt; "own")?;
    show_all(rt, &pool.pool())
}

// 1 weighs 2^64−2 and is credited 1 twice.
fn capped(rt: &impl Print, entries: &mut [u64], boxes: &mut [u64]) -> io::Result<()> {
    let mut pool = nothing(entries, boxes);
    enter(
        &mut pool,
        1,
        18446744073709551614,
        &[0, 0, 0, 7],
        &[0, 0, 0, 11],
    );
    arrive(&mut pool, 9, &[0, 0, 0, 11, 0, 0, 0, 11], &[0, 0, 0, 19]);
    print!(rt; "capped")?;
    show_all(rt, &pool.pool())
}

fn small(rt: &impl Print, entries: &mut [u64], boxes: &mut [u64]) -> io::Result<()> {
    chain(rt, entries, boxes)?;
    diamond(rt, entries, boxes)?;
    repeated(rt, entries, boxes)
}

fn large(rt: &impl Print, entries: &mut [u64], boxes: &mut [u64]) -> io::Result<()> {
    cycle(rt, entries, boxes)?;
    own(rt, entries, boxes)?;
    capped(rt, entries, boxes)
}

// One store for all of them, with room for 5 entries and 20 records. It is lent and no heap is used, as everywhere.
fn main(rt: HostRuntime) -> io::Result<()> {
    let mut entries = [0u64; 92];
    let mut boxes = [0u64; 327];
    small(&rt, &mut entries, &mut boxes)?;
    large(&rt, &mut entries, &mut boxes)
}
