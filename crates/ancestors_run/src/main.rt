// Credits to parents where the 500 visits are fewer than the ancestors: 600 transactions in a row, and a newcomer behind them. The line of `stdout` is
// worked out by hand from document 01. (A program of its own: `rt try` runs it natively, and its interpreter stops at 10,000,000 steps.)
#![tactic(auto)]

use family_pools::{arrive, enter, nothing, show};
use pool::lent::{Pool, PoolMut};
use std::io;

// Transactions 1 to n in a row, each spending what the one before it makes.
fn in_a_row(pool: &mut PoolMut<'_>, n: u64) {
    for i in 1..=n {
        let spent = [0, 0, 1, i - 1];
        let made = [0, 0, 1, i];
        enter(pool, i, 10, &spent, &made);
    }
}

// The first and the last that were credited, the first and the last that were not, and the newcomer.
fn show_ends(rt: &impl Print, pool: &Pool<'_>) -> io::Result<()> {
    show(rt, pool, 0)?;
    show(rt, pool, 499)?;
    show(rt, pool, 500)?;
    show(rt, pool, 599)?;
    show(rt, pool, 600)?;
    println!(rt; "")
}

// 600 of them, and newcomer 601 behind: the walk reaches 600 down to 101.
fn ancestors(rt: &impl Print, entries: &mut [u64], boxes: &mut [u64]) -> io::Result<()> {
    let mut pool = nothing(entries, boxes);
    in_a_row(&mut pool, 600);
    arrive(&mut pool, 601, &[0, 0, 1, 600], &[0, 0, 1, 601]);
    print!(rt; "ancestors")?;
    show_ends(rt, &pool.pool())
}

// Room for 601 entries and their records. A store is lent and no heap is used, as everywhere.
fn main(rt: HostRuntime) -> io::Result<()> {
    let mut entries = [0u64; 10820];
    let mut boxes = [0u64; 19541];
    ancestors(&rt, &mut entries, &mut boxes)
}
