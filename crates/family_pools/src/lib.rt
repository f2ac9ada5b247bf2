// What the programs that run the walk share: small pools are entered transaction by transaction, a newcomer credits its family, and the entries are
// printed in priority order, each with its weight.
#![tactic(auto)]

use boxes::lists::{Ids, TxIds};
use entries::fields::PoolEntry;
use family::propagate_family_weight;
use pool::lent::{Pool, PoolMut};
use pool_types::Counts;
use std::io;
use words::ids::Id;

fn id_of(n: u64) -> Id {
    Id {
        a: 0,
        b: 0,
        c: 0,
        d: n,
    }
}

fn entry_of(id: u64, base: u64) -> PoolEntry {
    PoolEntry {
        id: id_of(id),
        weight: base,
        base,
        size: 0,
        cost: 0,
        validation_cost: None,
        created: 0,
        last_checked: 0,
        height_key: 0,
        inputs: 0,
    }
}

// An empty pool in these words, whatever they hold.
pub fn nothing<'a>(entries: &'a mut [u64], boxes: &'a mut [u64]) -> PoolMut<'a> {
    let counts = Counts {
        pooled: 0,
        records: 0,
    };
    PoolMut {
        entries,
        boxes,
        counts,
    }
}

// Enters a transaction, where there is room.
pub fn enter(pool: &mut PoolMut<'_>, id: u64, base: u64, inputs: &[u64], outputs: &[u64]) {
    let lists = TxIds {
        inputs: Ids::new(inputs, 4),
        outputs: Ids::new(outputs, 4),
    };
    if pool.pool().room_for(lists.len()) {
        pool.insert(entry_of(id, base), &lists);
    }
}

// Enters a newcomer of base 1 and has it credit its family.
pub fn arrive(pool: &mut PoolMut<'_>, id: u64, inputs: &[u64], outputs: &[u64]) {
    enter(pool, id, 1, inputs, outputs);
    // lent from here, since of a field that is lent to be read nothing is known afterwards
    let boxes = &mut *pool.boxes;
    propagate_family_weight(pool.entries, boxes, pool.counts, id_of(id), 1);
}

// ---- what is printed

pub fn show(rt: &impl Print, pool: &Pool<'_>, rank: usize) -> io::Result<()> {
    let entries = pool.entries();
    if entries.len() <= rank {
        return Ok(());
    }
    let id = entries.id_at(rank).d;
    let weight = entries.weight_at(rank);
    print!(rt; " {id}:{weight}")
}

pub fn show_all(rt: &impl Print, pool: &Pool<'_>) -> io::Result<()> {
    for rank in 0..pool.entries().len() {
        show(rt, pool, rank)?;
    }
    println!(rt; "")
}
