// Refusal 30, and the eviction of the lowest until the capacity is met.
ghost use Rattle.std.specs.Prelude.{◌≡◌, ◌∷◌, [], ◌+◌, ◌≤◌};
ghost use Rattle.words.specs.Lists.{pick};
ghost use Rattle.words.specs.Ids.{id_of};
ghost use Rattle.words.specs.Sums.{cap};
ghost use Rattle.entries.specs.Views.{entries_in};
ghost use Rattle.pool.specs.Lent.{Same, KeptIn, tables_in};
ghost use Rattle.answers.specs.Answers.{Wrote};
ghost use Rattle.admit.specs.Admit.{crowded};
ghost use Rattle.admit.specs.Evictions.{Evicts};

use answers::write_id;
use entries::views::Entries;
use pool::lent::PoolMut;
use pool::{lowest_id, lowest_weight};
use words::ids::Id;

// Whether the pool is full and a base does not reach past the lowest weight. Where no entry is left nothing is lowest.
#[tactic(auto, using(crate::specs::Evictions::roomy, crate::specs::Evictions::crowded_none, crate::specs::Evictions::crowded_by))]
pub fn is_crowded(entries: &Entries<'_>, capacity: usize, base: u64) -> bool
    ensures { result ≡ crowded capacity base (entries_in entries.now) }
{
    let n = entries.len();
    capacity <= n && (n != 0 && base <= lowest_weight(entries))
}

// Writes an id to place `k`, where ids are to be written at all.
fn note_id(answer: &mut [u64], k: usize, id: Id, write: bool)
    ensures { Wrote answer.old answer.new k (pick write (id_of id ∷ []) []) }
{
    if write {
        write_id(answer, k, id);
    }
}

// Takes out the lowest until at most `capacity` are left, and returns how many went. Their ids are written from place `at` on, or not at all.
pub fn evict_to(
    pool: &mut PoolMut<'_>,
    capacity: usize,
    answer: &mut [u64],
    at: usize,
    write: bool,
) -> usize
    requires { at ≤ 5000 }
    ensures same { Same pool.old pool.new }
    ensures upper_bound { at + result ≤ cap }
    ensures evicts { KeptIn pool.old → Evicts capacity at write (tables_in pool.old) pool.new.entries.now pool.new.boxes.now pool.new.counts result answer.old answer.new }
{
    let n = pool.counts.pooled.saturating_sub(capacity);
    for i in 0..n {
        note_id(answer, at + i, lowest_id(&pool.entries()), write);
        pool.evict_lowest();
    }
    n
}
