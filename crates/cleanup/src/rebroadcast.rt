// The transactions to send again, selected into an answer buffer that the caller lends.
ghost use Rattle.std.specs.Prelude.{◌≡◌, true, false, ◌+◌, ◌≤◌, ◌<◌};
ghost use Rattle.words.specs.Sums.{cap};
ghost use Rattle.pool_types.specs.Refusals.{code_of};
ghost use Rattle.pool_types.specs.Outcomes.{listed_of, refused};
ghost use Rattle.boxes.specs.Views.{ids_in};
ghost use Rattle.boxes.specs.Layout.{boxes_of};
ghost use Rattle.boxes.specs.Index.{BoxesKept};
ghost use Rattle.entries.specs.Layout.{entry_at};
ghost use Rattle.pool.specs.Pool.{fits_test, tables_of};
ghost use Rattle.cleanup.specs.Post.{Told};
ghost use Rattle.cleanup.specs.Rebroadcast.{rebroadcast_refusal};
ghost use Rattle.cleanup.specs.Selecting.{SelectedOne, Selected};
ghost use Rattle.cleanup.specs.Promises.{RebroadcastPromise};
ghost use Rattle.cleanup.specs.Numbers.{of_rebroadcast};

use answers::write_id;
use arguments::is_whole;
use boxes::lists::Ids;
use indexes::inputs::all_listed;
use pool::fits;
use pool::lent::Pool;
use pool_types::{Mempool, Refusal};

// Refusals 1 and 2, where the answer has room for so many ids.
#[tactic(auto, unfolding(crate::specs::Numbers::of_rebroadcast, crate::specs::Rebroadcast::rebroadcast_refusal))]
fn check_rebroadcast(mempool: Mempool, room: usize, confirmed: &[u64]) -> Result<(), Refusal>
    ensures refusal_value { of_rebroadcast result ≡ true }
    ensures value { code_of result ≡ rebroadcast_refusal mempool room confirmed.now }
{
    if !is_whole(confirmed, 4) {
        return Err(Refusal::Lists);
    }
    if room <= mempool.counts.pooled {
        return Err(Refusal::AnswerTooSmall);
    }
    Ok(())
}

// Writes the id of entry `i` at place `n`, if all its inputs are confirmed, and returns how many are written then.
fn select_one(pool: &Pool<'_>, answer: &mut [u64], i: usize, n: usize, confirmed: &Ids<'_>) -> usize
    requires { (i < pool.now.counts.pooled) × (n < cap) }
    ensures upper_bound { result ≤ n + 1 }
    ensures selected_one { BoxesKept pool.now.boxes.now pool.now.counts.records → SelectedOne answer.old answer.new (ids_in confirmed.now) (boxes_of pool.now.boxes.now pool.now.counts.records) (entry_at pool.now.entries.now i) n result }
{
    let id = pool.entries().id_at(i);
    if all_listed(&pool.boxes(), id, confirmed) {
        write_id(answer, n, id);
        return n + 1;
    }
    n
}

// Writes the ids of the first `most` transactions in priority order all of whose inputs are confirmed, and returns how many they are.
fn select(pool: &Pool<'_>, answer: &mut [u64], most: usize, confirmed: &Ids<'_>) -> usize
    ensures upper_bound { result ≤ pool.now.counts.pooled }
    ensures selected { BoxesKept pool.now.boxes.now pool.now.counts.records → Selected answer.old answer.new most (ids_in confirmed.now) (tables_of pool.now.entries.now pool.now.boxes.now pool.now.counts) result }
{
    let mut n = 0;
    for i in 0..pool.entries().len() {
        if most <= n {
            return n;
        }
        n = select_one(pool, answer, i, n, confirmed);
    }
    n
}

// The first `rebroadcast_count` transactions in priority order all of whose inputs are in a list of confirmed boxes: their ids, from the first
// place of the answer on.
#[tactic(auto, unfolding(crate::specs::Numbers::of_rebroadcast, pool_types::specs::Outcomes::listed_of))]
pub fn select_for_rebroadcast(
    entries: &[u64],
    boxes: &[u64],
    answer: &mut [u64],
    mempool: Mempool,
    confirmed: &[u64],
) -> Result<usize, Refusal>
    ensures rebroadcast_promise { RebroadcastPromise entries.now boxes.now mempool confirmed.now answer.old answer.new (listed_of result) }
    ensures result_value { of_rebroadcast result ≡ true }
    ensures told { Told answer.old answer.new (listed_of result) }
    ensures result_value_2 { fits_test entries.now boxes.now mempool.counts ≡ false → listed_of result ≡ refused 1 0 }
{
    let counts = mempool.counts;
    if !fits(entries, boxes, counts) {
        return Err(Refusal::Lists);
    }
    check_rebroadcast(mempool, answer.len() / 4, confirmed)?;
    let pool = Pool::new(entries, boxes, counts);
    let most = mempool.config.rebroadcast_count;
    Ok(select(&pool, answer, most, &Ids::new(confirmed, 4)))
}
