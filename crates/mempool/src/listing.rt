// Entries listed in priority order into an answer buffer that the caller lends.
ghost use Rattle.std.specs.Prelude.{◌≡◌, map, ◌+◌, ◌*◌, ◌≤◌, ◌<◌, length};
ghost use Rattle.entries.specs.Layout.{entry_at};
ghost use Rattle.entries.specs.Views.{entries_in};
ghost use Rattle.mempool.specs.Listing.{brief, RowPut, Laid, Topped, top_of};

use entries::fields::entries_room;
use entries::views::Entries;
use pool_types::{Mempool, Refusal};
use words::rows::put_words;

// Writes entry `i` to row `i`.
fn list_entry(entries: &Entries<'_>, answer: &mut [u64], i: usize)
    requires { (i < entries.now.pooled) × (i * 6 + 6 ≤ length answer.old) }
    ensures { RowPut answer.old answer.new i (brief (entry_at entries.now.words.now i)) }
{
    let id = entries.id_at(i);
    put_words(
        answer,
        i * 6,
        &[
            id.a,
            id.b,
            id.c,
            id.d,
            entries.weight_at(i),
            entries.base_at(i),
        ],
    );
}

// Writes all entries of a view.
fn list_entries(entries: &Entries<'_>, answer: &mut [u64])
    requires { entries.now.pooled * 6 ≤ length answer.old }
    ensures { Laid answer.old answer.new (map brief (entries_in entries.now)) }
{
    for i in 0..entries.len() {
        list_entry(entries, answer, i);
    }
}

// The first `limit` transactions by priority: id, weight and base of each.
#[tactic(auto, using(crate::specs::Listing::laid_none, crate::specs::Listing::top_listed, crate::specs::Listing::topped_listed), unfolding(pool_types::specs::Outcomes::listed_of, crate::specs::Listing::top_of, entries::specs::Layout::EntriesOk, entries::specs::Layout::entries_room))]
pub fn top(
    entries: &[u64],
    mempool: Mempool,
    answer: &mut [u64],
    limit: usize,
) -> Result<usize, Refusal>
    ensures { Topped answer.old answer.new result (top_of entries.now mempool (length answer.old) limit) }
{
    if entries_room(entries) < mempool.counts.pooled {
        return Err(Refusal::Lists);
    }
    let k = limit.min(mempool.counts.pooled);
    if answer.len() / 6 < k {
        return Err(Refusal::AnswerTooSmall);
    }
    list_entries(&Entries::new(entries, k), answer);
    Ok(k)
}

// All transactions by priority: the Rust's name for `top` without a limit.
pub fn all_prioritized(
    entries: &[u64],
    mempool: Mempool,
    answer: &mut [u64],
) -> Result<usize, Refusal>
    ensures { Topped answer.old answer.new result (top_of entries.now mempool (length answer.old) mempool.counts.pooled) }
{
    top(entries, mempool, answer, mempool.counts.pooled)
}
