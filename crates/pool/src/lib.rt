// The ordered pool: the entries in priority order and the box records, both in words that the caller lends. `Counts` says how much of
// them is in use; it goes through every call, so that a call tests that it fits before it works on a pool.
#![tactic(auto)]

pub mod lent;

ghost use Rattle.std.specs.Prelude.{◌≡◌, ◌<◌};
ghost use Rattle.words.specs.Ids.{id_of};
ghost use Rattle.words.specs.Find.{last};
ghost use Rattle.entries.specs.Layout.{entries_of};
ghost use Rattle.pool.specs.Pool.{fits_test, nobody};

use boxes::rows::boxes_room;
use entries::fields::entries_room;
use entries::views::Entries;
use pool_types::Counts;
use words::ids::Id;

// Whether the counts fit the words. All that safety needs: a call tests it first.
pub fn fits(entries: &[u64], boxes: &[u64], counts: Counts) -> bool
    ensures { result ≡ fits_test entries.now boxes.now counts }
{
    counts.pooled <= entries_room(entries) && counts.records <= boxes_room(boxes)
}

// ---- the lowest

pub fn lowest_id(entries: &Entries<'_>) -> Id
    requires { 0 < entries.now.pooled }
    ensures { id_of result ≡ (last nobody (entries_of entries.now.words.now entries.now.pooled)).id }
{
    entries.id_at(entries.len() - 1)
}

pub fn lowest_weight(entries: &Entries<'_>) -> u64
    requires { 0 < entries.now.pooled }
    ensures { result ≡ (last nobody (entries_of entries.now.words.now entries.now.pooled)).weight }
{
    entries.weight_at(entries.len() - 1)
}
