// The words of a slot: seven, the id's four, the time it was held from, the slot's link, and one that belongs not to the slot but to the bucket of its
// number, the head of that bucket. Behind the slots stand the first slot of the window and the key of the buckets. Only the functions of this file
// and of links.rt know the layout.
ghost use Rattle.std.specs.Prelude.{◌≡◌, ◌+◌, ◌*◌, ◌≤◌, ◌<◌, length, set};
ghost use Rattle.words.specs.Ids.{id_of};
ghost use Rattle.words.specs.Rows.{stored};
ghost use Rattle.expiring_cache.specs.Layout.{slots_in, row_words, held_of, slot_at, first_of};

use crate::ExpiringCache;
use words::ids::{Id, get_id, put_id};

// The words of a slot.
pub(crate) const SLOT_WORDS: usize = 7;
// Which of them is the time, the slot's link, and the head of the bucket of its number.
const SINCE: usize = 4;

pub(crate) const LINK: usize = 5;

pub(crate) const HEAD: usize = 6;
// The words behind the slots.
const WINDOW_WORDS: usize = 2;

#[derive(Clone, Copy)]
pub struct Row {
    pub id: Id,
    pub since: u64,
}

// How many slots, and how many buckets, the words have.
pub(crate) fn slot_count(cache: &[u64]) -> usize
    ensures { result ≡ slots_in cache.now }
{
    cache.len().saturating_sub(WINDOW_WORDS) / SLOT_WORDS
}

// The id in slot `i`.
#[tactic(auto, unfolding(crate::specs::Layout::slot_at))]
pub(crate) fn row_id(cache: &[u64], i: usize) -> Id
    requires { i < slots_in cache.now }
    ensures { id_of result ≡ (slot_at cache.now i).id }
{
    get_id(cache, i * SLOT_WORDS)
}

// The time in slot `i`.
#[tactic(auto, unfolding(crate::specs::Layout::slot_at))]
pub(crate) fn row_since(cache: &[u64], i: usize) -> u64
    requires { i < slots_in cache.now }
    ensures { result ≡ (slot_at cache.now i).since }
{
    cache[i * SLOT_WORDS + SINCE]
}

// The row in slot `i`. No `From`: its words stand among the table's.
#[tactic(auto, unfolding(crate::specs::Layout::held_of))]
pub(crate) fn load_row(cache: &[u64], i: usize) -> Row
    requires { i < slots_in cache.now }
    ensures { held_of result ≡ slot_at cache.now i }
{
    Row {
        id: row_id(cache, i),
        since: row_since(cache, i),
    }
}

// Writes the row of slot `i`. The index's words stay as they are.
pub(crate) fn store_row(cache: &mut [u64], i: usize, x: Row)
    requires { i < slots_in cache.old }
    ensures { cache.new ≡ stored cache.old (i * 7) (row_words x) }
{
    put_id(cache, i * SLOT_WORDS, x.id);
    cache[i * SLOT_WORDS + SINCE] = x.since;
}

impl ExpiringCache<'_> {
    // The first slot of the window. The word may be anything, in words that no start left; a window of no rows starts at the front.
    #[tactic(auto, unfolding(crate::specs::Layout::CacheOk, crate::specs::Layout::cache_room))]
    pub(crate) fn first_slot(&self) -> usize
        ensures { (result ≡ first_of self.now.words.now self.now.rows) × (result + self.now.rows ≤ slots_in self.now.words.now) }
    {
        if self.rows == 0 {
            return 0;
        }
        let slots = slot_count(self.words);
        (self.words[slots * SLOT_WORDS] as usize).min(slots - self.rows)
    }
}

// The window starts at slot `f`.
pub(crate) fn put_first(cache: &mut [u64], f: usize)
    requires { 0 < slots_in cache.old }
    ensures { cache.new ≡ set cache.old (slots_in cache.old * 7) f }
{
    let slots = slot_count(cache);
    cache[slots * SLOT_WORDS] = f as u64;
}
