// Ids once found invalid, in order of insertion: rows in a window of slots in a lent slice. A row enters behind the window, the oldest leave by
// its start, and where it reaches the last slot it is moved to the front. The state is the number of rows; a fresh cache has 0, whatever its words are.
#![tactic(auto)]

mod links;
mod rows;

ghost use Rattle.std.specs.Prelude.{◌≡◌, ◌+◌, ◌-◌, ◌≤◌, ◌<◌, max, length};
ghost use Rattle.std.specs.List.{list_all, range_with_len};
ghost use Rattle.words.specs.Ids.{id_of};
ghost use Rattle.expiring_cache.specs.Cache.{young, present, held};
ghost use Rattle.expiring_cache.specs.Layout.{slots_in, slot_at, first_of, cache_of, cache_room, CacheOk, ok-one, CacheKept, Inserted, Pruned};
ghost use Rattle.expiring_cache.specs.Gathering.{Gathered};
ghost use Rattle.expiring_cache.specs.Adding.{Roomy, Added};

use crate::links::push;
use crate::rows::{Row, load_row, put_first, row_since, slot_count};
use words::ids::Id;

// How many rows the words have room for: the other slots are slack, so that the window is moved at most once in as many insertions.
#[tactic(auto, unfolding(crate::specs::Layout::cache_room))]
pub fn cache_room(cache: &[u64]) -> usize
    ensures { result ≡ cache_room cache.now }
{
    slot_count(cache) * 4 / 5
}

// Whether what was held from `since` on still is.
fn is_fresh(since: u64, ttl: u64, time: u64) -> bool
    ensures { result ≡ young ttl time since }
{
    time.saturating_sub(since) < ttl
}

// ---- the cache, lent to be read

#[derive(Clone, Copy)]
pub struct ExpiringCache<'a> {
    words: &'a [u64],
    rows: usize,
    ghost fits: { CacheOk words.now rows } by { ok-one words.now rows },
}

impl<'a> ExpiringCache<'a> {
    pub fn new(words: &'a [u64], rows: usize) -> ExpiringCache<'a>
        requires { CacheOk words.now rows }
        ensures { (result.words.now ≡ words.now) × (result.rows ≡ rows) }
    {
        ExpiringCache { words, rows }
    }

    // Whether the id is present, expired or not.
    #[tactic(auto, using(crate::specs::Seeking::since_present))]
    fn has(&self, id: Id) -> bool
        ensures { CacheKept self.now.words.now self.now.rows → result ≡ present (id_of id) (cache_of self.now.words.now self.now.rows) }
    {
        self.since(id).is_some()
    }

    // Whether the id is held at this time.
    #[tactic(auto, using(crate::specs::Seeking::since_held, crate::specs::Seeking::young_of))]
    pub fn contains(&self, ttl: u64, time: u64, id: Id) -> bool
        ensures { CacheKept self.now.words.now self.now.rows → result ≡ held ttl time (id_of id) (cache_of self.now.words.now self.now.rows) }
    {
        self.since(id)
            .is_some_and(|since| is_fresh(since, ttl, time))
    }

    // Whether all rows are held at this time.
    fn all_fresh(&self, ttl: u64, time: u64) -> bool
        ensures { result ≡ list_all (λ i. young ttl time (slot_at self.now.words.now (first_of self.now.words.now self.now.rows + i)).since) (range_with_len 0 self.now.rows) }
    {
        let first = self.first_slot();
        (0..self.rows).all(|i| is_fresh(row_since(self.words, first + i), ttl, time))
    }
}

// ---- the window is moved to the front

// Moves those of n rows from slot `first` on that are held at this time to the front, in order, and links them anew. Returns how many they are.
fn gather(cache: &mut [u64], first: usize, n: usize, ttl: u64, time: u64) -> usize
    requires { first + n ≤ slots_in cache.old }
    ensures { Gathered cache.old cache.new first n result ttl time }
{
    let mut w = 0;
    for i in 0..n {
        let row = load_row(cache, first + i);
        if is_fresh(row.since, ttl, time) {
            push(cache, 0, w, row);
            w += 1;
        }
    }
    w
}

// Makes room behind n rows from slot `first` on, and returns where they start then. At time 0 all rows are of age 0: all stay.
fn make_room(cache: &mut [u64], first: usize, n: usize) -> usize
    requires { (first + n ≤ slots_in cache.old) × (n < slots_in cache.old) }
    ensures { Roomy cache.old cache.new first n result }
{
    if first + n < slot_count(cache) {
        return first;
    }
    gather(cache, first, n, 1, 0);
    0
}

// How many of n rows must go so that one more is within the capacity, which is at least 1.
fn excess(n: usize, capacity: usize) -> usize
    ensures { result ≡ n + 1 - max capacity 1 }
{
    n.saturating_sub(capacity.saturating_sub(1))
}

// ---- the cache, lent to be changed

// A method that writes says that the words are still the same ones, `same_reference`: by that a caller knows what its own words become.
#[derive(Drop)]
pub struct ExpiringCacheMut<'a> {
    words: &'a mut [u64],
    rows: usize,
    ghost fits: { CacheOk words.now rows } by { ok-one words.now rows },
}

impl<'a> ExpiringCacheMut<'a> {
    pub fn new(words: &'a mut [u64], rows: usize) -> ExpiringCacheMut<'a>
        requires { CacheOk words.old rows }
        ensures words { (result.words.now ≡ words.old) × (result.rows ≡ rows) }
        ensures same_reference { result.words.ghost_name ≡ words.entry.ghost_name }
    {
        ExpiringCacheMut { words, rows }
    }

    pub fn cache(&self) -> ExpiringCache<'_>
        ensures { (result.words.now ≡ self.now.words.now) × (result.rows ≡ self.now.rows) }
    {
        ExpiringCache::new(self.words, self.rows)
    }

    // How many rows there are, expired or not.
    pub fn len(&self) -> usize
        ensures { result ≡ self.now.rows }
    {
        self.rows
    }

    // Puts an id that is not there behind the rows; the oldest go where the cache is full.
    #[tactic(auto, unfolding(crate::specs::Layout::CacheOk, crate::specs::Layout::cache_room))]
    fn add(&mut self, capacity: usize, time: u64, id: Id)
        requires { max capacity 1 ≤ cache_room self.old.words.now }
        ensures added { Added self.old.words.now self.new.words.now self.old.rows self.new.rows capacity time (id_of id) }
        ensures same_reference { self.new.words.ghost_name ≡ self.old.words.ghost_name }
    {
        let n = self.rows;
        let k = excess(n, capacity);
        let from = self.cache().first_slot() + k;
        let first = make_room(self.words, from, n - k);
        push(self.words, first, n - k, Row { id, since: time });
        put_first(self.words, first);
        self.rows = n - k + 1;
    }

    // Holds the id from this time on, unless it is present, expired or not.
    pub fn insert(&mut self, capacity: usize, time: u64, id: Id)
        requires { max capacity 1 ≤ cache_room self.old.words.now }
        ensures inserted { CacheKept self.old.words.now self.old.rows → Inserted self.old.words.now self.new.words.now self.old.rows self.new.rows capacity time (id_of id) }
        ensures same_length { length self.new.words.now ≡ length self.old.words.now }
        ensures same_reference { self.new.words.ghost_name ≡ self.old.words.ghost_name }
    {
        if self.cache().has(id) {
            return;
        }
        self.add(capacity, time, id);
    }

    // Keeps, in order, the rows that are held at this time. Where all are, no word changes.
    #[tactic(auto, unfolding(crate::specs::Layout::CacheOk, crate::specs::Layout::cache_room))]
    pub fn prune(&mut self, ttl: u64, time: u64)
        ensures upper_bound { self.new.rows ≤ self.old.rows }
        ensures pruned { CacheKept self.old.words.now self.old.rows → Pruned self.old.words.now self.new.words.now self.old.rows self.new.rows ttl time }
        ensures same_length { length self.new.words.now ≡ length self.old.words.now }
        ensures same_reference { self.new.words.ghost_name ≡ self.old.words.ghost_name }
    {
        if self.cache().all_fresh(ttl, time) {
            return;
        }
        let first = self.cache().first_slot();
        let n = self.rows;
        self.rows = gather(self.words, first, n, ttl, time);
        put_first(self.words, 0);
    }
}
