// The index of the rows in the window, by their ids' buckets: a head is the newest row of its bucket, a link the newest before it in its bucket. Each
// names a slot by one more than its number. A row's place counts from the window's start on; a word that names a slot before the window names none. A
// head or a link may be anything, in words that no start left: a head that names no row of its bucket is taken for none, so that a start has nothing
// to clear, and so is a link that does not go down, so that a walk ends.
ghost use Rattle.std.specs.Prelude.{◌≡◌, ℕ, ◌+◌, ◌-◌, ◌≤◌, ◌<◌};
ghost use Rattle.words.specs.Buckets.{bucket_of};
ghost use Rattle.words.specs.Chains.{name_of, checked, bounded};
ghost use Rattle.words.specs.Ids.{id_of};
ghost use Rattle.expiring_cache.specs.Layout.{slots_in, held_of, key_in, hash_at, link_at, head_at, first_of, CacheKept, cache_of};
ghost use Rattle.expiring_cache.specs.Index.{linked_in};
ghost use Rattle.expiring_cache.specs.Entering.{Pushed};
ghost use Rattle.expiring_cache.specs.Seeking.{since_of};

use crate::ExpiringCache;
use crate::rows::{HEAD, LINK, Row, SLOT_WORDS, row_id, row_since, slot_count, store_row};
use words::buckets::bucket_of;
use words::chains::{name_of, named};
use words::ids::Id;

// The bucket of ids whose last word is `d`.
#[tactic(auto, unfolding(crate::specs::Layout::key_in))]
fn bucket(cache: &[u64], d: u64) -> usize
    requires { 0 < slots_in cache.now }
    ensures { (result ≡ bucket_of d (key_in cache.now) (slots_in cache.now)) × (result < slots_in cache.now) }
{
    let n = slot_count(cache);
    bucket_of(d, cache[n * SLOT_WORDS + 1], n)
}

// The bucket of the id in slot `i`.
#[tactic(auto, unfolding(crate::specs::Layout::hash_at))]
fn bucket_at(cache: &[u64], i: usize) -> usize
    requires { i < slots_in cache.now }
    ensures { (result ≡ hash_at cache.now i) × (result < slots_in cache.now) }
{
    bucket(cache, cache[i * SLOT_WORDS + 3])
}

// The place of the newest of n rows from slot `first` on that is in bucket `b`.
#[tactic(auto, unfolding(crate::specs::Layout::head_at, words::specs::Chains::checked))]
fn head(cache: &[u64], first: usize, n: usize, b: usize) -> Option<usize>
    requires { (first + n ≤ slots_in cache.now) × (b < slots_in cache.now) }
    ensures { name_of result ≡ checked (λ (i : ℕ). hash_at cache.now (first + i)) n b (head_at cache.now b - first) }
{
    let word = cache[b * SLOT_WORDS + HEAD].saturating_sub(first as u64);
    named(word).filter(|i| *i < n && bucket_at(cache, first + *i) == b)
}

// The place of the row that the row at place `i` links to.
#[tactic(auto, unfolding(crate::specs::Layout::link_at, words::specs::Chains::bounded))]
fn link(cache: &[u64], first: usize, i: usize) -> Option<usize>
    requires { first + i < slots_in cache.now }
    ensures { name_of result ≡ bounded i (link_at cache.now (first + i) - first) }
{
    let word = cache[(first + i) * SLOT_WORDS + LINK].saturating_sub(first as u64);
    named(word).filter(|older| *older < i)
}

// The row at place n is linked in at the head of its bucket.
fn link_in(cache: &mut [u64], first: usize, n: usize)
    requires { first + n < slots_in cache.old }
    ensures { cache.new ≡ linked_in cache.old first n }
{
    let b = bucket_at(cache, first + n);
    let older = name_of(head(cache, first, n, b));
    cache[(first + n) * SLOT_WORDS + LINK] = first as u64 + older;
    cache[b * SLOT_WORDS + HEAD] = name_of(Some(first + n));
}

// Puts a row behind n rows, which stand from slot `first` on, and at the head of its bucket.
pub(crate) fn push(cache: &mut [u64], first: usize, n: usize, x: Row)
    requires { first + n < slots_in cache.old }
    ensures { Pushed cache.old cache.new first n (held_of x) }
{
    store_row(cache, first + n, x);
    link_in(cache, first, n);
}

// The time that the row with this id has, of n rows from slot `first` on. No method: of words behind `self` the loop's proof does not learn that
// they fit 64 bits.
fn seek(cache: &[u64], first: usize, n: usize, id: Id) -> Option<u64>
    requires starts { first ≡ first_of cache.now n }
    requires inside { first + n ≤ slots_in cache.now }
    ensures { CacheKept cache.now n → result ≡ since_of (id_of id) (cache_of cache.now n) }
{
    if n == 0 {
        return None;
    }
    let mut next = head(cache, first, n, bucket(cache, id.d));
    while let Some(i) = next {
        if row_id(cache, first + i) == id {
            return Some(row_since(cache, first + i));
        }
        next = link(cache, first, i);
    }
    None
}

impl ExpiringCache<'_> {
    // The time that the row with this id has.
    pub(crate) fn since(&self, id: Id) -> Option<u64>
        ensures { CacheKept self.now.words.now self.now.rows → result ≡ since_of (id_of id) (cache_of self.now.words.now self.now.rows) }
    {
        seek(self.words, self.first_slot(), self.rows, id)
    }
}
