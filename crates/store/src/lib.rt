// The lent store as every changing call finds it: whether the counts of the state fit what is lent. That is all that safety needs, since no word of
// a table is used as an index.
#![tactic(auto)]

ghost use Rattle.std.specs.Prelude.{◌≡◌, false, ◌+◌, ◌<◌};
ghost use Rattle.words.specs.Lists.{pick};
ghost use Rattle.pool_types.specs.Refusals.{refusal_number};
ghost use Rattle.arguments.specs.Arguments.{records};
ghost use Rattle.entries.specs.Layout.{entries_room};
ghost use Rattle.boxes.specs.Layout.{boxes_room};
ghost use Rattle.boxes.specs.Index.{BoxesKept};
ghost use Rattle.pool.specs.Pool.{Room, tables_of, no_room};
ghost use Rattle.store.specs.Fits.{cache_fits, all_fit};

use arguments::count_records;
use expiring_cache::cache_room;
use pool::fits;
use pool::lent::Pool;
use pool_types::{Mempool, Refusal};

// How many peers can have a record.
const PEER_RECORDS: usize = 256;

// Whether the counts of pool and cache fit the words that are lent, and the cache has room for its capacity, at least one id.
pub fn fits_cache(entries: &[u64], boxes: &[u64], cache: &[u64], mempool: Mempool) -> bool
    ensures { result ≡ cache_fits entries.now boxes.now cache.now mempool }
{
    let counts = mempool.counts;
    if !fits(entries, boxes, counts) {
        return false;
    }
    let room = cache_room(cache);
    if room < mempool.cached {
        return false;
    }
    if room == 0 {
        return false;
    }
    mempool.config.invalidation_capacity <= room
}

// Whether all counts fit, where so many peer records are lent.
pub fn fits_all(
    entries: &[u64],
    boxes: &[u64],
    cache: &[u64],
    records: usize,
    mempool: Mempool,
) -> bool
    ensures { result ≡ all_fit entries.now boxes.now cache.now records mempool }
{
    if !fits_cache(entries, boxes, cache, mempool) {
        return false;
    }
    if records < PEER_RECORDS {
        return false;
    }
    mempool.sums.peers <= PEER_RECORDS
}

// Whether a transaction's entry, or the records of its inputs and outputs, find no room.
pub fn lacks_room(
    pool: &Pool<'_>,
    inputs: &[u64],
    in_width: usize,
    outputs: &[u64],
    out_width: usize,
) -> bool
    requires { (0 < in_width) × (0 < out_width) }
    ensures room { result ≡ false → Room pool.now.entries.now pool.now.boxes.now pool.now.counts (records in_width inputs.now + records out_width outputs.now) }
    ensures value { BoxesKept pool.now.boxes.now pool.now.counts.records → result ≡ no_room (entries_room pool.now.entries.now) (boxes_room pool.now.boxes.now) (tables_of pool.now.entries.now pool.now.boxes.now pool.now.counts) (records in_width inputs.now + records out_width outputs.now) }
{
    let needed = count_records(inputs, in_width) + count_records(outputs, out_width);
    !pool.room_for(needed)
}

// What is answered where they do not fit: an open pass is named first here too.
pub fn unfit(passing: bool) -> Refusal
    ensures { refusal_number result ≡ pick passing 20 1 }
{
    if passing {
        Refusal::PassOpen
    } else {
        Refusal::Lists
    }
}
