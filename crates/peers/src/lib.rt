// What each peer was charged since the last block: records in a lent slice, of which the first `used` are in use. A block frees them
// all by setting that count to 0. `find_peer` and `charge_peer` are thin over the functions by value.
#![tactic(auto)]

ghost use Rattle.std.specs.Prelude.{◌≡◌, ◌≤◌, ◌<◌, eqb, length, drop, find, slice_index_or, IfSome};
ghost use Rattle.std.specs.List.{range_with_len};
ghost use Rattle.words.specs.Sums.{cap};
ghost use Rattle.peers.specs.Peers.{peers_of, standing, charge_peer, place_of, used_after, charged_record, at_limit, none_free, no_peer};

#[repr(C)]
#[derive(Clone, Copy)]
pub struct PeerRecord {
    pub peer: u64,
    pub cost: u64,
}

impl PeerRecord {
    // Whether the record is the peer's.
    fn is_of(self, peer: u64) -> bool
        ensures { result ≡ eqb self.peer peer }
    {
        self.peer == peer
    }
}

// The record of a peer that has one: its index and its sum.
#[derive(Clone, Copy, Debug, PartialEq, Eq)]
pub struct Account {
    pub at: usize,
    pub sum: u64,
}

// Where a peer stands: at its record, or nowhere.
pub type Standing = Option<Account>;

// Refusal 25: the peer has a record at or above its limit.
pub fn at_limit(found: Standing, limit: u64) -> bool
    ensures { result ≡ at_limit limit found }
{
    found.is_some_and(|account| limit <= account.sum)
}

// Refusal 26: the peer has no record, and all of them are used.
pub fn none_free(found: Standing, room: usize, used: usize) -> bool
    ensures { result ≡ none_free room used found }
{
    found.is_none() && room <= used
}

// The index of the record that a charge goes to: the peer's own, or the first free one.
pub fn place(found: Standing, used: usize) -> usize
    ensures { result ≡ place_of used found }
{
    found.map_or(used, |account| account.at)
}

// How many records are in use after the charge.
pub fn used_after(found: Standing, used: usize) -> usize
    requires { used < cap }
    ensures { result ≡ used_after used found }
{
    if found.is_some() { used } else { used + 1 }
}

// The record that is charged, after the charge.
pub fn charged(found: Standing, peer: u64, cost: u64) -> PeerRecord
    ensures { result ≡ charged_record peer cost found }
{
    let sum = found.map_or(0, |account| account.sum);
    PeerRecord {
        peer,
        cost: sum.saturating_add(cost),
    }
}

// The index of the peer's record among the first `used`. The records come with how many are in use, and not as the slice of these: a charge may take the
// first one behind them, and its clause speaks of all.
fn index_of(records: &[PeerRecord], used: usize, peer: u64) -> Option<usize>
    requires { used ≤ length records.now }
    ensures first { result ≡ find (λ i. eqb (slice_index_or records.now i no_peer).peer peer) (range_with_len 0 used) }
    ensures within { IfSome result (λ i. i < used) }
{
    (0..used).find(|i| records[*i].is_of(peer))
}

// Where `peer` stands among the first `used` records.
pub fn find_peer(records: &[PeerRecord], used: usize, peer: u64) -> Standing
    requires { used ≤ length records.now }
    ensures { result ≡ standing (peers_of records.now used) peer }
{
    let at = index_of(records, used, peer)?;
    Some(Account {
        at,
        sum: records[at].cost,
    })
}

// Charges `peer`, which `find_peer` found to stand at `found`: its own record, or the first free one. The records behind those in use
// stay as they are.
pub fn charge_peer(records: &mut [PeerRecord], used: usize, found: Standing, peer: u64, cost: u64)
    requires { (found ≡ standing (peers_of records.old used) peer) × (used_after used found ≤ length records.old) }
    ensures { (peers_of records.new (used_after used found) ≡ charge_peer peer cost (peers_of records.old used))
        × (drop (used_after used found) records.new ≡ drop (used_after used found) records.old) }
{
    let at = place(found, used);
    records[at] = charged(found, peer, cost);
}
