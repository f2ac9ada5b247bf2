// The peer records in flat words, two each, a peer and its sum: read into an array, and stored back.
ghost use Rattle.std.specs.Prelude.{◌≡◌, ◌≤◌, length};
ghost use Rattle.peers.specs.Flat.{flat_peers};
ghost use Rattle.process.specs.Words.{Stored};

use peers::PeerRecord;

// How many peers can have a record.
const PEER_RECORDS: usize = 256;

// Reads the first 256 records into an array: no heap. `array::from_fn` was tried in place of the loop, and left a goal about 256 calls.
pub fn load_peers(words: &[u64]) -> [PeerRecord; 256]
    requires { 512 ≤ length words.now }
    ensures { result ≡ flat_peers words.now 256 }
{
    let mut records = [PeerRecord { peer: 0, cost: 0 }; PEER_RECORDS];
    for i in 0..PEER_RECORDS {
        records[i] = PeerRecord {
            peer: words[i * 2],
            cost: words[i * 2 + 1],
        };
    }
    records
}

// Stores them; the words behind them stay.
pub fn store_peers(words: &mut [u64], records: [PeerRecord; 256])
    requires { 512 ≤ length words.old }
    ensures { Stored words.old words.new records 256 × (length records ≡ 256) }
{
    for i in 0..PEER_RECORDS {
        let record = records[i];
        words[i * 2] = record.peer;
        words[i * 2 + 1] = record.cost;
    }
}
