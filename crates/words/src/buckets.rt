// Buckets of ids, for the tables' indexes. Ids with the same last word are in one bucket; which others are depends on a key, so that whoever does
// not know it cannot choose ids into one bucket. No answer depends on the key.
ghost use Rattle.std.specs.Prelude.{◌≡◌, ◌^◌, ◌<◌};
ghost use Rattle.words.specs.Buckets.{place_in, bucket_of};

// Half a word, and the number of factors that a half of the last word is multiplied by.
const HALF: u64 = 0x1_0000_0000;

const FACTORS: u64 = 0x8000_0000;
// What the key's halves are added to: a key of 0 serves too.
const FIRST: u64 = 1540483477;

const SECOND: u64 = 461845907;

// A place among n for a number below half a word: the product's high half, or the remainder where n is half a word or more.
fn place_in(x: u64, n: usize) -> usize
    requires { (x < 2 ^ 32) × (0 < n) }
    ensures { (result ≡ place_in x n) × (result < n) }
{
    let m = n as u64;
    if m < HALF {
        return (x * m / HALF) as usize;
    }
    (x % m) as usize
}

// The bucket, of n, of ids whose last word is `d`: both halves of the word times an odd factor each, and of the sum the upper bits of its low half, so
// that ids that differ little are as far apart as any.
pub fn bucket_of(d: u64, key: u64, n: usize) -> usize
    requires { 0 < n }
    ensures { (result ≡ bucket_of d key n) × (result < n) }
{
    let a = (key % FACTORS + FIRST) % FACTORS * 2 + 1;
    let b = (key / FACTORS % FACTORS + SECOND) % FACTORS * 2 + 1;
    let low = d % HALF * a % HALF;
    let high = d / HALF * b % HALF;
    place_in((low + high) % HALF, n)
}
