// The minute of a wait.
ghost use Rattle.std.specs.Prelude.{◌≡◌, ◌/◌, min};

use crate::HISTOGRAM_BINS;

// A minute in milliseconds: a wait of minute k is below 60,000 × (k + 1). The measuring interval is another number.
const MINUTE_MS: u64 = 60000;

// The minute of a wait, or 60 where it is 60 minutes or longer.
pub fn minute_bin(wait: u64) -> usize
    ensures { result ≡ min (wait / 60000) 60 }
{
    (wait / MINUTE_MS).min(HISTOGRAM_BINS as u64) as usize
}
