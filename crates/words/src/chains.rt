// Words that name slots, as heads and links of chains: one more than a slot's number, and 0 for none.
ghost use Rattle.std.specs.Prelude.{◌≡◌, ◌^◌, ◌<◌};
ghost use Rattle.words.specs.Chains.{name_of};

// The word that names a slot.
pub fn name_of(slot: Option<usize>) -> u64
    requires { name_of slot < 2 ^ 64 }
    ensures { result ≡ name_of slot }
{
    match slot {
        Some(i) => (i + 1) as u64,
        None => 0,
    }
}

// The slot that a word names.
pub fn named(word: u64) -> Option<usize>
    ensures { name_of result ≡ word }
{
    (word as usize).checked_sub(1)
}
