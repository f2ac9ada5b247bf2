// Rows of words: a record's words stand one behind the other.
ghost use Rattle.std.specs.Prelude.{◌≡◌, ◌+◌, ◌≤◌, length};
ghost use Rattle.words.specs.Rows.{stored};

// Writes words from index `at` on.
pub fn put_words(s: &mut [u64], at: usize, words: &[u64])
    requires { at + length words.now ≤ length s.old }
    ensures { s.new ≡ stored s.old at words.now }
{
    s[at..at + words.len()].copy_from_slice(words);
}
