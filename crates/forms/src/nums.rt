// Numbers and ids in text: read and printed.
ghost use Rattle.std.specs.Prelude.{◌≡◌, ◌+◌, ◌*◌, ◌^◌, ◌≤◌, ◌<◌, length};
ghost use Rattle.forms.specs.Nums.{Numeral, decimal, front, last16, id_read, Stepped, digit_byte, Printed, Padded, Words16, upto, Prints, id_text, decimal_text, id_number};

use words::ids::Id;

// One digit more, unless the limit is passed.
fn step(v: u64, base: u64, d: u64, limit: u64) -> Option<u64>
    ensures { Stepped limit (v * base + d) result }
{
    let n = v.checked_mul(base)?.checked_add(d)?;
    if limit < n {
        return None;
    }
    Some(n)
}

// The number of some digits in a base of at most 16.
fn read_number(digits: &[u8], base: u32, limit: u64) -> Option<u64>
    requires { (2 ≤ base) × (base ≤ 16) }
    ensures { Numeral base limit digits.now result }
{
    let mut v: u64 = 0;
    for c in digits {
        let d = char::from(*c).to_digit(base)?;
        v = step(v, base as u64, d as u64, limit)?;
    }
    Some(v)
}

// The decimal number of a word, at most `limit`.
pub fn read_decimal(word: &[u8], limit: u64) -> Option<u64>
    ensures { result ≡ decimal limit word.now }
{
    if word.is_empty() {
        return None;
    }
    read_number(word, 10, limit)
}

// The digits but the last 16, and the last 16, or all where there are no more: those of one word of an id.
fn cut_word(digits: &[u8]) -> (&[u8], &[u8])
    ensures front { result.0.now ≡ front digits.now }
    ensures last { result.1.now ≡ last16 digits.now }
{
    digits.split_at(digits.len().saturating_sub(16))
}

// The id of a word: 1 to 64 digits of base 16, cut into words from the end.
pub fn read_id(word: &[u8]) -> Option<Id>
    ensures { result ≡ id_read word.now }
{
    if word.is_empty() {
        return None;
    }
    if 64 < word.len() {
        return None;
    }
    let (front, d) = cut_word(word);
    let (front, c) = cut_word(front);
    let (a, b) = cut_word(front);
    Some(Id {
        a: read_number(a, 16, u64::MAX)?,
        b: read_number(b, 16, u64::MAX)?,
        c: read_number(c, 16, u64::MAX)?,
        d: read_number(d, 16, u64::MAX)?,
    })
}

// What is printed stands from a place on, and the place past it is returned: a struct of buffer and place is no plainer here, since crate replies keeps
// them so (`Line`) and calls `print_id` and `print_number` once each.

// The byte of a digit. No plainer by `char::from_digit`, which gives an Option of a char.
#[tactic(auto, using(crate::specs::NumLaws::byte_low, crate::specs::NumLaws::byte_high))]
fn digit_byte(d: u64) -> u8
    requires { d < 16 }
    ensures { result ≡ digit_byte d }
{
    if d < 10 {
        return b'0' + d as u8;
    }
    b'a' + (d - 10) as u8
}

// Prints v from `at` on, without leading zeros, in at most `width` digits. Returns the place past it. A recursion, since a loop
// would be no plainer: the first digit is found last and printed first.
fn print(out: &mut [u8], at: usize, v: u64, base: u64, width: usize) -> usize
    requires { (1 < base) × (base ≤ 16) × (0 < width) × (v < base ^ width) × (at + width ≤ length out.old) }
    ensures { Printed base v width at out.old out.new result }
{
    if v < base {
        out[at] = digit_byte(v);
        return at + 1;
    }
    let k = print(out, at, v / base, base, width - 1);
    out[k] = digit_byte(v % base);
    k + 1
}

// Prints v from `at` on in exactly `width` digits. `print` ends where the number does, this one where the width does: one function would test both
// at each digit.
fn pad(out: &mut [u8], at: usize, v: u64, base: u64, width: usize) -> usize
    requires { (1 < base) × (base ≤ 16) × (v < base ^ width) × (at + width ≤ length out.old) }
    ensures { Padded base v width at out.old out.new result }
{
    if width == 0 {
        return at;
    }
    let k = pad(out, at, v / base, base, width - 1);
    out[k] = digit_byte(v % base);
    k + 1
}

// Prints one word more: 16 digits, or without leading zeros where nothing was printed yet.
fn more_word(out: &mut [u8], started: bool, at: usize, w: u64) -> usize
    requires { at + 16 ≤ length out.old }
    ensures { Words16 started w at out.old out.new result }
{
    if started {
        return pad(out, at, w, 16, 16);
    }
    if w == 0 {
        return at;
    }
    print(out, at, w, 16, 16)
}

// Prints the id of four words.
pub fn print_words(out: &mut [u8], at: usize, words: &[u64]) -> usize
    requires { (length words.now ≡ 4) × (at + 64 ≤ length out.old) }
    ensures { Prints (id_text (upto words.now 4)) at out.old out.new result }
{
    let mut k = at;
    for w in words {
        k = more_word(out, at < k, k, *w);
    }
    if k == at {
        out[k] = b'0';
        return k + 1;
    }
    k
}

// Prints an id: hexadecimal digits in lower case, without leading zeros.
pub fn print_id(out: &mut [u8], at: usize, x: Id) -> usize
    requires { at + 64 ≤ length out.old }
    ensures { Prints (id_text (id_number x)) at out.old out.new result }
{
    print_words(out, at, &[x.a, x.b, x.c, x.d])
}

// Prints a number: decimal digits, without leading zeros.
pub fn print_number(out: &mut [u8], at: usize, v: u64) -> usize
    requires { at + 20 ≤ length out.old }
    ensures { Prints (decimal_text v) at out.old out.new result }
{
    print(out, at, v, 10, 20)
}
