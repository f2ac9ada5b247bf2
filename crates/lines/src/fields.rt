// The fields of a form. Each reader takes what is left of a list, and gives back what it found and what it leaves, or nothing where the member that
// stands next is not what the form wants: a form is readable exactly if each of its fields is found and its list ends behind the last.
ghost use Rattle.std.specs.Prelude.{◌≡◌, ◌≤◌, false, MatchOption, IfSome};
ghost use Rattle.lines.specs.Fields.{FieldAt, NoField, JudgeAt, NoJudge, VerdictAt, NoVerdict, numbers, number64, number32, ids, either, optional, same, IfEnds};

use forms::nums::{read_decimal, read_id};
use forms::text::{ends, inside, word};
use pool_types::Verdict;
use words::ids::Id;

// A decimal number of at most `limit`.
pub fn number(rest: &[u8], limit: u64) -> Option<(u64, &[u8])>
    ensures is { MatchOption result (NoField (numbers limit) rest.now false) (λ p. FieldAt (numbers limit) rest.now false p.0 p.1.now) }
    ensures small { IfSome result (λ p. p.0 ≤ limit) }
{
    let (word, rest) = word(rest, false)?;
    let value = read_decimal(word, limit)?;
    Some((value, rest))
}

// A decimal number of 64 bits.
pub fn number64(rest: &[u8]) -> Option<(u64, &[u8])>
    ensures { MatchOption result (NoField number64 rest.now false) (λ p. FieldAt number64 rest.now false p.0 p.1.now) }
{
    number(rest, u64::MAX)
}

// A decimal number of 32 bits. Both are lines over one reader, with the type of their fields.
pub fn number32(rest: &[u8]) -> Option<(u32, &[u8])>
    ensures { MatchOption result (NoField number32 rest.now false) (λ p. FieldAt number32 rest.now false p.0 p.1.now) }
{
    let (value, rest) = number(rest, 4294967295)?;
    Some((value as u32, rest))
}

// An id.
pub fn id(rest: &[u8], gap: bool) -> Option<(Id, &[u8])>
    ensures { MatchOption result (NoField ids rest.now gap) (λ p. FieldAt ids rest.now gap p.0 p.1.now) }
{
    let (word, rest) = word(rest, gap)?;
    let value = read_id(word)?;
    Some((value, rest))
}

// Whether two words are the same. A bare `==` is no plainer: the library says it byte by byte, and each of the readers' tests would turn that into
// `same`.
pub fn same_word(word: &[u8], other: &[u8]) -> bool
    ensures { result ≡ same word.now other.now }
{
    word == other
}

// One of two words, and what each stands for.
pub fn choice<'a, T: Copy>(
    rest: &'a [u8],
    gap: bool,
    yes: &[u8],
    first: T,
    no: &[u8],
    second: T,
) -> Option<(T, &'a [u8])>
    ensures { MatchOption result (NoField (either yes.now first no.now second) rest.now gap) (λ p. FieldAt (either yes.now first no.now second) rest.now gap p.0 p.1.now) }
{
    let (word, rest) = word(rest, gap)?;
    if same_word(word, yes) {
        return Some((first, rest));
    }
    if same_word(word, no) {
        return Some((second, rest));
    }
    None
}

// A number of 64 bits, or a word in its place.
pub fn number_or<'a>(rest: &'a [u8], absent: &[u8]) -> Option<(Option<u64>, &'a [u8])>
    ensures { MatchOption result (NoField (optional absent.now) rest.now false) (λ p. FieldAt (optional absent.now) rest.now false p.0 p.1.now) }
{
    let (word, rest) = word(rest, false)?;
    if same_word(word, absent) {
        return Some((None, rest));
    }
    let value = read_decimal(word, u64::MAX)?;
    Some((Some(value), rest))
}

// What stands inside a verdict's brackets. The words are compared one after the other, as in read.rt: a `match` on byte strings leaves a goal for each byte.
fn judge(inside: &[u8]) -> Option<Verdict>
    ensures { MatchOption result (NoJudge inside.now) (λ v. JudgeAt inside.now v) }
{
    let (word, rest) = word(inside, true)?;
    if same_word(word, b"ok") {
        let (cost, rest) = number64(rest)?;
        return if_ends(rest, Verdict::Valid(cost));
    }
    if same_word(word, b"bad") {
        return if_ends(rest, Verdict::Invalid);
    }
    if same_word(word, b"none") {
        return if_ends(rest, Verdict::Absent);
    }
    None
}

// What was read, if the list ends behind it.
pub fn if_ends<T: Copy>(rest: &[u8], read: T) -> Option<T>
    ensures { IfEnds rest.now read result }
{
    if ends(rest, false) {
        return Some(read);
    }
    None
}

// A verdict: `(ok COST)`, `(bad)` or `(none)`.
pub fn verdict_field(rest: &[u8], depth: usize) -> Option<(Verdict, &[u8])>
    ensures { MatchOption result (NoVerdict rest.now depth) (λ p. VerdictAt rest.now depth p.0 p.1.now) }
{
    let (inside, rest) = inside(rest, false, depth)?;
    let verdict = judge(inside)?;
    Some((verdict, rest))
}
