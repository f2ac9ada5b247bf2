// The single spelling of forms (docs/FORMS.md): a readable line without the spaces, leading zeros and upper-case digits that it does not need. What
// is readable is what poolrun reads: crate lines.
#![tactic(auto)]

ghost use Rattle.std.specs.Prelude.{◌≡◌, false, ◌+◌, ◌≤◌, ◌<◌, length, drop, get_or};
ghost use Rattle.forms.specs.Nums.{Prints};
ghost use Rattle.lines.specs.Forms.{is_read};
ghost use Rattle.spelling.specs.Spelling.{lower, leads, owes, joins, put, squeezed};
ghost use Rattle.spelling.specs.SqueezeLaws.{due};
ghost use Rattle.spelling.specs.Tidied.{is_tight, is_owed, Spaces, Takes, Tidies};

use forms::text::{is_word, read_line};
use lines::read::{Form, read_form};
use replies::pieces::{byte, text};

#[tactic(auto, unfolding(crate::specs::Spelling::lower, forms::specs::Text::within))]
fn lower(c: u8) -> u8
    ensures { result ≡ lower c }
{
    match c {
        b'A'..=b'F' => c + 32,
        _ => c,
    }
}

// What the next byte stands behind, of the bytes that are kept.
#[derive(Clone, Copy)]
enum Before {
    // nothing yet, or an opening bracket
    Start,
    // a byte of a member
    Member,
    // a member and a space, which is owed to the next member
    Space,
}

impl Before {
    fn is_tight(self) -> bool
        ensures { result ≡ is_tight self }
    {
        matches!(self, Before::Member)
    }

    fn is_owed(self) -> bool
        ensures { result ≡ is_owed self }
    {
        matches!(self, Before::Space)
    }

    // Behind a space more.
    fn spaced(self) -> Before
        ensures { Spaces self result }
    {
        match self {
            Before::Start => Before::Start,
            Before::Member => Before::Space,
            Before::Space => Before::Space,
        }
    }
}

// Whether the byte at `i` is a zero in front of a word.
#[tactic(auto, using(crate::specs::Tidied::goes_at, crate::specs::Tidied::goes_end), unfolding(crate::specs::Spelling::leads))]
fn leads(line: &[u8], i: usize, before: Before) -> bool
    requires { i < length line.now }
    ensures { result ≡ leads (is_tight before) (get_or line.now i 0) (drop (i + 1) line.now) }
{
    if before.is_tight() {
        return false;
    }
    if line[i] != b'0' {
        return false;
    }
    let j = i + 1;
    if j < line.len() {
        return is_word(line[j]);
    }
    false
}

#[tactic(auto, unfolding(crate::specs::Spelling::owes))]
fn owes(before: Before, c: u8) -> bool
    ensures { result ≡ owes (is_owed before) c }
{
    before.is_owed() && c != b')'
}

// What stands behind a byte that is kept: no member behind an opening bracket.
#[tactic(auto, unfolding(crate::specs::Spelling::joins))]
fn kept(c: u8) -> Before
    ensures { (is_tight result ≡ joins c) × (is_owed result ≡ false) }
{
    if c == b'(' {
        return Before::Start;
    }
    Before::Member
}

// A byte, behind the space that is owed to it.
fn put(out: &mut [u8], at: usize, before: Before, c: u8) -> usize
    requires { at + 1 + due (is_owed before) ≤ length out.old }
    ensures { Prints (put (is_owed before) c) at out.old out.new result }
{
    if owes(before, c) {
        let k = byte(out, at, b' ');
        return byte(out, k, lower(c));
    }
    byte(out, at, lower(c))
}

// Where the next byte goes, and what it stands behind.
#[derive(Clone, Copy)]
struct Place {
    at: usize,
    before: Before,
}

// The byte at `i`.
fn squeeze_byte(line: &[u8], i: usize, out: &mut [u8], p: Place) -> Place
    requires { (i < length line.now) × (p.at + 1 + due (is_owed p.before) ≤ length out.old) }
    ensures { Takes line.now i out.old p out.new result }
{
    let c = line[i];
    if c == b' ' {
        return Place {
            at: p.at,
            before: p.before.spaced(),
        };
    }
    if leads(line, i, p.before) {
        return p;
    }
    let at = put(out, p.at, p.before, c);
    Place {
        at,
        before: kept(c),
    }
}

// The bytes of a readable line, without what its form's single spelling does not have.
fn squeeze(line: &[u8], out: &mut [u8]) -> usize
    requires { length line.now ≤ length out.old }
    ensures { Prints (squeezed false false line.now) 0 out.old out.new result }
{
    let mut p = Place {
        at: 0,
        before: Before::Start,
    };
    for i in 0..line.len() {
        p = squeeze_byte(line, i, out, p);
    }
    p.at
}

fn is_read(form: Form) -> bool
    ensures { result ≡ is_read form }
{
    match form {
        Form::Unread => false,
        _ => true,
    }
}

// A line to the start of `out`: a readable one in its single spelling, any other as it is. The two slices are for the words of its lists, as poolrun's.
pub fn tidy_line(line: &[u8], first: &mut [u64], second: &mut [u64], out: &mut [u8]) -> usize
    requires { (length first.old ≡ 14336) × (length second.old ≡ 14336) × (length line.now ≤ length out.old) }
    ensures { Tidies line.now out.old out.new result }
{
    let Some(_) = read_line(line) else {
        return text(out, 0, line);
    };
    let form = read_form(line, first, second);
    if is_read(form) {
        return squeeze(line, out);
    }
    text(out, 0, line)
}
