// Lines as bracket forms. The form reader and the list reader call each other. No tree is built: a line is read once to see that it is a form, and
// readers of one kind of form then go through it by `word`, `inside` and `ends`. Each takes what is left of the line, and gives back what it leaves.
ghost use Rattle.std.specs.Prelude.{◌≡◌, true, false, MatchOption, drop, position, not};
ghost use Rattle.forms.specs.Text.{is_word, is_space, run, Gap, Next, SomeForm, NoForm, SomeMembers, NoMembers, Opened, NoLine, WordHere, NoWord, ListHere, NoList, EndHere};

// What stands next inside a list.
#[derive(Clone, Copy)]
pub enum Member<'a> {
    // a word, and what is left behind it
    Word(&'a [u8], &'a [u8]),
    // a list: what is left from its opening bracket on, and behind that bracket
    Open(&'a [u8], &'a [u8]),
    // the list's closing bracket: what is left behind it
    Close(&'a [u8]),
}

// A byte of a word.
pub fn is_word(c: u8) -> bool
    ensures { result ≡ is_word c }
{
    matches!(c, b'0'..=b'9' | b'a'..=b'z' | b'A'..=b'F')
}

// The place of the first byte that is no space.
fn spaces_end(rest: &[u8]) -> Option<usize>
    ensures { result ≡ position (λ c. not (is_space c)) rest.now }
{
    rest.iter().position(|c| *c != b' ')
}

// What is left behind the spaces in front.
fn past_spaces(rest: &[u8]) -> &[u8]
    ensures { result.now ≡ drop (run is_space rest.now) rest.now }
{
    let spaces = spaces_end(rest).unwrap_or(rest.len());
    &rest[spaces..]
}

// The place of the first byte that is no byte of a word.
fn word_end(rest: &[u8]) -> Option<usize>
    ensures { result ≡ position (λ c. not (is_word c)) rest.now }
{
    rest.iter().position(|c| !is_word(*c))
}

// How many bytes of a word stand in front.
fn word_len(rest: &[u8]) -> usize
    ensures { result ≡ run is_word rest.now }
{
    word_end(rest).unwrap_or(rest.len())
}

// Whether a member may begin so many spaces on.
fn parted(gap: bool, spaces: usize) -> bool
    ensures yes { result ≡ true → Gap gap spaces }
    ensures not { result ≡ false → Gap gap spaces → ⊥ }
{
    gap || 0 < spaces
}

// What stands next in a list, if it is of a list. `gap`: right behind the list's opening bracket.
pub fn next(rest: &[u8], gap: bool) -> Option<Member<'_>>
    ensures { Next rest.now gap result }
{
    let here = past_spaces(rest);
    let (first, behind) = here.split_first()?;
    if *first == b')' {
        return Some(Member::Close(behind));
    }
    if !parted(gap, rest.len() - here.len()) {
        return None;
    }
    if *first == b'(' {
        return Some(Member::Open(here, behind));
    }
    if is_word(*first) {
        let (word, behind) = here.split_at(word_len(here));
        return Some(Member::Word(word, behind));
    }
    None
}

// The form reader: what is left behind the form that begins here.
#[cycle(form_list)]
pub fn form(bytes: &[u8], depth: usize) -> Option<&[u8]>
    ensures { MatchOption result (NoForm depth bytes.now) (λ t. SomeForm depth bytes.now t.now) }
{
    let (first, inside) = bytes.split_first()?;
    if *first != b'(' {
        return None;
    }
    if depth == 0 {
        return None;
    }
    list(inside, depth - 1)
}

// The list reader: what is left behind the closing bracket, from behind the opening one.
#[cycle(form_list)]
pub fn list(inside: &[u8], depth: usize) -> Option<&[u8]>
    ensures { MatchOption result (NoMembers depth true inside.now) (λ t. SomeMembers depth true inside.now t.now) }
{
    let mut rest = inside;
    let mut gap = true;
    loop {
        match next(rest, gap)? {
            Member::Close(behind) => return Some(behind),
            Member::Word(_, behind) => rest = behind,
            Member::Open(here, _) => rest = form(here, depth)?,
        }
        gap = false;
    }
}

// What stands behind the opening bracket of a line that is one form, of at most 4096 bytes and 8 deep.
pub fn read_line(line: &[u8]) -> Option<&[u8]>
    ensures { MatchOption result (NoLine line.now) (λ a. Opened line.now a.now) }
{
    if line.len() > 4096 {
        return None;
    }
    let here = past_spaces(line);
    let behind = form(here, 8)?;
    if !past_spaces(behind).is_empty() {
        return None;
    }
    let (_, inside) = here.split_first()?;
    Some(inside)
}

// The word that stands next, and what is left behind it.
pub fn word(rest: &[u8], gap: bool) -> Option<(&[u8], &[u8])>
    ensures { MatchOption result (NoWord rest.now gap) (λ p. WordHere rest.now gap p.0.now p.1.now) }
{
    match next(rest, gap)? {
        Member::Word(word, behind) => Some((word, behind)),
        Member::Open(_, _) => None,
        Member::Close(_) => None,
    }
}

// The inside of the list that stands next, of the members at the depth, and what is left behind the list.
pub fn inside(rest: &[u8], gap: bool, depth: usize) -> Option<(&[u8], &[u8])>
    ensures { MatchOption result (NoList rest.now gap depth) (λ p. ListHere rest.now gap depth p.0.now p.1.now) }
{
    match next(rest, gap)? {
        Member::Open(here, inside) => Some((inside, form(here, depth)?)),
        Member::Word(_, _) => None,
        Member::Close(_) => None,
    }
}

// Whether the list ends here.
pub fn ends(rest: &[u8], gap: bool) -> bool
    ensures { EndHere rest.now gap result }
{
    match next(rest, gap) {
        Some(Member::Close(_)) => true,
        Some(Member::Word(_, _)) => false,
        Some(Member::Open(_, _)) => false,
        None => false,
    }
}
