// The lines in lent words, 18 each: head, tail, and 16 places for handles. Head and tail count the handles that left and that came, modulo
// 2^32, each in a word of which the low 32 bits are read; a handle's place is its count modulo 16. Behind the lines, one word: the line
// served last, read modulo 256. So every word means something.
ghost use Rattle.std.specs.Prelude.{◌≡◌, ◌<◌, ◌+◌, ◌*◌, ◌%◌, slice_index, slice_set, find, nat_lt, map};
ghost use Rattle.std.specs.List.{range_with_len};
ghost use Rattle.intake.specs.Queue.{circle, first_held};
ghost use Rattle.intake.specs.Words.{Room, place, held_of, lines_of, last_of, Cleared, Appended, Taken};

pub const LINES: usize = 256;

pub const PLACES: u32 = 16;

pub const LINE_WORDS: usize = 18;

pub const HEAD_AT: usize = 0;

pub const TAIL_AT: usize = 1;

pub const PLACES_AT: usize = 2;

pub const LAST_AT: usize = 4608;

pub const QUEUE_WORDS: usize = 4609;

const WRAP: u64 = 1 << 32;

// The word in which a line has its handle of this count.
fn place(line: u8, count: u32) -> usize
    ensures { result ≡ place line count }
{
    usize::from(line) * LINE_WORDS + PLACES_AT + (count % PLACES) as usize
}

// The words of a queue, lent to be read.
#[derive(Clone, Copy)]
pub struct Lines<'a> {
    words: &'a [u64],
    ghost room: { Room words.now },
}

impl<'a> Lines<'a> {
    pub fn new(words: &'a [u64]) -> Lines<'a>
        requires { Room words.now }
        ensures { result.words.now ≡ words.now }
    {
        Lines { words }
    }

    // A line's head or tail.
    fn count(&self, line: u8, at: usize) -> u32
        requires { at < 2 }
        ensures { result ≡ slice_index self.now.words.now (line * 18 + at) % 4294967296 }
    {
        (self.words[usize::from(line) * LINE_WORDS + at] % WRAP) as u32
    }

    // How many handles the line holds.
    pub fn held(&self, line: u8) -> u32
        ensures { result ≡ held_of self.now.words.now line }
    {
        self.count(line, TAIL_AT)
            .wrapping_sub(self.count(line, HEAD_AT))
    }

    // The line served last.
    pub(crate) fn last(&self) -> u8
        ensures { result ≡ last_of self.now.words.now }
    {
        (self.words[LAST_AT] % 256) as u8
    }

    // The first line that holds a handle, in circular order after `last`.
    pub fn next_after(&self, last: u8) -> Option<u8>
        ensures { result ≡ first_held (lines_of self.now.words.now) (circle last) }
    {
        self.first_after(usize::from(last))
    }

    // The same, said as the chain goes.
    fn first_after(&self, last: usize) -> Option<u8>
        requires { last < 256 }
        ensures { result ≡ find (λ i. nat_lt 0 (held_of self.now.words.now i)) (map (λ j. (last + 1 + j) % 256) (range_with_len 0 256)) }
    {
        (0..LINES)
            .map(|step| ((last + 1 + step) % LINES) as u8)
            .find(|line| 0 < self.held(*line))
    }
}

// The words of a queue, lent to be changed. A method that writes says that they are still the same ones, `same_reference`: by that a caller knows
// what its own words become.
#[derive(Drop)]
pub struct LinesMut<'a> {
    words: &'a mut [u64],
    ghost room: { Room words.now },
}

impl<'a> LinesMut<'a> {
    // Callers test the length first: of a constructor that refused no clause could be proved that the words are as they were.
    pub fn new(words: &'a mut [u64]) -> LinesMut<'a>
        requires { Room words.old }
        ensures words { result.words.now ≡ words.old }
        ensures same_reference { result.words.ghost_name ≡ words.entry.ghost_name }
    {
        LinesMut { words }
    }

    pub(crate) fn lines(&self) -> Lines<'_>
        ensures { result.words.now ≡ self.now.words.now }
    {
        Lines::new(self.words)
    }

    pub(crate) fn set_last(&mut self, line: u8)
        ensures words { self.new.words.now ≡ slice_set self.old.words.now 4608 line }
        ensures same_reference { self.new.words.ghost_name ≡ self.old.words.ghost_name }
    {
        self.words[LAST_AT] = u64::from(line);
    }

    // Takes every handle out of every line.
    pub(crate) fn clear(&mut self)
        ensures cleared { Cleared self.old.words.now self.new.words.now 256 }
        ensures same_reference { self.new.words.ghost_name ≡ self.old.words.ghost_name }
    {
        for line in 0..LINES {
            self.words[line * LINE_WORDS + HEAD_AT] = 0;
            self.words[line * LINE_WORDS + TAIL_AT] = 0;
        }
    }

    // Appends a handle to a line that holds fewer than 16.
    pub fn append(&mut self, line: u8, handle: u64)
        requires { held_of self.old.words.now line < 16 }
        ensures appended { Appended self.old.words.now line handle self.new.words.now }
        ensures same_reference { self.new.words.ghost_name ≡ self.old.words.ghost_name }
    {
        let tail = self.lines().count(line, TAIL_AT);
        self.words[place(line, tail)] = handle;
        self.words[usize::from(line) * LINE_WORDS + TAIL_AT] = u64::from(tail.wrapping_add(1));
    }

    // Hands out the oldest handle of a line that holds one.
    pub fn take(&mut self, line: u8) -> u64
        requires { 0 < held_of self.old.words.now line }
        ensures taken { Taken self.old.words.now line result self.new.words.now }
        ensures same_reference { self.new.words.ghost_name ≡ self.old.words.ghost_name }
    {
        let head = self.lines().count(line, HEAD_AT);
        let handle = self.words[place(line, head)];
        self.words[usize::from(line) * LINE_WORDS + HEAD_AT] = u64::from(head.wrapping_add(1));
        handle
    }
}
