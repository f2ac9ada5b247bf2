// poolrun: reads one bracket form a line, from standard input or from the file that its first argument names, and prints one answer a line
// (docs/FORMS.md). What a line comes to is crate console's; here is the loop that cuts the input into lines.
#![tactic(auto)]

ghost use Rattle.std.specs.Prelude.{◌≡◌, ◌+◌, ◌<◌, true, length, set, take};
ghost use Rattle.console.specs.Desk.{HoldsIn, SameLengths, kept_of, told_in};
ghost use Rattle.poolrun.specs.Input.{words_in, added};
ghost use Rattle.poolrun.specs.Poolrun.{Sized, Room, Tells, Whole, Ends, Steps, Feeds, Finishes, Turns, Serves};
ghost use Rattle.poolrun.specs.Whole.{PlaysInput};
ghost use Rattle.streams.specs.Streams.{Written};

use console::calls::call_of;
use console::desk::Desk;
use console::tell;
use lines::read::read_form;
use std::io::{Read, Write};
use std::{env, fs, io};
use streams::{Input, Output, Sink, Source};

// What goes from byte to byte: the pool and what is held of it, the buffers of a line, how much of a line was read, and how many lines there were.
#[derive(Drop)]
struct Machine<'d, 'a> {
    // at a lifetime of its own: a struct that is given its field at another one is not covered by the check
    desk: Desk<'d>,
    // lists that a query answers with
    listing: &'a mut [u64],
    // the lists of a form
    first: &'a mut [u64],
    second: &'a mut [u64],
    line: &'a mut [u8],
    out: &'a mut [u8],
    len: usize,
    number: u64,
    ghost sized: { Sized line.now desk.entries.now desk.boxes.now desk.cache.now desk.peers.now desk.answer.now listing.now first.now second.now out.now },
}

// Makes the call that the bytes of line `number` ask for, and answers how long its text is, which stands at the start of `out`.
fn tell_line(
    line: &[u8],
    desk: &mut Desk<'_>,
    listing: &mut [u64],
    first: &mut [u64],
    second: &mut [u64],
    number: u64,
    out: &mut [u8],
) -> usize
    requires holds { HoldsIn desk.old }
    requires room { Room desk.old.answer.now listing.old first.old second.old out.old }
    ensures tells { Tells line.now number (words_in desk.old) (kept_of desk.old.held) (words_in desk.new) out.old out.new (told_in desk.new result) }
    ensures same_lengths { SameLengths desk.old desk.new }
{
    let form = read_form(line, first, second);
    tell(
        desk,
        listing,
        &first[..],
        &second[..],
        number,
        call_of(form),
        out,
    )
}

// Hands a whole line to the output.
fn hand_over<O: Sink>(to: &mut O, line: &[u8])
    requires { Whole line.now }
    ensures { Written (O.stand to.old) (O.stand to.new) line.now }
{
    to.hand(line);
}

// The first `len` bytes, and a newline behind them, are handed to the output.
fn write_line<O: Sink>(to: &mut O, out: &mut [u8], len: usize)
    requires { len < length out.old }
    ensures line { out.new ≡ set out.old len 10 }
    ensures written { Written (O.stand to.old) (O.stand to.new) (take (len + 1) out.new) }
{
    out[len] = 10;
    let n = len + 1;
    hand_over(to, &out[..n]);
}

impl Machine<'_, '_> {
    ghost use Rattle.poolrun.specs.Machine.{state_at, state_in};

    // A byte of a line. Of a line that is too long one byte more than allowed is kept, so that it is seen.
    fn add_byte(&mut self, b: u8)
        ensures { state_in self.new ≡ added b (state_in self.old) }
    {
        let len = self.len;
        if len >= self.line.len() {
            return;
        }
        self.line[len] = b;
        self.len = len + 1;
    }

    // A line is whole: it stands at the front of `line`. It is answered, and the answer is written at once.
    fn end_line<O: Sink>(&mut self, to: &mut O)
        requires { HoldsIn self.old.desk }
        ensures { Ends (state_in self.old) (state_in self.new) self.new.out.now (O.stand to.old) (O.stand to.new) }
    {
        let number = self.number.saturating_add(1);
        let n = self.len.min(self.line.len());
        // the last place is the newline's
        let room = 32768;
        let len = tell_line(
            &self.line[..n],
            &mut self.desk,
            self.listing,
            self.first,
            self.second,
            number,
            &mut self.out[..room],
        );
        write_line(to, self.out, len);
        self.len = 0;
        self.number = number;
    }

    // The next byte of the input.
    fn step<O: Sink>(&mut self, b: u8, to: &mut O)
        requires { HoldsIn self.old.desk }
        ensures { Steps b (state_in self.old) (state_in self.new) self.new.out.now (O.stand to.old) (O.stand to.new) }
    {
        if b != 10 {
            return self.add_byte(b);
        }
        self.end_line(to)
    }

    // The bytes that one read brought. tidy has these loops too: one for both would need their state, step and end as ghost members of a trait, and be no
    // plainer.
    fn feed<O: Sink>(&mut self, input: &[u8], to: &mut O)
        requires { HoldsIn self.old.desk }
        ensures { Feeds input.now (state_in self.old) (state_in self.new) (O.stand to.old) (O.stand to.new) }
    {
        for b in input {
            self.step(*b, to);
        }
    }

    // The input has ended. The last line, which may lack its newline, is answered.
    fn finish<O: Sink>(&mut self, to: &mut O)
        requires { HoldsIn self.old.desk }
        ensures { Finishes (state_in self.old) (state_at true self.new) self.new.out.now (O.stand to.old) (O.stand to.new) }
    {
        if self.len == 0 {
            return;
        }
        self.end_line(to)
    }

    // What one read brought: nothing at the end of the input. Answers whether this is the end.
    fn turn<O: Sink>(&mut self, input: &[u8], to: &mut O) -> bool
        requires { HoldsIn self.old.desk }
        ensures { Turns input.now (state_in self.old) (state_at result self.new) (O.stand to.old) (O.stand to.new) }
    {
        if input.len() == 0 {
            self.finish(to);
            return true;
        }
        self.feed(input, to);
        false
    }

    // All that is read. Memory does not grow with it. Answers whether the input has ended.
    fn serve<I: Source, O: Sink>(&mut self, from: &mut I, input: &mut [u8], to: &mut O) -> bool
        requires { HoldsIn self.old.desk }
        ensures { Serves (length input.old) (state_in self.old) (state_at result self.new) (I.stand from.old) (I.stand from.new) (O.stand to.old) (O.stand to.new) }
    {
        // a proved loop has to end, and nothing says that an input does
        for _turn in 0..u64::MAX {
            let n = from.read_some(input);
            if self.turn(&input[..n], to) {
                return true;
            }
        }
        false
    }
}

// Answers all that is read.
fn run<I: Source, O: Sink>(from: &mut I, to: &mut O)
    ensures { PlaysInput (I.stand from.old) (I.stand from.new) (O.stand to.old) (O.stand to.new) }
{
    // no heap: one store and one line of fixed size
    let mut entries = [0u64; 2306];
    let mut boxes = [0u64; 16642];
    let mut cache = [0u64; 8752];
    let mut peers = [0u64; 512];
    let mut answer = [0u64; 1024];
    let mut listing = [0u64; 1024];
    let mut first = [0u64; 14336];
    let mut second = [0u64; 14336];
    let mut out = [0u8; 32769];
    let mut input = [0u8; 8192];
    let mut line = [0u8; 4097];
    let desk = Desk {
        entries: &mut entries,
        boxes: &mut boxes,
        cache: &mut cache,
        peers: &mut peers,
        answer: &mut answer,
        held: None,
    };
    let mut machine = Machine {
        desk,
        listing: &mut listing,
        first: &mut first,
        second: &mut second,
        line: &mut line,
        out: &mut out,
        len: 0,
        number: 0,
    };
    machine.serve(from, &mut input, to);
}

// The same, and what failed.
fn played<R: Read + Drop, W: Write + Drop>(from: R, to: W) -> io::Result<()> {
    let mut input = Input::new(from);
    let mut output = Output::new(to);
    run(&mut input, &mut output);
    input.end()?;
    output.end()
}

fn main(rt: HostRuntime) -> io::Result<()> {
    match env::args(&rt)?.nth(1) {
        Some(path) => played(fs::open(&rt, path.as_str())?, rt.stdout()),
        None => played(rt.stdin(), rt.stdout()),
    }
}
