// tidy: reads poolrun's forms, from standard input or from the file that its first argument names, and writes each in its single spelling; unreadable lines
// and line ends are copied (docs/FORMS.md). How a line comes out is crate spelling's; here is the loop that cuts the input into lines.
#![tactic(auto)]

ghost use Rattle.std.specs.Prelude.{◌≡◌, ◌≤◌, true, length, take};
ghost use Rattle.streams.specs.Streams.{Written};
ghost use Rattle.tidy.specs.Input.{Ending};
ghost use Rattle.tidy.specs.Loop.{Sized, Whole, Outs, Steps, Finishes, Feeds, Turns, Serves};
ghost use Rattle.tidy.specs.Whole.{TidiesInput};

use replies::pieces::text;
use spelling::tidy_line;
use std::io::{Read, Write};
use std::{env, fs, io};
use streams::{Input, Output, Sink, Source};

// What goes from byte to byte: the buffers of a line, how much of it is held, and whether some of it was written already.
#[derive(Drop)]
struct Tidier<'a> {
    line: &'a mut [u8],
    // the lists of a form
    first: &'a mut [u64],
    second: &'a mut [u64],
    out: &'a mut [u8],
    len: usize,
    // no plainer as a count or an Option: how much was written is asked nowhere, and `len` is of what is held
    long: bool,
    ghost sized: { Sized line.now first.now second.now out.now },
}

impl Tidier<'_> {
    ghost use Rattle.tidy.specs.Tidier.{state_at, state_in};

    // Three ways to hand the first `n` bytes of `out` on, with one body: one function would be no plainer, since each asks for the bytes that its place is to
    // write.

    // The bytes of the line in progress that are held, before another comes.
    fn hand_held<O: Sink>(&self, n: usize, to: &mut O)
        requires fits { n ≤ length self.now.out.now }
        requires held { take n self.now.out.now ≡ self.now.line.now }
        ensures { Written (O.stand to.old) (O.stand to.new) (take n self.now.out.now) }
    {
        to.hand(&self.out[..n]);
    }

    // How the line in progress comes out, and its newline.
    fn hand_line<O: Sink>(&self, n: usize, to: &mut O)
        requires fits { n ≤ length self.now.out.now }
        requires whole { Whole (state_in self.now) (take n self.now.out.now) }
        ensures { Written (O.stand to.old) (O.stand to.new) (take n self.now.out.now) }
    {
        to.hand(&self.out[..n]);
    }

    // How the last line comes out.
    fn hand_last<O: Sink>(&self, n: usize, to: &mut O)
        requires fits { n ≤ length self.now.out.now }
        requires ending { Ending (state_in self.now) (take n self.now.out.now) }
        ensures { Written (O.stand to.old) (O.stand to.new) (take n self.now.out.now) }
    {
        to.hand(&self.out[..n]);
    }

    // The end of the line in progress, to the start of `out`: a line that is whole is tidied, the rest of a longer one stays.
    fn ending(&mut self) -> usize
        ensures outs { Outs (state_in self.old) self.old.out.now self.new.out.now result }
        ensures same_state { state_in self.new ≡ state_in self.old }
    {
        // read through a reference of its own: read in place, it is lost to the proof that the bytes stay
        let lent = &mut *self.line;
        let line = &lent[..];
        let n = self.len.min(line.len());
        if self.long {
            return text(self.out, 0, &line[..n]);
        }
        tidy_line(&line[..n], self.first, self.second, self.out)
    }

    // A byte of a line. Where the buffer is full the line is too long, and what is held of it is written.
    fn add_byte<O: Sink>(&mut self, b: u8, to: &mut O)
        requires { b ≡ 10 → ⊥ }
        ensures { Steps b (state_in self.old) (state_in self.new) self.new.out.now (O.stand to.old) (O.stand to.new) }
    {
        let len = self.len;
        if len < self.line.len() {
            self.line[len] = b;
            self.len = len + 1;
            return;
        }
        // read through a reference of its own, as in `ending`
        let line = &mut *self.line;
        let n = text(self.out, 0, &line[..]);
        self.hand_held(n, to);
        self.line[0] = b;
        self.len = 1;
        self.long = true;
    }

    // The next byte of the input.
    fn step<O: Sink>(&mut self, b: u8, to: &mut O)
        ensures { Steps b (state_in self.old) (state_in self.new) self.new.out.now (O.stand to.old) (O.stand to.new) }
    {
        if b != b'\n' {
            return self.add_byte(b, to);
        }
        let len = self.ending();
        self.out[len] = b'\n';
        self.hand_line(len + 1, to);
        self.len = 0;
        self.long = false;
    }

    // The bytes that one read brought.
    fn feed<O: Sink>(&mut self, input: &[u8], to: &mut O)
        ensures { Feeds input.now (state_in self.old) (state_in self.new) (O.stand to.old) (O.stand to.new) }
    {
        for b in input {
            self.step(*b, to);
        }
    }

    // The input has ended. The last line comes out without a newline.
    fn finish<O: Sink>(&mut self, to: &mut O)
        ensures { Finishes (state_in self.old) (state_at true self.new) self.new.out.now (O.stand to.old) (O.stand to.new) }
    {
        let len = self.ending();
        self.hand_last(len, to);
    }

    // What one read brought: nothing at the end of the input. Answers whether this is the end.
    fn turn<O: Sink>(&mut self, input: &[u8], to: &mut O) -> bool
        ensures { Turns input.now (state_in self.old) (state_at result self.new) (O.stand to.old) (O.stand to.new) }
    {
        if input.is_empty() {
            self.finish(to);
            return true;
        }
        self.feed(input, to);
        false
    }

    // All that is read. Memory does not grow with it. Answers whether the input has ended. poolrun has the same loop: one generic function would need both
    // programs' state, step and end as ghost members of a trait, which is more than the two loops and no plainer.
    fn serve<I: Source, O: Sink>(&mut self, from: &mut I, input: &mut [u8], to: &mut O) -> bool
        ensures { Serves (length input.old) (state_in self.old) (state_at result self.new) (I.stand from.old) (I.stand from.new) (O.stand to.old) (O.stand to.new) }
    {
        // a proved loop has to end, and nothing says that an input does
        for _turn in 0..u64::MAX {
            let n = from.read_some(input);
            if self.turn(&input[..n], to) {
                return true;
            }
        }
        false
    }
}

// Writes all that is read, tidied. The buffers have fixed sizes: no plainer as vectors, since what is held never outgrows them and a vector's growth can
// fail.
fn run<I: Source, O: Sink>(from: &mut I, to: &mut O)
    ensures { TidiesInput (I.stand from.old) (I.stand from.new) (O.stand to.old) (O.stand to.new) }
{
    let mut first = [0u64; 14336];
    let mut second = [0u64; 14336];
    let mut out = [0u8; 4098];
    let mut input = [0u8; 8192];
    let mut line = [0u8; 4097];
    let mut tidier = Tidier {
        line: &mut line,
        first: &mut first,
        second: &mut second,
        out: &mut out,
        len: 0,
        long: false,
    };
    tidier.serve(from, &mut input, to);
}

// The same, and what failed.
fn tidied<R: Read + Drop, W: Write + Drop>(from: R, to: W) -> io::Result<()> {
    let mut input = Input::new(from);
    let mut output = Output::new(to);
    run(&mut input, &mut output);
    input.end()?;
    output.end()
}

fn main(rt: HostRuntime) -> io::Result<()> {
    match env::args(&rt)?.nth(1) {
        Some(path) => tidied(fs::open(&rt, path.as_str())?, rt.stdout()),
        None => tidied(rt.stdin(), rt.stdout()),
    }
}
