// The intake's exported calls, run over the wrap at 2^32. A line has what each put answered, or line and handle of each turn. The lines of `stdout`
// are worked out by hand from document 02, "Ask 11".
#![tactic(auto)]

use intake::lines::{HEAD_AT, LINE_WORDS, QUEUE_WORDS, TAIL_AT};
use intake::{gunthyd_intake_put, gunthyd_intake_start, gunthyd_intake_turn};
use std::io;
use std::ops::Range;

// An empty line whose head and tail stand at `count`.
fn begin_at(queue: &mut [u64; QUEUE_WORDS], line: u8, count: u64) {
    let at = usize::from(line) * LINE_WORDS;
    queue[at + HEAD_AT] = count;
    queue[at + TAIL_AT] = count;
}

// Stores the handles in a line.
fn puts(
    rt: &impl Print,
    queue: &mut [u64; QUEUE_WORDS],
    line: u64,
    handles: Range<u64>,
) -> io::Result<()> {
    print!(rt; "put")?;
    for handle in handles {
        let said = gunthyd_intake_put(queue, line, handle);
        print!(rt; " {said}")?;
    }
    println!(rt; "")
}

fn one_turn(rt: &impl Print, queue: &mut [u64; QUEUE_WORDS]) -> io::Result<()> {
    // words as C lends them
    let mut answer = [0u64; 2];
    if gunthyd_intake_turn(queue, &mut answer) == 1 {
        let [handle, line] = answer;
        print!(rt; " {line}:{handle}")
    } else {
        print!(rt; " none")
    }
}

fn turns(rt: &impl Print, queue: &mut [u64; QUEUE_WORDS], n: u64) -> io::Result<()> {
    print!(rt; "turn")?;
    for _ in 0..n {
        one_turn(rt, queue)?;
    }
    println!(rt; "")
}

// Line 3 stands two handles before the wrap, line 255 one.
fn over_the_wrap(rt: &impl Print, queue: &mut [u64; QUEUE_WORDS]) -> io::Result<()> {
    begin_at(queue, 3, 4294967294);
    begin_at(queue, 255, 4294967295);
    puts(rt, queue, 3, 10..27)?;
    puts(rt, queue, 255, 90..92)?;
    puts(rt, queue, 256, 99..100)?;
    turns(rt, queue, 20)
}

fn main(rt: HostRuntime) -> io::Result<()> {
    // words as C lends them: no heap
    let mut queue = [0u64; QUEUE_WORDS];
    gunthyd_intake_start(&mut queue);
    over_the_wrap(&rt, &mut queue)
}
