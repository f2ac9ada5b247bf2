// A queue above the pool: a line of 16 handles for each of 256 peers, served in turn, so that a peer that fills its line delays no other.
// The queue lies in lent words. `lines` alone knows the layout; `calls` are start, put and turn; here they stand as C and Rust call them, and crate
// intake_c exports them.
//
// A slice is a pointer and a length (in words), two arguments in this order. Nothing is required of the caller but that each slice lies in
// memory of its own; on words and lengths of any kind a call is safe, and answers.
//
//     u64 gunthyd_intake_start(u64 *queue, size_t queue_len);                           0 ready
//     u64 gunthyd_intake_put(u64 *queue, size_t queue_len, u64 line, u64 handle);       0 stored, 32 refusal 32
//     u64 gunthyd_intake_turn(u64 *queue, size_t queue_len, u64 *answer, size_t answer_len);
//                                                                                       1 handle and line, the first 2 words written; 0 none
//
// A queue has 4,609 words: line i from word 18 × i on (head, tail, 16 places), and in word 4,608 the line served last. On fewer words start
// answers 1 (refusal 1), put 32 and turn 0; so does turn where the answer has fewer than 2 words. Nothing changes then.
#![tactic(auto)]

pub mod calls;
pub mod lines;

ghost use Rattle.std.specs.Prelude.{◌≡◌};
ghost use Rattle.intake.specs.Exports.{said_code, ToldStart, ToldPut, ToldTurn};

use crate::calls::{Refusal, Served, put, start, turn};

// The number that C sees: 0, or that of the refusal.
fn code(said: Result<(), Refusal>) -> u64
    ensures { result ≡ said_code said }
{
    match said {
        Ok(()) => 0,
        Err(refusal) => refusal as u64,
    }
}

// Makes the queue empty.
pub fn gunthyd_intake_start(queue: &mut [u64]) -> u64
    ensures { ToldStart queue.old queue.new result }
{
    code(start(queue))
}

// Stores a handle at the end of a line.
pub fn gunthyd_intake_put(queue: &mut [u64], line: u64, handle: u64) -> u64
    ensures { ToldPut queue.old line handle queue.new result }
{
    code(put(queue, line, handle))
}

// Hands out the oldest handle of the next line in circular order after the one served last, with its line.
pub fn gunthyd_intake_turn(queue: &mut [u64], answer: &mut [u64]) -> u64
    ensures { ToldTurn queue.old queue.new answer.old answer.new result }
{
    if answer.len() < 2 {
        return 0;
    }
    let Some(Served { line, handle }) = turn(queue) else {
        return 0;
    };
    answer[0] = handle;
    answer[1] = u64::from(line);
    1
}
