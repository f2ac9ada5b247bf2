// The calls over lent words. Nothing is required of the caller: too few words for a queue are answered as a line without room, as an empty
// queue, and at a start as too short, and nothing changes.
ghost use Rattle.std.specs.Prelude.{◌≡◌};
ghost use Rattle.intake.specs.Promises.{StartPromise, PutPromise, TurnPromise};

use crate::lines::{LinesMut, PLACES, QUEUE_WORDS};

// Why nothing was done, by the number that C sees.
#[derive(Clone, Copy, Debug, PartialEq, Eq)]
pub enum Refusal {
    TooShort = 1,
    NoRoom = 32,
}

// A handle that was handed out, and its line.
#[derive(Clone, Copy, Debug, PartialEq, Eq)]
pub struct Served {
    pub line: u8,
    pub handle: u64,
}

// Makes the queue empty.
pub fn start(queue: &mut [u64]) -> Result<(), Refusal>
    ensures { StartPromise queue.old queue.new result }
{
    if queue.len() < QUEUE_WORDS {
        return Err(Refusal::TooShort);
    }
    let mut queue = LinesMut::new(queue);
    queue.clear();
    queue.set_last(255);
    Ok(())
}

// Stores a handle at the end of a line.
pub fn put(queue: &mut [u64], line: u64, handle: u64) -> Result<(), Refusal>
    ensures { PutPromise queue.old line handle queue.new result }
{
    if queue.len() < QUEUE_WORDS {
        return Err(Refusal::NoRoom);
    }
    let Ok(line) = u8::try_from(line) else {
        return Err(Refusal::NoRoom);
    };
    let mut queue = LinesMut::new(queue);
    if PLACES <= queue.lines().held(line) {
        return Err(Refusal::NoRoom);
    }
    queue.append(line, handle);
    Ok(())
}

// Serves the next line in circular order after the one served last, or says that every line is empty.
pub fn turn(queue: &mut [u64]) -> Option<Served>
    ensures { TurnPromise queue.old queue.new result }
{
    if queue.len() < QUEUE_WORDS {
        return None;
    }
    let mut queue = LinesMut::new(queue);
    let lines = queue.lines();
    let line = lines.next_after(lines.last())?;
    queue.set_last(line);
    let handle = queue.take(line);
    Some(Served { line, handle })
}
