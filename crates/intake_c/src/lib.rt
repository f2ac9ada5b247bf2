// The exported calls of the intake, for C and Rust: each is crate intake's function of its name, whose head gives the words.
#![tactic(auto)]

ghost use Rattle.intake.specs.Exports.{ToldStart, ToldPut, ToldTurn};

// Makes the queue empty.
#[unsafe(no_mangle)]
pub extern "C" fn gunthyd_intake_start(queue: &mut [u64]) -> u64
    ensures { ToldStart queue.old queue.new result }
{
    intake::gunthyd_intake_start(queue)
}

// Stores a handle at the end of a line.
#[unsafe(no_mangle)]
pub extern "C" fn gunthyd_intake_put(queue: &mut [u64], line: u64, handle: u64) -> u64
    ensures { ToldPut queue.old line handle queue.new result }
{
    intake::gunthyd_intake_put(queue, line, handle)
}

// Hands out the oldest handle of the next line in circular order after the one served last, with its line.
#[unsafe(no_mangle)]
pub extern "C" fn gunthyd_intake_turn(queue: &mut [u64], answer: &mut [u64]) -> u64
    ensures { ToldTurn queue.old queue.new answer.old answer.new result }
{
    intake::gunthyd_intake_turn(queue, answer)
}
