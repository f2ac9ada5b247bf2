// Answers that any line can have.
ghost use Rattle.std.specs.Prelude.{◌≤◌, length};
ghost use Rattle.pool_types.specs.Refusals.{refusal_number};
ghost use Rattle.forms.specs.Nums.{Prints};
ghost use Rattle.console.specs.Console.{w_no_pool, refused_text, unread_text};

use pool_types::Refusal;
use replies::pieces::text;

#[tactic(auto, unfolding(crate::specs::Console::refused_text))]
pub fn refused(out: &mut [u8], n: u64) -> usize
    requires { 32768 ≤ length out.old }
    ensures { Prints (refused_text n) 0 out.old out.new result }
{
    replies::with_number(out, b"(refused ", n)
}

pub fn refused_for(out: &mut [u8], refusal: Refusal) -> usize
    requires { 32768 ≤ length out.old }
    ensures { Prints (refused_text (refusal_number refusal)) 0 out.old out.new result }
{
    refused(out, refusal.into())
}

#[tactic(auto, unfolding(crate::specs::Console::unread_text))]
pub fn unread(out: &mut [u8], number: u64) -> usize
    requires { 32768 ≤ length out.old }
    ensures { Prints (unread_text number) 0 out.old out.new result }
{
    replies::with_number(out, b"(unread ", number)
}

pub fn no_pool(out: &mut [u8]) -> usize
    requires { 32768 ≤ length out.old }
    ensures { Prints w_no_pool 0 out.old out.new result }
{
    text(out, 0, b"(no pool)")
}
