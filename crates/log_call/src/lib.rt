// The lines `01` and `02` of the log: a frame and a step, over a store whose check has answered.
#![tactic(auto)]

ghost use Rattle.std.specs.Prelude.{◌≡◌, ◌≤◌, length};
ghost use Rattle.book.specs.Rules.{store_refusal};
ghost use Rattle.refused.specs.Refusal.{number_in, answer_of};
ghost use Rattle.log_answer.specs.Answer.{answer_bytes, Answers};
ghost use Rattle.log_call.specs.Call.{frame_asked, step_asked};

use foreign_master::Tallies;
use log_answer::{Answered, SHAPELESS, Setup};
use refused::Refusal;

// The paper's number of an answer.
fn number(answer: Result<Tallies, Refusal>) -> u8
    ensures { result ≡ (answer_of answer).0 }
{
    match answer {
        Ok(_) => 0,
        Err(e) => e.number(),
    }
}

// A line `01`: a frame at a port.
pub fn frame_line(
    store: &mut [u64],
    checked: Result<(), Refusal>,
    setup: Setup,
    line: &[u8],
    out: &mut [u8],
) -> Answered
    requires { (answer_bytes ≤ length out.old) × (number_in checked ≡ store_refusal store.old) }
    ensures { Answers (frame_asked setup line.now) setup store.old out.old result store.new out.new }
{
    if line.len() < 2 {
        return log_answer::told(setup, SHAPELESS, out);
    }
    let port = u16::from(line[1]);
    let answer = foreign_master::register_checked(store, checked, port, &line[2..]);
    log_answer::told(setup, number(answer), out)
}

// A line `02`: a step of age.
pub fn step_line(
    store: &mut [u64],
    checked: Result<(), Refusal>,
    setup: Setup,
    line: &[u8],
    out: &mut [u8],
) -> Answered
    requires { (answer_bytes ≤ length out.old) × (number_in checked ≡ store_refusal store.old) }
    ensures { Answers (step_asked setup line.now) setup store.old out.old result store.new out.new }
{
    if line.len() != 9 {
        return log_answer::told(setup, SHAPELESS, out);
    }
    let answer = foreign_master::age_checked(store, checked, wire::u64_at(line, 1));
    log_answer::told(setup, number(answer), out)
}
