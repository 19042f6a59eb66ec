// The line `03` of the log: a decision, over a store whose check has answered.
#![tactic(auto)]

ghost use Rattle.std.specs.Prelude.{◌≡◌, ◌/◌, ◌^◌, ◌≤◌, length};
ghost use Rattle.std.proofs.Math.Option.{some};
ghost use Rattle.book.specs.Rules.{store_refusal};
ghost use Rattle.refused.specs.Refusal.{number_in};
ghost use Rattle.log_answer.specs.Answer.{answer_bytes, Answers};
ghost use Rattle.log_decision.specs.Call.{decision_of, decision_asked};

use log_answer::{Answered, SHAPELESS, Setup};
use refused::Refusal;

// The bits of a byte above a count.
fn above(listening: u8, count: u8) -> u8
    ensures { result ≡ listening / 2 ^ count }
{
    listening.unbounded_shr(u32::from(count))
}

// The decision that a line `03` asks.
fn decide(
    store: &mut [u64],
    checked: Result<(), Refusal>,
    setup: Setup,
    listening: u8,
    out: &mut [u8],
) -> Answered
    requires { (answer_bytes ≤ length out.old) × (number_in checked ≡ store_refusal store.old) }
    ensures { Answers (some (decision_of setup listening)) setup store.old out.old result store.new out.new }
{
    let decided = bmca::decide_checked(
        store,
        checked,
        setup.priority_1,
        setup.quality,
        setup.priority_2,
        listening,
    );
    match decided {
        Ok(decision) => {
            log_answer::put_states(decision.answers, decision.ports, out);
            Answered {
                setup,
                count: 3 + decision.ports * 2,
            }
        }
        Err(e) => log_answer::told(setup, e.number(), out),
    }
}

// A line `03`: a decision, where the bits above the count of ports are zero.
pub fn decision_line(
    store: &mut [u64],
    checked: Result<(), Refusal>,
    setup: Setup,
    line: &[u8],
    out: &mut [u8],
) -> Answered
    requires { (answer_bytes ≤ length out.old) × (number_in checked ≡ store_refusal store.old) }
    ensures { Answers (decision_asked setup line.now) setup store.old out.old result store.new out.new }
{
    if line.len() != 2 || above(line[1], setup.ports) != 0 {
        return log_answer::told(setup, SHAPELESS, out);
    }
    decide(store, checked, setup, line[1], out)
}
