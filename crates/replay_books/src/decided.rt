// The words of the answer to a decision: the choice at once, how many messages were consumed, and for each port its state and what that
// carries.
use crate::at_once::AtOnce;
use crate::{at_once, told};
use announce::AnnounceMessage;
use bmca::Decision;
use refused::Refusal;
use replay::STDOUT_FILENO;
use replay_states::{print_answer, print_own};

// Writes a message as the book has it in short.
fn print_message(message: AnnounceMessage) {
    io::write_all(STDOUT_FILENO, b" ");
    told::print_content(message, false);
}

// Writes the states of all ports.
fn print_states(decision: Decision) {
    for i in 0..told::within(decision.ports as u64, 8) {
        print_answer(decision.answers[i], i as u16 + 1, print_own, print_message);
    }
}

// Writes the choice at once, how many messages were consumed and the states; whether the book follows.
pub fn print_decision(choice: AtOnce, decision: Result<Decision, Refusal>) -> bool {
    match decision {
        Ok(done) => {
            let tallies = done.tallies;
            replay::print_first(0);
            at_once::print_choice(choice);
            replay::print(tallies.consumed, 1);
            told::print_others(tallies.evicted, tallies.aged_out);
            print_states(done);
            true
        }
        Err(why) => {
            replay::print_first(why.number());
            false
        }
    }
}
