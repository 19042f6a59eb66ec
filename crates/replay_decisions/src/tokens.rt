// The tokens of an answer.
use announce::AnnounceMessage;
use choice::{BestAnnounceMessage, Candidate};
use compare::{DatasetOrdering, InternalDefaultDS};
use decision::RecommendedState;
use replay::{STDOUT_FILENO, print16};
use replay_states::{print_none, print_on, print_own};
use states::PortAnswer;

// Writes the place of a verdict among the verdicts.
pub fn print_verdict(verdict: DatasetOrdering) {
    match verdict {
        DatasetOrdering::Better => replay::print_first(0),
        DatasetOrdering::BetterByTopology => replay::print_first(1),
        DatasetOrdering::Error1 => replay::print_first(2),
        DatasetOrdering::Error2 => replay::print_first(3),
        DatasetOrdering::WorseByTopology => replay::print_first(4),
        DatasetOrdering::Worse => replay::print_first(5),
    }
}

// Writes the place of the best candidate, which opens an answer.
pub fn print_best(best: Option<Candidate>) {
    match best {
        Some(candidate) => print_on(candidate.place, 2),
        None => {
            io::write_all(STDOUT_FILENO, b"-");
        }
    }
}

// Writes the place of a best message, which its sequence tells.
pub fn print_message(best: Option<BestAnnounceMessage>) {
    match best {
        Some(found) => replay::print(u64::from(found.message.header.sequence_id), 2),
        None => print_none(),
    }
}

// Writes what tells our own data: priority 1 and class.
fn print_short_own(own: InternalDefaultDS) {
    replay::print8(own.priority_1);
    print_on(u64::from(own.clock_quality.clock_class), 2);
}

// Writes what tells a message: its sequence.
fn print_sequence(message: AnnounceMessage) {
    print16(message.header.sequence_id);
}

// Writes the state of a port and what tells what it carries.
pub fn print_answer(answer: PortAnswer, port: u16) {
    replay_states::print_answer(answer, port, print_short_own, print_sequence);
}

// Writes all of a message as its frame.
fn print_whole_message(message: AnnounceMessage) {
    replay::print_bytes(&replay_states::frame_of(message));
}

// Writes the number of a state, which opens an answer, and all that it carries.
pub fn print_whole_state(state: RecommendedState) {
    replay::print_first(state.number());
    replay_states::print_carried(state, print_own, print_whole_message);
}
