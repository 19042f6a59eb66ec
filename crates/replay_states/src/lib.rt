// Writing what a decision answers: what programs that answer recorded decisions share.
#![tactic(auto)]

use announce::AnnounceMessage;
use choice::Candidate;
use compare::InternalDefaultDS;
use decision::RecommendedState;
use frame::TLV_START;
use replay::STDOUT_FILENO;
use states::PortAnswer;

// Writes digits with no space before them.
pub fn print_on(x: u64, digits: usize) {
    io::print_hex(STDOUT_FILENO, x, digits);
}

// Writes a space and what stands for none.
pub fn print_none() {
    io::write_all(STDOUT_FILENO, b" -");
}

// Writes all of our own data.
pub fn print_own(own: InternalDefaultDS) {
    let quality = own.clock_quality;
    replay::print(own.clock_identity, 16);
    print_on(u64::from(own.priority_1), 2);
    print_on(u64::from(quality.clock_class), 2);
    print_on(u64::from(quality.clock_accuracy), 2);
    print_on(u64::from(quality.offset_scaled_log_variance), 4);
    print_on(u64::from(own.priority_2), 2);
}

// Writes what a state carries: our own data, or a message.
pub fn print_carried<O: Fn(InternalDefaultDS), M: Fn(AnnounceMessage)>(
    state: RecommendedState,
    own: O,
    message: M,
)
    requires own { O.IsAlwaysCallable own }
    requires message { M.IsAlwaysCallable message }
{
    match state {
        RecommendedState::Stay => print_none(),
        RecommendedState::M1(data) => own(data),
        RecommendedState::M2(data) => own(data),
        RecommendedState::M3(ebest) => message(ebest),
        RecommendedState::P1(erbest) => message(erbest),
        RecommendedState::P2(erbest) => message(erbest),
        RecommendedState::S1(ebest) => message(ebest),
    }
}

// Writes the state of a port. Another number of the port, which no answer has, is shown.
pub fn print_answer<O: Fn(InternalDefaultDS), M: Fn(AnnounceMessage)>(
    answer: PortAnswer,
    port: u16,
    own: O,
    message: M,
)
    requires own { O.IsAlwaysCallable own }
    requires message { M.IsAlwaysCallable message }
{
    if answer.port_number != port {
        replay::print16(answer.port_number);
    }
    replay::print8(answer.state.number());
    print_carried(answer.state, own, message);
}

// A message's frame, written over zeros. A refusal, which a message that was read has none of, is shown.
pub fn frame_of(message: AnnounceMessage) -> [u8; TLV_START] {
    let mut target = [0u8; TLV_START];
    if let Err(why) = frame_writer::write_frame(message, b"", &mut target) {
        replay::print8(why.number());
    }
    target
}

// What stands in a list behind its candidates.
pub fn no_candidate() -> Candidate {
    Candidate {
        gm_priority_1: 0,
        clock_class: 0,
        clock_accuracy: 0,
        gm_priority_2: 0,
        offset_scaled_log_variance: 0,
        steps_removed: 0,
        receiver_port: 0,
        gm_identity: 0,
        sender: 0,
        receiver_clock: 0,
        age: 0,
        place: 0,
    }
}
