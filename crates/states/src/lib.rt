// The decision for all ports by their best messages: Ebest, and a recommended state for each port.
#![tactic(auto)]

ghost use Rattle.std.specs.Prelude.{◌≡◌};
ghost use Rattle.states.specs.Ports.{keep_found, ebest_of, answers_of};

use choice::BestAnnounceMessage;
use compare::InternalDefaultDS;
use decision::RecommendedState;

// A port's answer.
#[derive(Clone, Copy)]
pub struct PortAnswer {
    pub port_number: u16,
    pub state: RecommendedState,
}

// One step of the choice among the ports' best: a port without one changes nothing.
fn keep(
    held: Option<BestAnnounceMessage>,
    next: Option<BestAnnounceMessage>,
) -> Option<BestAnnounceMessage>
    ensures { result ≡ keep_found held next }
{
    match (held, next) {
        (_, None) => held,
        (Some(h), Some(b)) if h.candidate(0).stays(b.candidate(0)) => held,
        _ => next,
    }
}

// Ebest: the choice among the Erbests, port 1 first.
#[tactic(auto, unfolding(crate::proofs::Steps::keep_all))]
pub fn ebest(erbests: [Option<BestAnnounceMessage>; 8]) -> Option<BestAnnounceMessage>
    ensures { result ≡ ebest_of erbests }
{
    let mut held = None;
    for next in erbests {
        held = keep(held, next);
    }
    held
}

// The state decision for all ports by their Erbests, port 1 first; bit k - 1 of the byte is set if port k listens. Where a box has
// fewer ports, the last places hold nothing and their answers mean nothing.
pub fn recommended_states(
    own: InternalDefaultDS,
    erbests: [Option<BestAnnounceMessage>; 8],
    listening: u8,
) -> [PortAnswer; 8]
    ensures { result ≡ answers_of own listening erbests }
{
    let global = ebest(erbests);
    let stay = PortAnswer {
        port_number: 0,
        state: RecommendedState::Stay,
    };
    let mut answers = [stay; 8];
    for i in 0..8 {
        let state = decision::calculate_recommended_state(
            own,
            global,
            erbests[i],
            (listening >> i) % 2 == 1,
        );
        answers[i] = PortAnswer {
            port_number: i as u16 + 1,
            state: state,
        };
    }
    answers
}
