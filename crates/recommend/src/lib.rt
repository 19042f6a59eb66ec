// A port's recommended state in two steps: its number, by the candidates of Ebest and of the port in the place of whole messages; then
// the state, which carries at most one message.
#![tactic(auto)]

ghost use Rattle.std.specs.Prelude.{◌≡◌};
ghost use Rattle.decision.specs.State.{low};
ghost use Rattle.recommend.specs.Number.{keep_next, own_below, low_number, against_number, high_number, stays_as, number_by, of_port, carrying};

use announce::AnnounceMessage;
use choice::Candidate;
use compare::{ComparisonDataset, InternalDefaultDS};
use decision::RecommendedState;

// One step of the choice among the ports: a port without a candidate changes nothing.
pub fn keep(held: Option<Candidate>, next: Option<Candidate>) -> Option<Candidate>
    ensures { result ≡ keep_next held next }
{
    match next {
        None => held,
        Some(b) => choice::keep(held, b),
    }
}

// Our own data ranks below a candidate.
#[tactic(auto, unfolding(crate::specs::Number::own_below))]
fn own_below(own: InternalDefaultDS, best: Candidate) -> bool
    ensures { result ≡ own_below own best }
{
    let d0 = ComparisonDataset::from_own_data(own);
    d0.compare(best.dataset()).as_ordering().is_lt()
}

// Class 1 to 127: the port's candidate alone.
fn low_number(own: InternalDefaultDS, port: Option<Candidate>) -> u8
    ensures { result ≡ low_number own port }
{
    match port {
        Some(p) if own_below(own, p) => 4,
        _ => 1,
    }
}

// Ebest ranks above our own data. It is the port's own where it was received there.
fn against_number(global: Candidate, port: Option<Candidate>) -> u8
    ensures { result ≡ against_number global port }
{
    match port {
        Some(p) if global.receiver_port == p.receiver_port => 6,
        Some(p) if global.compare_dataset(p).by_topology() => 5,
        _ => 3,
    }
}

// Any other class: Ebest first.
fn high_number(own: InternalDefaultDS, global: Option<Candidate>, port: Option<Candidate>) -> u8
    ensures { result ≡ high_number own global port }
{
    match global {
        Some(g) if own_below(own, g) => against_number(g, port),
        _ => 2,
    }
}

// Our class is one for which the port's own best message alone decides.
#[tactic(auto, unfolding(decision::specs::State::low))]
fn is_low(own: InternalDefaultDS) -> bool
    ensures { result ≡ low own }
{
    let class = own.clock_quality.clock_class;
    (RecommendedState::LOW_CLASS_FIRST..=RecommendedState::LOW_CLASS_LAST).contains(&class)
}

// A listening port without a candidate stays as it is.
fn stays(port: Option<Candidate>, listening: bool) -> bool
    ensures { result ≡ stays_as listening port }
{
    listening && port.is_none()
}

// The number of a port's state, by the candidates of Ebest and of the port and whether it listens.
#[tactic(auto, unfolding(crate::specs::Number::number_by))]
pub fn number(
    own: InternalDefaultDS,
    global: Option<Candidate>,
    port: Option<Candidate>,
    listening: bool,
) -> u8
    ensures { result ≡ number_by own global port listening }
{
    if stays(port, listening) {
        return 0;
    }
    if is_low(own) {
        return low_number(own, port);
    }
    high_number(own, global, port)
}

// The state of this number carries the port's own message: P1 and P2.
#[tactic(auto, unfolding(crate::specs::Number::of_port))]
pub fn of_port(number: u8) -> bool
    ensures { result ≡ of_port number }
{
    number == 4 || number == 5
}

// The state of a number from 3 on, with the message that it carries.
#[tactic(auto, unfolding(crate::specs::Number::carrying))]
pub fn carrying(number: u8, message: AnnounceMessage) -> RecommendedState
    ensures { result ≡ carrying number message }
{
    match number {
        3 => RecommendedState::M3(message),
        4 => RecommendedState::P1(message),
        5 => RecommendedState::P2(message),
        _ => RecommendedState::S1(message),
    }
}
