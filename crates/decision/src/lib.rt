// The state decision of IEEE 1588-2019, 9.3.3 (figure 33), after bmc/bmca.rs.
#![tactic(auto)]

ghost use Rattle.std.specs.Prelude.{◌≡◌};
ghost use Rattle.decision.specs.State.{same_best, compare_d0, global_and_port, low_class, high_class, by_class, state_of};
ghost use Rattle.decision.specs.Answer.{number_of};

use announce::AnnounceMessage;
use choice::BestAnnounceMessage;
use compare::{ComparisonDataset, DatasetOrdering, InternalDefaultDS};
use std::cmp::Ordering;

// How our own data stands to the best message.
#[derive(Clone, Copy)]
pub enum MessageComparison {
    Better,
    Same,
    Worse(BestAnnounceMessage),
}

// What a port is to do, with the message or own data that it rests on. Stay is the crate's None.
#[derive(Clone, Copy)]
pub enum RecommendedState {
    Stay,
    M1(InternalDefaultDS),
    M2(InternalDefaultDS),
    M3(AnnounceMessage),
    P1(AnnounceMessage),
    P2(AnnounceMessage),
    S1(AnnounceMessage),
}

impl RecommendedState {
    // Our classes for which the port's own best message alone decides.
    pub const LOW_CLASS_FIRST: u8 = 1;

    pub const LOW_CLASS_LAST: u8 = 127;

    // The paper's number.
    pub fn number(self) -> u8
        ensures { result ≡ number_of self }
    {
        match self {
            RecommendedState::Stay => 0,
            RecommendedState::M1(own) => 1,
            RecommendedState::M2(own) => 2,
            RecommendedState::M3(ebest) => 3,
            RecommendedState::P1(erbest) => 4,
            RecommendedState::P2(erbest) => 5,
            RecommendedState::S1(ebest) => 6,
        }
    }
}

// The whole of two records is equal: receiver, age, and message with its header.
#[tactic(auto, unfolding(crate::specs::State::same_best))]
fn same_best(a: BestAnnounceMessage, b: BestAnnounceMessage) -> bool
    ensures { result ≡ same_best a b }
{
    same::same_port(a.identity, b.identity)
        && a.age == b.age
        && same::same_message(a.message, b.message)
}

// Our own data D0 against the best message.
fn compare_d0_best(d0: ComparisonDataset, best: Option<BestAnnounceMessage>) -> MessageComparison
    ensures { result ≡ compare_d0 d0 best }
{
    match best {
        None => MessageComparison::Better,
        Some(b) => {
            let dataset = ComparisonDataset::from_announce_message(b.message, b.identity);
            match d0.compare(dataset).as_ordering() {
                Ordering::Less => MessageComparison::Worse(b),
                Ordering::Equal => MessageComparison::Same,
                Ordering::Greater => MessageComparison::Better,
            }
        }
    }
}

// The state decision for one port, by Ebest, the port's Erbest and whether it listens. A listening port without a best message
// stays as it is.
#[tactic(auto, unfolding(crate::specs::State::state_of))]
pub fn calculate_recommended_state(
    own: InternalDefaultDS,
    global: Option<BestAnnounceMessage>,
    port: Option<BestAnnounceMessage>,
    listening: bool,
) -> RecommendedState
    ensures { result ≡ state_of own global port listening }
{
    if listening && port.is_none() {
        return RecommendedState::Stay;
    }
    by_class(own, global, port)
}

// By our clock class.
#[tactic(auto, unfolding(crate::specs::State::low))]
fn by_class(
    own: InternalDefaultDS,
    global: Option<BestAnnounceMessage>,
    port: Option<BestAnnounceMessage>,
) -> RecommendedState
    ensures { result ≡ by_class own global port }
{
    let class = own.clock_quality.clock_class;
    if (RecommendedState::LOW_CLASS_FIRST..=RecommendedState::LOW_CLASS_LAST).contains(&class) {
        calculate_recommended_state_low_class(own, port)
    } else {
        calculate_recommended_state_high_class(own, global, port)
    }
}

// Only the best message of the port is considered.
fn calculate_recommended_state_low_class(
    own: InternalDefaultDS,
    port: Option<BestAnnounceMessage>,
) -> RecommendedState
    ensures { result ≡ low_class own port }
{
    let d0 = ComparisonDataset::from_own_data(own);
    match compare_d0_best(d0, port) {
        MessageComparison::Better | MessageComparison::Same => RecommendedState::M1(own),
        MessageComparison::Worse(best) => RecommendedState::P1(best.message),
    }
}

// The best message of all ports is considered first.
fn calculate_recommended_state_high_class(
    own: InternalDefaultDS,
    global: Option<BestAnnounceMessage>,
    port: Option<BestAnnounceMessage>,
) -> RecommendedState
    ensures { result ≡ high_class own global port }
{
    let d0 = ComparisonDataset::from_own_data(own);
    match compare_d0_best(d0, global) {
        MessageComparison::Better | MessageComparison::Same => RecommendedState::M2(own),
        MessageComparison::Worse(best) => match port {
            None => RecommendedState::M3(best.message),
            Some(ours) => compare_global_and_port(best, ours),
        },
    }
}

// Ebest ranks above our own data, and the port has an Erbest.
#[tactic(auto, unfolding(crate::specs::State::global_and_port))]
fn compare_global_and_port(
    global: BestAnnounceMessage,
    port: BestAnnounceMessage,
) -> RecommendedState
    ensures { result ≡ global_and_port global port }
{
    if same_best(global, port) {
        return RecommendedState::S1(global.message);
    }
    let ebest = ComparisonDataset::from_announce_message(global.message, global.identity);
    let erbest = ComparisonDataset::from_announce_message(port.message, port.identity);
    if ebest.compare(erbest).by_topology() {
        return RecommendedState::P2(port.message);
    }
    RecommendedState::M3(global.message)
}
