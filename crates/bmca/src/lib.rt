// The decision over a lent store, after bmc/bmca.rs: each port's Erbest, Ebest, a recommended state a port, and what is consumed. `decide`
// asks nothing of what it is lent; a refusal changes no word.
#![tactic(auto)]

ghost use Rattle.std.specs.Prelude.{◌≡◌, true, ◌+◌, ◌<◌, ◌≤◌, length, get_or};
ghost use Rattle.recommend.specs.Number.{shown, carrying_best};
ghost use Rattle.history.specs.Rules.{ports_max};
ghost use Rattle.book.specs.Layout.{store_words, identity};
ghost use Rattle.book.specs.Rules.{sound_words, store_refusal};
ghost use Rattle.refused.specs.Refusal.{number_in};
ghost use Rattle.bmca.specs.Decide.{
  blanks,
  consuming_of,
  decided_store,
  gone_store,
  erbest_at,
  decide_answer,
  decide_exit,
};
ghost use Rattle.bmca.specs.Plan.{
  winner_at,
  winners_of,
  ebest_in,
  erbest_from,
  receiver_in,
  source_of,
  numbers_of,
  plan_of,
  Planned,
  state_in,
  answer_in,
  answers_in,
};

use announce::ClockQuality;
use choice::{BestAnnounceMessage, Candidate};
use compare::InternalDefaultDS;
use decision::RecommendedState;
use foreign_master::Tallies;
use header::PortIdentity;
use refused::Refusal;
use states::PortAnswer;

// What is decided: an answer for each port, port 1 first, and the tallies. Answers past the count of ports are blank.
#[derive(Clone, Copy)]
pub struct Decision {
    pub ports: usize,
    pub answers: [PortAnswer; 8],
    pub tallies: Tallies,
}

// What is decided over a store, before a message is loaded: the count of ports, the port that received Ebest, 0 where there is none, the
// place of each port's winner, and the number of each port's state; 0 past the count.
#[derive(Clone, Copy)]
pub struct Plan {
    pub ports: usize,
    pub best: usize,
    pub winners: [usize; 8],
    pub numbers: [u8; 8],
}

// The place of port q's winner.
fn winner_at(store: &[u64], q: usize) -> usize
    requires { (store_words ≤ length store.now) × (sound_words store.now ≡ true) × (q < get_or store.now 0 0) }
    ensures { result ≡ winner_at store.now q }
{
    let at = book::HEAD_WORDS + q * book::PORT_WORDS;
    erbest::port_winner(&store[at..at + book::PORT_WORDS])
}

// The winners of all ports.
fn winners_of(store: &[u64]) -> [usize; 8]
    requires { (store_words ≤ length store.now) × (sound_words store.now ≡ true) }
    ensures { result ≡ winners_of store.now }
{
    let count = store[0] as usize;
    let mut winners = [0; 8];
    for q in 0..count {
        winners[q] = winner_at(store, q);
    }
    winners
}

// Port q as the receiver of what it holds.
fn receiver_at(store: &[u64], q: usize) -> PortIdentity
    requires { (store_words ≤ length store.now) × (q < ports_max) }
    ensures { result ≡ identity (get_or store.now 1 0) (1 + q) }
{
    let own = store[1];
    let number = q as u16 + 1;
    PortIdentity {
        clock_identity: own,
        port_number: number,
    }
}

// The candidate of port q's Erbest, by the place of its winner.
fn candidate_at(store: &[u64], q: usize, winner: usize) -> Option<Candidate>
    requires store_words_in_bounds { (store_words ≤ length store.now) × (sound_words store.now ≡ true) × (q < get_or store.now 0 0) }
    requires winner_value { winner ≡ winner_at store.now q }
    ensures { result ≡ shown (erbest_at store.now q) }
{
    let at = book::HEAD_WORDS + q * book::PORT_WORDS;
    let count = store[at + 1] as usize;
    if count <= winner {
        return None;
    }
    let receiver = receiver_at(store, q);
    let best = offers::best_at(&store[at..at + book::PORT_WORDS], winner, receiver);
    Some(best.candidate(0))
}

// Ebest: the choice among the Erbests, port 1 first.
fn ebest_of(store: &[u64], winners: [usize; 8]) -> Option<Candidate>
    requires { (store_words ≤ length store.now) × (sound_words store.now ≡ true) × (winners ≡ winners_of store.now) }
    ensures { result ≡ shown (ebest_in store.now) }
{
    let count = store[0] as usize;
    let mut held = None;
    for q in 0..count {
        let next = candidate_at(store, q, winners[q]);
        held = recommend::keep(held, next);
    }
    held
}

// The port that received it, 0 where there is none.
fn receiver_of(best: Option<Candidate>) -> usize
    ensures { result ≡ receiver_in best }
{
    match best {
        None => 0,
        Some(b) => b.receiver_port as usize,
    }
}

// The numbers of all ports' states; bit k - 1 of the byte is set if port k listens.
fn numbers_of(
    store: &[u64],
    winners: [usize; 8],
    own: InternalDefaultDS,
    global: Option<Candidate>,
    listening: u8,
) -> [u8; 8]
    requires store_words_in_bounds { (store_words ≤ length store.now) × (sound_words store.now ≡ true) × (winners ≡ winners_of store.now) }
    requires global_value { global ≡ shown (ebest_in store.now) }
    ensures { result ≡ numbers_of store.now own listening }
{
    let count = store[0] as usize;
    let mut numbers = [0; 8];
    let mut bits = listening;
    for q in 0..count {
        let port = candidate_at(store, q, winners[q]);
        numbers[q] = recommend::number(own, global, port, bits % 2 == 1);
        bits /= 2;
    }
    numbers
}

// The plan of a sound store.
pub fn plan_of(store: &[u64], own: InternalDefaultDS, listening: u8) -> Plan
    requires { (store_words ≤ length store.now) × (sound_words store.now ≡ true) }
    ensures { result ≡ plan_of store.now own listening }
{
    let winners = winners_of(store);
    let global = ebest_of(store, winners);
    let numbers = numbers_of(store, winners, own, global, listening);
    Plan {
        ports: store[0] as usize,
        best: receiver_of(global),
        winners,
        numbers,
    }
}

// Port q's Erbest, by the place of its winner.
fn erbest_at(store: &[u64], q: usize, winner: usize) -> Option<BestAnnounceMessage>
    requires store_words_in_bounds { (store_words ≤ length store.now) × (sound_words store.now ≡ true) × (q < get_or store.now 0 0) }
    requires winner_value { winner ≡ winner_at store.now q }
    ensures { result ≡ erbest_at store.now q }
{
    let receiver = receiver_at(store, q);
    let at = book::HEAD_WORDS + q * book::PORT_WORDS;
    erbest::erbest(&store[at..at + book::PORT_WORDS], winner, receiver)
}

// A state that carries the Erbest of a port, by the numbers of both; port 0 is none.
fn carried_at(store: &[u64], winners: [usize; 8], number: u8, port: usize) -> RecommendedState
    requires { (store_words ≤ length store.now) × (sound_words store.now ≡ true) × (winners ≡ winners_of store.now) × (port ≤ get_or store.now 0 0) }
    ensures { result ≡ carrying_best number (erbest_from store.now port) }
{
    if port == 0 {
        return RecommendedState::Stay;
    }
    let q = port - 1;
    match erbest_at(store, q, winners[q]) {
        None => RecommendedState::Stay,
        Some(b) => recommend::carrying(number, b.message),
    }
}

// The port whose Erbest the state of this number carries: port q itself, or the one that received Ebest.
fn source(number: u8, best: usize, q: usize) -> usize
    requires { q < ports_max }
    ensures { result ≡ source_of number best q }
{
    if recommend::of_port(number) {
        q + 1
    } else {
        best
    }
}

// The state of port q by its number: at most one message is loaded.
fn state_at(store: &[u64], plan: Plan, own: InternalDefaultDS, q: usize) -> RecommendedState
    requires { (store_words ≤ length store.now) × (sound_words store.now ≡ true) × (q < get_or store.now 0 0) × Planned store.now plan }
    ensures { result ≡ state_in store.now own plan q }
{
    match plan.numbers[q] {
        0 => RecommendedState::Stay,
        1 => RecommendedState::M1(own),
        2 => RecommendedState::M2(own),
        number => carried_at(store, plan.winners, number, source(number, plan.best, q)),
    }
}

// The answer of port q by the plan of the store.
pub fn answer_at(store: &[u64], plan: Plan, own: InternalDefaultDS, q: usize) -> PortAnswer
    requires { (store_words ≤ length store.now) × (sound_words store.now ≡ true) × (q < get_or store.now 0 0) × Planned store.now plan }
    ensures { result ≡ answer_in store.now own plan q }
{
    PortAnswer {
        port_number: q as u16 + 1,
        state: state_at(store, plan, own, q),
    }
}

// Answers of no port.
fn blank_answers() -> [PortAnswer; 8]
    ensures { result ≡ blanks }
{
    let blank = PortAnswer {
        port_number: 0,
        state: RecommendedState::Stay,
    };
    [blank; 8]
}

// The tallies of a decision.
fn consuming(consumed: u64) -> Tallies
    ensures { result ≡ consuming_of consumed }
{
    Tallies {
        evicted: 0,
        aged_out: 0,
        consumed,
    }
}

// The answers of all ports by the plan of the store, the others blank.
fn answers_of(store: &[u64], plan: Plan, own: InternalDefaultDS) -> [PortAnswer; 8]
    requires { (store_words ≤ length store.now) × (sound_words store.now ≡ true) × Planned store.now plan }
    ensures { result ≡ answers_in store.now own plan }
{
    let count = store[0] as usize;
    let mut answers = blank_answers();
    for i in 0..count {
        answers[i] = answer_at(store, plan, own, i);
    }
    answers
}

// Every port's winner keeps its list, every other offered message is consumed; and how many go.
pub fn consume(store: &mut [u64], winners: [usize; 8]) -> u64
    requires { (store_words ≤ length store.old) × (sound_words store.old ≡ true) × (winners ≡ winners_of store.old) }
    ensures { (store.new ≡ decided_store store.old) × (result ≡ gone_store store.old) }
{
    let count = store[0] as usize;
    let mut gone = 0;
    for q in 0..count {
        let at = book::HEAD_WORDS + q * book::PORT_WORDS;
        gone += consumption::consume_port(&mut store[at..at + book::PORT_WORDS], winners[q]);
    }
    gone
}

// Decides for all ports, on a store whose check has answered.
pub fn decide_checked(
    store: &mut [u64],
    checked: Result<(), Refusal>,
    priority_1: u8,
    quality: ClockQuality,
    priority_2: u8,
    listening: u8,
) -> Result<Decision, Refusal>
    requires { number_in checked ≡ store_refusal store.old }
    ensures value { result ≡ decide_answer store.old priority_1 quality priority_2 listening }
    ensures store_after { store.new ≡ decide_exit store.old }
{
    checked?;
    let own = InternalDefaultDS {
        clock_identity: store[1],
        clock_quality: quality,
        priority_1: priority_1,
        priority_2: priority_2,
    };
    let plan = plan_of(store, own, listening);
    let answers = answers_of(store, plan, own);
    let consumed = consume(store, plan.winners);
    Ok(Decision {
        ports: plan.ports,
        answers,
        tallies: consuming(consumed),
    })
}

// Decides for all ports by our priorities and quality and a byte, bit k - 1 set if port k listens, bits above the count ignored. The
// store is checked first.
pub fn decide(
    store: &mut [u64],
    priority_1: u8,
    quality: ClockQuality,
    priority_2: u8,
    listening: u8,
) -> Result<Decision, Refusal>
    ensures value { result ≡ decide_answer store.old priority_1 quality priority_2 listening }
    ensures store_after { store.new ≡ decide_exit store.old }
{
    let checked = book::check(store);
    decide_checked(store, checked, priority_1, quality, priority_2, listening)
}
