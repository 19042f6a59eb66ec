// Answers each line of the input, a comparison, a choice or a decision in hexadecimal digits: the lines of the oracle's subcommand
// decisions.
#![tactic(auto)]

mod records;
mod tokens;

ghost use Rattle.std.specs.Prelude.{◌*◌, ◌≤◌, length};

use choice::BestAnnounceMessage;
use compare::{ComparisonDataset, InternalDefaultDS};
use records::{CANDIDATE_SIZE, MAX_CANDIDATES, OWN_SIZE, SET_SIZE};

// The ports of a decision.
const PORTS: usize = 8;

// Two sets: the verdict on the first. Here and below, the answer is whether the line has the right shape; if not, nothing is written.
fn answer_comparison(s: &[u8]) -> bool {
    if s.len() != 2 * SET_SIZE {
        return false;
    }
    let first = records::set_at(s, 0);
    let second = records::set_at(s, SET_SIZE);
    tokens::print_verdict(first.compare(second));
    true
}

// Our own data and a set: the verdict on our own data.
fn answer_own(s: &[u8]) -> bool {
    if s.len() != OWN_SIZE + SET_SIZE {
        return false;
    }
    let own = ComparisonDataset::from_own_data(records::own_at(s, 0));
    tokens::print_verdict(own.compare(records::set_at(s, OWN_SIZE)));
    true
}

// Candidates: the best.
fn answer_choice(s: &[u8]) -> bool {
    let n = s.len() / CANDIDATE_SIZE;
    if MAX_CANDIDATES < n || n * CANDIDATE_SIZE != s.len() {
        return false;
    }
    tokens::print_best(find_best::best_of(records::candidates(s, 0, n), n));
    true
}

// Whether the ports of n candidates are 1 to 8 and do not fall.
fn in_order(s: &[u8], n: usize) -> bool
    requires { (n ≤ 48) × (n * 42 ≤ length s.now) }
{
    let mut least = 1;
    for place in 0..n {
        let port = records::port_at(s, place);
        if port < least || PORTS < usize::from(port) {
            return false;
        }
        least = port;
    }
    true
}

// Where the candidates of a port end that begin at a place.
fn end_of(s: &[u8], n: usize, first: usize, port: usize) -> usize
    requires { (n ≤ 48) × (n * 42 ≤ length s.now) × (first ≤ n) }
    ensures { (first ≤ result) × (result ≤ n) }
{
    for place in first..n {
        if usize::from(records::port_at(s, place)) != port {
            return place;
        }
    }
    n
}

// The best of the candidates at the places from first up to end. A place from end on, which the choice does not answer, would be none.
fn erbest(s: &[u8], first: usize, end: usize) -> Option<BestAnnounceMessage>
    requires { (end ≤ 48) × (end * 42 ≤ length s.now) × (first ≤ end) }
{
    let best = find_best::best_of(records::candidates(s, first, end), end - first)?;
    let place = best.place as usize;
    if place < end {
        Some(records::best_at(s, place))
    } else {
        None
    }
}

// The best of each port.
fn erbests(s: &[u8], n: usize) -> [Option<BestAnnounceMessage>; 8]
    requires { (n ≤ 48) × (n * 42 ≤ length s.now) }
{
    let mut list = [None; PORTS];
    let mut first = 0;
    for port in 0..PORTS {
        let end = end_of(s, n, first, port + 1);
        list[port] = erbest(s, first, end);
        first = end;
    }
    list
}

// Writes Ebest, and for each port its Erbest and its state.
fn print_states(own: InternalDefaultDS, listening: u8, erbests: [Option<BestAnnounceMessage>; 8]) {
    tokens::print_message(states::ebest(erbests));
    let answers = states::recommended_states(own, erbests, listening);
    for port in 0..PORTS {
        tokens::print_message(erbests[port]);
        tokens::print_answer(answers[port], port as u16 + 1);
    }
}

// A decision over n candidates.
fn answer_states(own: InternalDefaultDS, listening: u8, s: &[u8], n: usize)
    requires { (n ≤ 48) × (n * 42 ≤ length s.now) }
{
    tokens::print_best(find_best::best_of(records::candidates(s, 0, n), n));
    print_states(own, listening, erbests(s, n));
}

// Our own data, the ports that listen, and candidates: a decision.
fn answer_decision(s: &[u8]) -> bool {
    if s.len() <= OWN_SIZE {
        return false;
    }
    let own = records::own_at(s, 0);
    let listening = s[OWN_SIZE];
    let list = &s[OWN_SIZE + 1..];
    let n = list.len() / CANDIDATE_SIZE;
    if MAX_CANDIDATES < n || n * CANDIDATE_SIZE != list.len() || !in_order(list, n) {
        return false;
    }
    answer_states(own, listening, list, n);
    true
}

// Our own data, whether the port listens, Ebest and Erbest: the state of one port.
fn answer_state(s: &[u8]) -> bool {
    if s.len() <= OWN_SIZE || 1 < s[OWN_SIZE] {
        return false;
    }
    let own = records::own_at(s, 0);
    let listens = s[OWN_SIZE] == 1;
    let rest = &s[OWN_SIZE + 1..];
    let size = records::option_size(rest);
    match (
        records::option(&rest[..size]),
        records::option(&rest[size..]),
    ) {
        (Some(ebest), Some(erbest)) => {
            tokens::print_whole_state(decision::calculate_recommended_state(
                own, ebest, erbest, listens,
            ));
            true
        }
        _ => false,
    }
}

// Answers a line by what its first byte asks.
fn answer_line(line: &[u8]) -> bool {
    let Some((kind, rest)) = line.split_first() else {
        return false;
    };
    match kind {
        0 => answer_comparison(rest),
        1 => answer_own(rest),
        2 => answer_choice(rest),
        3 => answer_decision(rest),
        4 => answer_state(rest),
        _ => false,
    }
}

fn main(rt: HostRuntime) {
    replay_lines::run(rt.stdin(), answer_line);
}
