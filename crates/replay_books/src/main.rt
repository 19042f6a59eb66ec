// Answers each line of the input, a fresh start, a frame, a step of age, the wish to see the book or a decision, in hexadecimal digits: the
// lines of the oracle's subcommand books.
#![tactic(auto)]

mod at_once;
mod decided;
mod told;

ghost use Rattle.std.specs.Prelude.{◌≡◌, ◌<◌, ◌≤◌, length};

use announce::ClockQuality;
use book::STORE_WORDS;
use foreign_master::Tallies;
use refused::Refusal;

// The longest lists that a line has room for.
const MAX_WORDS: usize = 256;

// Our clock, the rule and the length of its list, with which a fresh start begins.
const START_SIZE: usize = 10;

// Priority 1, quality and priority 2 of our clock, and the ports that listen.
const DECISION_SIZE: usize = 7;

// A number of eight bytes in a part of a line, 0 where it has none.
fn word_at(s: &[u8], i: usize) -> u64
    requires { i < 256 }
{
    if i * 8 + 8 <= s.len() {
        wire::u64_at(s, i * 8)
    } else {
        0
    }
}

// The numbers that a part of a line is made of.
fn words_of(s: &[u8]) -> [u64; 256]
    ensures { 256 ≡ length result }
{
    std::array::from_fn(|i| word_at(s, i))
}

// Starts afresh with the lists of a line. None is longer than there is room for.
fn start(
    store: &mut [u64],
    own: u64,
    any: bool,
    listed: &[u8],
    intervals: &[u8],
) -> Result<(), Refusal> {
    let clocks = words_of(listed);
    let times = words_of(intervals);
    match (
        clocks.get(..listed.len() / 8),
        times.get(..intervals.len() / 8),
    ) {
        (Some(listed), Some(intervals)) => {
            foreign_master::fresh_start(store, own, any, listed, intervals)
        }
        _ => Err(Refusal::OutOfRange),
    }
}

// Where the list ends that has so many clocks.
fn list_end(count: u8) -> usize
    ensures { 10 ≤ result }
{
    START_SIZE + count as usize * 8
}

// A fresh start. Here and below, the answer is whether the line has the right shape; if not, nothing is written.
fn answer_start(store: &mut [u64], s: &[u8]) -> bool
    requires { 6580 ≤ length store.old }
{
    if s.len() < START_SIZE || 1 < s[8] {
        return false;
    }
    let end = list_end(s[9]);
    if s.len() < end || s.len() % 8 != START_SIZE % 8 {
        return false;
    }
    let own = wire::u64_at(s, 0);
    let any = s[8] == 0;
    match start(store, own, any, &s[START_SIZE..end], &s[end..]) {
        Ok(()) => {
            replay::print_first(0);
            told::print_book(store, false);
        }
        Err(why) => replay::print_first(why.number()),
    }
    true
}

// Writes that the crate's answer to a frame is yes, or no, and how many messages were put out.
fn print_heard(yes: bool, t: Tallies) {
    replay::print_first(0);
    replay::print_flag(yes);
    replay::print(t.evicted, 1);
    told::print_others(t.aged_out, t.consumed);
}

fn nothing() -> Tallies {
    Tallies {
        evicted: 0,
        aged_out: 0,
        consumed: 0,
    }
}

// Writes the start of the answer to a frame; whether the book follows. The crate's yes covers done and 9 to 12, its no 7 and 8.
fn print_answer(answer: Result<Tallies, Refusal>) -> bool {
    match answer {
        Ok(t) => print_heard(true, t),
        Err(Refusal::OwnPort | Refusal::NotAcceptable) => print_heard(false, nothing()),
        Err(Refusal::OwnClock | Refusal::Sequence | Refusal::Steps | Refusal::NinthMaster) => {
            print_heard(true, nothing());
        }
        Err(why) => {
            replay::print_first(why.number());
            return false;
        }
    }
    true
}

// A frame at a port.
fn answer_frame(store: &mut [u64], s: &[u8]) -> bool
    requires { 6580 ≤ length store.old }
{
    let Some((port, frame)) = s.split_first() else {
        return false;
    };
    if print_answer(foreign_master::register_announce_message(store, u16::from(*port), frame)) {
        told::print_book(store, false);
    }
    true
}

// Writes how many messages aged out; whether the book follows.
fn print_aged(answer: Result<Tallies, Refusal>) -> bool {
    match answer {
        Ok(t) => {
            replay::print_first(0);
            replay::print(t.aged_out, 1);
            told::print_others(t.evicted, t.consumed);
            true
        }
        Err(why) => {
            replay::print_first(why.number());
            false
        }
    }
}

// A step of age.
fn answer_step(store: &mut [u64], s: &[u8]) -> bool
    requires { 6580 ≤ length store.old }
{
    if s.len() != 8 {
        return false;
    }
    if print_aged(foreign_master::step_age(store, wire::u64_at(s, 0))) {
        told::print_book(store, false);
    }
    true
}

// The book in full.
fn answer_wish(store: &[u64], s: &[u8]) -> bool
    requires { 6580 ≤ length store.now }
{
    if !s.is_empty() {
        return false;
    }
    told::print_book(store, true);
    true
}

// A decision.
fn answer_decision(store: &mut [u64], s: &[u8]) -> bool
    requires { 6580 ≤ length store.old }
{
    if s.len() != DECISION_SIZE {
        return false;
    }
    let quality = ClockQuality {
        clock_class: s[1],
        clock_accuracy: s[2],
        offset_scaled_log_variance: wire::u16_at(s, 3),
    };
    let choice = at_once::choose(store);
    let decision = bmca::decide(store, s[0], quality, s[5], s[6]);
    if decided::print_decision(choice, decision) {
        told::print_book(store, false);
    }
    true
}

// Answers a line by what its first byte asks.
fn answer_line(store: &mut [u64], line: &[u8]) -> bool
    requires { 6580 ≤ length store.old }
{
    let Some((kind, rest)) = line.split_first() else {
        return false;
    };
    match kind {
        0 => answer_start(store, rest),
        1 => answer_frame(store, rest),
        2 => answer_step(store, rest),
        3 => answer_wish(store, rest),
        4 => answer_decision(store, rest),
        _ => false,
    }
}

fn main(rt: HostRuntime) {
    let mut store = [0u64; STORE_WORDS];
    replay_lines::run(rt.stdin(), |line| answer_line(&mut store, line));
}
