// Fresh starts, and every word that they leave.
use crate::sent;
use refused::Refusal;
use vectors::framing;
use words::word;

// What a fresh start is given: how many ports, a rule with its list, the interval of one port and that of the others.
#[derive(Clone, Copy)]
pub struct Setup {
    pub ports: u64,
    pub rule: u8,
    pub place: u64,
    pub interval: u64,
    pub others: u64,
}

// The interval of a port, which counts from 1.
fn interval(setup: Setup, port: u64) -> u64 {
    if port == setup.place {
        setup.interval
    } else {
        setup.others
    }
}

fn intervals(setup: Setup) -> [u64; 16] {
    std::array::from_fn(|q| interval(setup, q as u64 + 1))
}

// The clock at a place of the list.
fn listed(rule: u8, i: usize) -> u64 {
    sent::clock(sent::listed_letter(rule, i))
}

fn clocks(rule: u8) -> [u64; 32] {
    std::array::from_fn(|i| listed(rule, i))
}

pub fn start(store: &mut [u64], setup: Setup) -> Result<(), Refusal> {
    let clocks = clocks(setup.rule);
    let intervals = intervals(setup);
    let listed = framing::first(&clocks, sent::listed(setup.rule));
    let times = framing::first(&intervals, (setup.ports % 16) as usize);
    foreign_master::fresh_start(store, sent::OWN, sent::is_any(setup.rule), listed, times)
}

// The words of a fresh book: the head, then in each port its interval alone.

fn head_word(setup: Setup, i: usize) -> u64 {
    let length = sent::listed(setup.rule);
    match i {
        0 => setup.ports,
        1 => sent::OWN,
        2 => u64::from(!sent::is_any(setup.rule)),
        3 => length as u64,
        _ if i - 4 < length => listed(setup.rule, i - 4),
        _ => 0,
    }
}

fn book_word(setup: Setup, i: usize) -> u64 {
    if i < 20 {
        return head_word(setup, i);
    }
    let q = ((i - 20) / 820) as u64;
    if (i - 20) % 820 == 0 && q < setup.ports {
        interval(setup, q + 1)
    } else {
        0
    }
}

// Whether a store holds a fresh book, and past it what lay there before.
fn is_fresh(store: &[u64], before: &[u64], setup: Setup) -> bool {
    store.iter().enumerate().all(|(i, x)| {
        *x == if i < words::BOOK {
            book_word(setup, i)
        } else {
            word(before, i)
        }
    })
}

// Whether a fresh start has this answer, and leaves the words that belong to it.
pub fn right(store: &mut [u64], before: &[u64], setup: Setup, answer: Result<(), Refusal>) -> bool {
    start(store, setup) == answer
        && match answer {
            Ok(()) => is_fresh(store, before, setup),
            Err(_) => &*store == before,
        }
}
