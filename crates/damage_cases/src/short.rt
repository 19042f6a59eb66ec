// Stores that are lent too short, and the order of 1, 16 and the rest.
use crate::decisions;
use book_vectors::sent::Sent;
use book_vectors::starts::Setup;
use book_vectors::{calls, full, sent, starts};
use refused::Refusal;
use vectors::framing;

// Ten lengths, eight calls, on a full book and on words that are no book.
pub const CASES: u64 = 160;

const LENGTHS: [usize; 10] = [0, 1, 4, 20, 840, 6579, 6580, 6581, 6599, 6600];

// A fresh start, one with nine ports; a good frame, a frame of no bytes at port 0; a step of 1, a step of 2^62; a decision, the first
// candidate. From 6,580 words on, on a full book and on none.
const FULL: [Result<(), Refusal>; 8] = [
    Ok(()),
    Err(Refusal::OutOfRange),
    Ok(()),
    Err(Refusal::NoPort),
    Ok(()),
    Err(Refusal::LongStep),
    Ok(()),
    Ok(()),
];

const NONE: [Result<(), Refusal>; 8] = [
    Ok(()),
    Err(Refusal::OutOfRange),
    Err(Refusal::Unsound),
    Err(Refusal::Unsound),
    Err(Refusal::Unsound),
    Err(Refusal::Unsound),
    Err(Refusal::Unsound),
    Err(Refusal::Unsound),
];

fn wanted(n: u64) -> Result<(), Refusal> {
    let call = (n % 8) as usize;
    if n / 8 % 10 < 6 {
        Err(Refusal::Short)
    } else if n / 80 % 2 == 0 {
        FULL[call]
    } else {
        NONE[call]
    }
}

// A frame of no bytes at port 0.
const EMPTY: Sent = Sent {
    port: 0,
    letter: b'A',
    kind: b'0',
    sequence: 5,
    steps: 0,
};

fn started(store: &mut [u64], ports: u64, want: Result<(), Refusal>) -> bool {
    let setup = Setup {
        ports,
        rule: b's',
        place: 1,
        interval: 1,
        others: 1,
    };
    starts::start(store, setup) == want
}

// A decision over a full book consumes a message of each master but the winner of its port.
fn decided(store: &mut [u64], want: Result<(), Refusal>) -> bool {
    decisions::decide(store) == want.map(|()| 56)
}

// A frame puts out the first message of a full ring, and a step of 1 all messages that are as old as can be.
fn called(store: &mut [u64], call: u64, want: Result<(), Refusal>) -> bool {
    match call {
        0 => started(store, 8, want),
        1 => started(store, 9, want),
        2 => calls::is(
            calls::register(store, sent::good(1, b'A', 5, 0)),
            want,
            1,
            0,
        ),
        3 => calls::is(calls::register(store, EMPTY), want, 0, 0),
        4 => calls::is(foreign_master::step_age(store, 1), want, 0, 216),
        5 => calls::is(
            foreign_master::step_age(store, 0x4000_0000_0000_0000),
            want,
            0,
            0,
        ),
        6 => decided(store, want),
        _ => decisions::offered(store) == want,
    }
}

// The call on the first words of a store.
fn lent(store: &mut [u64], size: usize, call: u64, want: Result<(), Refusal>) -> bool {
    called(framing::first_mut(store, size), call, want)
}

fn fill(store: &mut [u64], n: u64) {
    words::lay(store);
    if n / 80 % 2 == 0 {
        full::fill(store);
    }
}

// Whether the answer is right, a refusal changes no word, and no call a word past the book.
fn on(n: u64, store: &mut [u64], before: &mut [u64]) -> bool {
    let want = wanted(n);
    let size = LENGTHS[(n / 8 % 10) as usize];
    fill(store, n);
    words::copy(store, before);
    let changed = if want.is_ok() { words::BOOK } else { 0 };
    lent(store, size, n % 8, want) && words::same_but(store, before, 0, changed)
}

pub fn one(n: u64) -> bool {
    let mut store = [0u64; words::STORE];
    let mut before = [0u64; words::STORE];
    on(n, &mut store, &mut before)
}
