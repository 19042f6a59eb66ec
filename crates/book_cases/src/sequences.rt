// Sequences and steps on both sides of their limits.
use book_vectors::starts::Setup;
use book_vectors::{calls, sent, starts};
use refused::Refusal;
use words::word;

// Seven last sequences, ten differences, of one message held and of a full ring that has wrapped.
pub const SEQUENCES: u64 = 140;

const LAST: [u64; 7] = [0, 1, 100, 32767, 32768, 65534, 65535];

const DIFFERENCES: [u64; 10] = [0, 1, 2, 16384, 32765, 32766, 32767, 32768, 65534, 65535];

// Taken, or refused 10.
const TAKEN: [u8; 10] = *b"ttttttrrrr";

// Twelve steps, of a master that is known and of one that is not.
pub const STEPS: u64 = 24;

const STEP: [u64; 12] = [0, 1, 127, 128, 253, 254, 255, 256, 510, 511, 65534, 65535];

// Taken, or refused 11.
const NEAR: [u8; 12] = *b"ttttttrrrrrr";

fn start(store: &mut [u64]) {
    let setup = Setup {
        ports: 2,
        rule: b'a',
        place: 1,
        interval: 100,
        others: 100,
    };
    let _ = starts::start(store, setup);
}

// So many messages of a sender, of which the last has this sequence.
fn hold(store: &mut [u64], last: u64, count: u64) {
    for k in 0..count {
        let sequence = (last % 65536 + 65536 * 2 - count % 65536 + 1 + k % 65536) % 65536;
        let _ = calls::register(store, sent::good(2, b'A', sequence, 0));
    }
}

// One message more, after so many of which the last has this sequence: its answer, and how many are held then. Of more than eight before it,
// it puts out one.
fn next(
    store: &mut [u64],
    last: u64,
    count: u64,
    sequence: u64,
    want: Result<(), Refusal>,
    held: u64,
) -> bool {
    start(store);
    hold(store, last, count);
    let answer = calls::register(store, sent::good(2, b'A', sequence, 0));
    calls::is(answer, want, u64::from(8 <= count), 0)
        && word(store, words::master_at(2, 0) + 3) == held
}

// A message with this difference to the last held, after one or after eleven.
fn differs(store: &mut [u64], last: u64, difference: u64, taken: bool, wrapped: bool) -> bool {
    let sequence = (last % 65536 + difference % 65536) % 65536;
    let want = if taken {
        Ok(())
    } else {
        Err(Refusal::Sequence)
    };
    if wrapped {
        next(store, last, 11, sequence, want, 8)
    } else {
        next(store, last, 1, sequence, want, 1 + u64::from(taken))
    }
}

pub fn sequence(n: u64) -> bool {
    let mut store = [0u64; words::STORE];
    let last = LAST[(n / 10 % 7) as usize];
    let i = (n % 10) as usize;
    let taken = TAKEN[i] == b't';
    differs(&mut store, last, DIFFERENCES[i], taken, n / 70 % 2 == 1)
}

// A message with these steps, of a master that is known or not.
fn far(store: &mut [u64], steps: u64, want: Result<(), Refusal>, known: bool) -> bool {
    start(store);
    hold(store, 6, u64::from(known));
    let answer = calls::register(store, sent::good(2, b'A', 7, steps));
    calls::is(answer, want, 0, 0)
}

pub fn steps(n: u64) -> bool {
    let mut store = [0u64; words::STORE];
    let i = (n % 12) as usize;
    let want = if NEAR[i] == b't' {
        Ok(())
    } else {
        Err(Refusal::Steps)
    };
    far(&mut store, STEP[i], want, n / 12 % 2 == 1)
}
