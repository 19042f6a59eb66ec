// The circle of a, b and c: a of X, priority 1 of 1, steps 3; b of Y, priority 1 of 2; c of X, priority 1 of 3, steps 1.
use crate::sides;
use choice::{BestAnnounceMessage, Candidate};
use compare::DatasetOrdering;

fn made(priority: u8, grandmaster: u64, steps: u16, port: u16, place: u64) -> Candidate {
    Candidate {
        gm_priority_1: priority,
        clock_class: 6,
        clock_accuracy: 0x21,
        gm_priority_2: 128,
        offset_scaled_log_variance: 0x4E5D,
        steps_removed: steps,
        receiver_port: port,
        gm_identity: grandmaster,
        sender: 0x0004_8BFF_FE00_0020 + priority as u64,
        receiver_clock: 0x0080_63FF_FE00_000A,
        age: 1000,
        place,
    }
}

// By its letter. Port 1 received a, port 2 the others.
fn of(letter: u8) -> Candidate {
    match letter {
        b'a' => made(1, 0x0019_0FFF_FE00_0001, 3, 1, 11),
        b'b' => made(2, 0x000E_CFFF_FE00_0002, 1, 2, 22),
        _ => made(3, 0x0019_0FFF_FE00_0001, 1, 2, 33),
    }
}

// A list that begins with these.
pub fn three(x: Candidate, y: Candidate, z: Candidate) -> [Candidate; 96] {
    let mut list = [x; 96];
    list[1] = y;
    list[2] = z;
    list
}

// Whether the first n of a list give this record.
pub fn gives(list: [Candidate; 96], n: usize, want: Candidate) -> bool {
    find_best::best_of(list, n).is_some_and(|c| sides::same(c, want))
}

// Left, right, and B or W as the verdict.
const VERDICTS: [[u8; 3]; 6] = [*b"caB", *b"abB", *b"bcB", *b"acW", *b"baW", *b"cbW"];

fn beats(row: u64) -> bool {
    let [left, right, verdict] = VERDICTS[(row % 6) as usize];
    let want = if verdict == b'B' {
        DatasetOrdering::Better
    } else {
        DatasetOrdering::Worse
    };
    sides::verdict(of(left), of(right), want)
}

// Three in their order, how many are looked at, and the one chosen: port 1 by itself, port 2 by itself, the winners of both, and
// all at once; then each other order.
const CHOSEN: [[u8; 5]; 9] = [
    *b"acb1a", *b"cba2b", *b"abc2a", *b"acb3b", *b"abc3c", *b"bac3c", *b"bca3a", *b"cab3b",
    *b"cba3a",
];

fn chosen(row: u64) -> bool {
    let [x, y, z, count, want] = CHOSEN[(row % 9) as usize];
    gives(three(of(x), of(y), of(z)), (count % 16) as usize, of(want))
}

// The messages of ports 1 to 3, and Ebest.
const EBESTS: [[u8; 4]; 11] = [
    *b"ab.a", *b"ba.a", *b"ac.c", *b"cb.b", *b"ca.c", *b"acbb", *b"abcc", *b"bacc", *b"bcaa",
    *b"cabb", *b"cbaa",
];

fn offered(letter: u8) -> Option<BestAnnounceMessage> {
    if letter == b'.' {
        None
    } else {
        Some(sides::record(of(letter)))
    }
}

fn found(x: u8, y: u8, z: u8) -> Option<BestAnnounceMessage> {
    let mut erbests = [None; 8];
    erbests[0] = offered(x);
    erbests[1] = offered(y);
    erbests[2] = offered(z);
    states::ebest(erbests)
}

fn ebest(row: u64) -> bool {
    let [x, y, z, letter] = EBESTS[(row % 11) as usize];
    let want = of(letter);
    found(x, y, z).is_some_and(|b| sides::same(b.candidate(want.place), want))
}

pub fn one(n: u64) -> bool {
    match n {
        0..=5 => beats(n),
        6..=14 => chosen(n - 6),
        _ => ebest(n - 15),
    }
}
