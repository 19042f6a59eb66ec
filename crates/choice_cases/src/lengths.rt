// Cases of how many of a list are looked at, and of the winner's place.
use crate::circle;
use choice::Candidate;

fn made(priority: u8, age: u64, place: u64) -> Candidate {
    Candidate {
        gm_priority_1: priority,
        clock_class: 7,
        clock_accuracy: 0x22,
        gm_priority_2: 127,
        offset_scaled_log_variance: 0x436A,
        steps_removed: 4,
        receiver_port: 6,
        gm_identity: 0x0019_0FFF_FE00_0001,
        sender: 0x000E_CFFF_FE00_0003,
        receiver_clock: 0x0080_63FF_FE00_000A,
        age,
        place,
    }
}

// The record of a place in the list.
fn ordinary(i: u64) -> Candidate {
    made(128, 1000, 5000 + i % 96)
}

fn winner() -> Candidate {
    let mut c = made(127, 2000, 77);
    c.gm_identity = 0x0019_0FFF_FE00_0009;
    c
}

// The list, with the winner at a place.
fn listed(at: u64) -> [Candidate; 96] {
    std::array::from_fn(|i| {
        if i as u64 == at {
            winner()
        } else {
            ordinary(i as u64)
        }
    })
}

const COUNTS: [usize; 7] = [0, 1, 2, 95, 96, 97, usize::MAX];

const PLACES: [u64; 5] = [0, 1, 47, 94, 95];

// The place chosen for each count and each place of the winner: w the winner, else the last looked at; none of no record.
const CHOSEN: [[u8; 5]; 7] = [
    *b"-----", *b"w0000", *b"ww111", *b"wwww4", *b"wwwww", *b"wwwww", *b"wwwww",
];

pub fn one(n: u64) -> bool {
    let i = (n / 5 % 7) as usize;
    let j = (n % 5) as usize;
    let list = listed(PLACES[j]);
    let count = COUNTS[i];
    match CHOSEN[i][j] {
        b'-' => find_best::best_of(list, count).is_none(),
        b'w' => circle::gives(list, count, winner()),
        b'0' => circle::gives(list, count, ordinary(0)),
        b'1' => circle::gives(list, count, ordinary(1)),
        _ => circle::gives(list, count, ordinary(94)),
    }
}
