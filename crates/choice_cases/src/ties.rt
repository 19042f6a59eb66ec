// Cases of a tie: the younger is chosen, and the last of those that are as old.
use crate::circle;
use choice::Candidate;
use std::cmp::Ordering;

const AGES: [u64; 4] = [0, 1, 0x3FFF_FFFF_FFFF_FFFF, 0xFFFF_FFFF_FFFF_FFFF];

// How the one held stands to the next by these ages: s stays, = as old, n the next is chosen.
const STANDS: [[u8; 4]; 4] = [*b"=sss", *b"n=ss", *b"nn=s", *b"nnn="];

const CLOCK: u64 = 0x0080_63FF_FE00_000A;

fn made(steps: u16, sender: u64, age: u64, place: u64) -> Candidate {
    Candidate {
        gm_priority_1: 128,
        clock_class: 6,
        clock_accuracy: 0x21,
        gm_priority_2: 128,
        offset_scaled_log_variance: 0x4E5D,
        steps_removed: steps,
        receiver_port: 3,
        gm_identity: 0x0019_0FFF_FE00_0001,
        sender,
        receiver_clock: CLOCK,
        age,
        place,
    }
}

// The one held and the next: one record, two of Error1 with either nearer, the better one held, the worse one held.
fn held(kind: u64, age: u64) -> Candidate {
    match kind {
        0 => made(2, 0x000E_CFFF_FE00_0002, age, 70),
        1 => made(1, CLOCK, age, 71),
        2 => made(2, CLOCK, age, 72),
        3 => made(2, 0x000E_CFFF_FE00_0001, age, 73),
        _ => made(2, 0x000E_CFFF_FE00_0003, age, 74),
    }
}

fn next(kind: u64, age: u64) -> Candidate {
    match kind {
        1 => made(2, CLOCK, age, 81),
        2 => made(1, CLOCK, age, 82),
        _ => made(2, 0x000E_CFFF_FE00_0002, age, 80),
    }
}

// How the one held stands to the next: by the age where the verdict is a tie, else by the verdict.
fn wanted(kind: u64, stand: u8) -> Ordering {
    match (kind, stand) {
        (3, _) => Ordering::Greater,
        (4, _) => Ordering::Less,
        (_, b's') => Ordering::Greater,
        (_, b'=') => Ordering::Equal,
        _ => Ordering::Less,
    }
}

// Whether x stands so to y, stays exactly where it is the greater, and is then the one chosen.
fn ranks(x: Candidate, y: Candidate, want: Ordering) -> bool {
    let stays = want.is_gt();
    let best = if stays { x } else { y };
    x.compare(y) == want && x.stays(y) == stays && circle::gives(circle::three(x, y, x), 2, best)
}

fn tabled(n: u64) -> bool {
    let kind = n / 16 % 5;
    let i = (n / 4 % 4) as usize;
    let j = (n % 4) as usize;
    ranks(
        held(kind, AGES[i]),
        next(kind, AGES[j]),
        wanted(kind, STANDS[i][j]),
    )
}

// Three records of one message by their ages: the one of this place, 1 to 3, is chosen.
fn three(x: u64, y: u64, z: u64, place: u64) -> bool {
    let mut want = made(2, CLOCK - 1, 0, place);
    want.age = match place {
        1 => x,
        2 => y,
        _ => z,
    };
    let list = circle::three(
        made(2, CLOCK - 1, x, 1),
        made(2, CLOCK - 1, y, 2),
        made(2, CLOCK - 1, z, 3),
    );
    circle::gives(list, 3, want)
}

// Three of Error1 with their neighbours by their steps, all as old: the one of this place is chosen.
fn steps(x: u16, y: u16, z: u16, place: u64) -> bool {
    let mut want = made(0, CLOCK, 9, place);
    want.steps_removed = match place {
        1 => x,
        2 => y,
        _ => z,
    };
    let list = circle::three(
        made(x, CLOCK, 9, 1),
        made(y, CLOCK, 9, 2),
        made(z, CLOCK, 9, 3),
    );
    circle::gives(list, 3, want)
}

// A list of 96 that are worse, but for a tie at places 40 and 41 by these ages.
fn middle(x: u64, y: u64, place: u64, age: u64) -> bool {
    let mut list = [made(4, CLOCK - 2, 0, 5); 96];
    list[40] = made(2, CLOCK - 1, x, 40);
    list[41] = made(2, CLOCK - 1, y, 41);
    circle::gives(list, 96, made(2, CLOCK - 1, age, place))
}

pub fn one(n: u64) -> bool {
    match n {
        80 => three(7, 7, 7, 3),
        81 => three(3, 1, 2, 2),
        82 => three(1, 1, 2, 2),
        83 => three(2, 3, 2, 3),
        84 => steps(1, 2, 3, 3),
        85 => steps(3, 2, 1, 3),
        86 => steps(1, 3, 2, 3),
        87 => middle(9, 9, 41, 9),
        88 => middle(8, 9, 40, 8),
        89 => middle(9, 8, 41, 8),
        _ => tabled(n),
    }
}
