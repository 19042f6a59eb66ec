// Cases of one grandmaster.
use crate::sides;
use crate::sides::Case;
use choice::Candidate;
use compare::DatasetOrdering;
use std::cmp::Ordering;

// Ten by ten steps, three by three receivers, three pairs of ports, two kinds of clocks and two of qualities; then those written
// out.
pub const CASES: u64 = 10816;

const TABLED: u64 = 10800;

const STEPS: [u16; 10] = [0, 1, 2, 3, 4, 5, 6, 65533, 65534, 65535];

// How each of these stands to each: as many, n one nearer, f one farther, B nearer by more, W farther by more.
const STAND: [[u8; 10]; 10] = [
    *b"=nBBBBBBBB",
    *b"f=nBBBBBBB",
    *b"Wf=nBBBBBB",
    *b"WWf=nBBBBB",
    *b"WWWf=nBBBB",
    *b"WWWWf=nBBB",
    *b"WWWWWf=BBB",
    *b"WWWWWWW=nB",
    *b"WWWWWWWf=n",
    *b"WWWWWWWWf=",
];

// A receiver below, equal to and above its sender: one receiver with three senders, whose low halves run the other way, or one
// sender with three receivers.
const SENDERS: [u64; 3] = [
    0x7C2E_0DFF_FE00_0001,
    0x0080_63FF_FE00_000A,
    0x0001_05FF_FEFF_FFFF,
];

const RECEIVERS: [u64; 3] = [
    0x0080_63FF_FE00_0009,
    0x0080_63FF_FE00_000A,
    0x0080_63FF_FE00_000B,
];

const CLOCK: u64 = 0x0080_63FF_FE00_000A;

// The receiver of the farther one decides, here that of the left side.
fn farther(receiver: u64) -> DatasetOrdering {
    match receiver {
        0 => DatasetOrdering::Worse,
        1 => DatasetOrdering::Error1,
        _ => DatasetOrdering::WorseByTopology,
    }
}

// Ports 1 and 2, 257 and 2, 257 twice.
fn by_port(ports: u64) -> DatasetOrdering {
    match ports {
        0 => DatasetOrdering::BetterByTopology,
        1 => DatasetOrdering::WorseByTopology,
        _ => DatasetOrdering::Error2,
    }
}

// As many steps, and senders by the places of the receivers: the last of the three senders is the lowest.
fn by_senders(left: u64, right: u64, ports: u64) -> DatasetOrdering {
    match (left % 3).cmp(&(right % 3)) {
        Ordering::Less => DatasetOrdering::WorseByTopology,
        Ordering::Greater => DatasetOrdering::BetterByTopology,
        Ordering::Equal => by_port(ports),
    }
}

fn level(left: u64, right: u64, ports: u64, clocks: u64) -> DatasetOrdering {
    if clocks == 0 {
        return by_senders(left, right, ports);
    }
    by_port(ports)
}

fn wanted(stand: u8, left: u64, right: u64, ports: u64, clocks: u64) -> DatasetOrdering {
    match stand {
        b'B' => DatasetOrdering::Better,
        b'W' => DatasetOrdering::Worse,
        b'n' => sides::mirror(farther(right)),
        b'f' => farther(left),
        _ => level(left, right, ports, clocks),
    }
}

// A candidate with all qualities of one value.
fn side(steps: u16, sender: u64, clock: u64, port: u16, quality: u8) -> Candidate {
    Candidate {
        gm_priority_1: quality,
        clock_class: quality,
        clock_accuracy: quality,
        gm_priority_2: quality,
        offset_scaled_log_variance: quality as u16,
        steps_removed: steps,
        receiver_port: port,
        gm_identity: 0x001B_19FF_FE12_3456,
        sender,
        receiver_clock: clock,
        age: 5,
        place: 0,
    }
}

fn stood(steps: u16, receiver: u64, clocks: u64, port: u16, quality: u8) -> Candidate {
    let i = (receiver % 3) as usize;
    if clocks == 0 {
        return side(steps, SENDERS[i], CLOCK, port, quality);
    }
    side(steps, CLOCK, RECEIVERS[i], port, quality)
}

fn port_of(ports: u64, right: bool) -> u16 {
    match (ports % 3, right) {
        (0, false) => 1,
        (0, true) | (1, true) => 2,
        _ => 257,
    }
}

// The case of a number.
fn case(n: u64) -> Case {
    let i = (n / 10 % 10) as usize;
    let j = (n % 10) as usize;
    let left = n / 100 % 3;
    let right = n / 300 % 3;
    let ports = n / 900 % 3;
    let clocks = n / 2700 % 2;
    let (here, there) = if n / 5400 % 2 == 0 {
        (6, 248)
    } else {
        (248, 6)
    };
    Case {
        left: stood(STEPS[i], left, clocks, port_of(ports, false), here),
        right: stood(STEPS[j], right, clocks, port_of(ports, true), there),
        want: wanted(STAND[i][j], left, right, ports, clocks),
    }
}

// Sender equal to receiver, and of as many steps.
fn near(left: u16, right: u16, want: DatasetOrdering) -> Case {
    Case {
        left: side(left, CLOCK, CLOCK, 1, 128),
        right: side(right, CLOCK, CLOCK, 2, 6),
        want,
    }
}

// A message of our own clock as grandmaster, received by our port from a sender.
fn of_ours(steps: u16, sender: u64, port: u16, want: DatasetOrdering) -> Case {
    let mut left = side(0, CLOCK, CLOCK, 0, 248);
    let mut right = side(steps, sender, CLOCK, port, 6);
    left.gm_identity = CLOCK;
    right.gm_identity = CLOCK;
    Case { left, right, want }
}

// The lines of the paper, and our own data against messages that name us.
fn written(n: u64) -> Case {
    match n {
        0 => near(1, 2, DatasetOrdering::Error1),
        1 => near(2, 3, DatasetOrdering::Error1),
        2 => near(1, 3, DatasetOrdering::Better),
        3 => near(2, 1, DatasetOrdering::Error1),
        4 => near(3, 2, DatasetOrdering::Error1),
        5 => near(3, 1, DatasetOrdering::Worse),
        6 => near(254, 255, DatasetOrdering::Error1),
        7 => near(254, 256, DatasetOrdering::Better),
        _ => written_own(n),
    }
}

fn written_own(n: u64) -> Case {
    match n {
        8 => of_ours(0, CLOCK, 0, DatasetOrdering::Error2),
        9 => of_ours(0, CLOCK, 1, DatasetOrdering::BetterByTopology),
        10 => of_ours(0, CLOCK + 1, 0, DatasetOrdering::BetterByTopology),
        11 => of_ours(0, CLOCK - 1, 1, DatasetOrdering::WorseByTopology),
        12 => of_ours(1, CLOCK, 1, DatasetOrdering::Error1),
        13 => of_ours(1, CLOCK + 1, 1, DatasetOrdering::Better),
        14 => of_ours(1, CLOCK - 1, 1, DatasetOrdering::BetterByTopology),
        _ => of_ours(2, CLOCK - 1, 1, DatasetOrdering::Better),
    }
}

// A case by its number: as candidates and messages, and by our own data in the last of those written out.
fn check<F: Fn(Case) -> bool, G: Fn(Case) -> bool>(n: u64, is: F, is_own: G) -> bool
    requires messages { F.IsAlwaysCallable is }
    requires own { G.IsAlwaysCallable is_own }
{
    if n < TABLED {
        return is(case(n));
    }
    let c = written(n - TABLED);
    is(c) && (n < TABLED + 8 || is_own(c))
}

pub fn direct(n: u64) -> bool {
    check(n, sides::direct, sides::direct_own)
}

pub fn swapped(n: u64) -> bool {
    check(n, sides::swapped, sides::swapped_own)
}
