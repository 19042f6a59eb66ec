// Cases of the decision for one port.
use announce::{AnnounceMessage, ClockQuality};
use choice::BestAnnounceMessage;
use compare::InternalDefaultDS;
use decision::RecommendedState;
use header::{Header, PortIdentity, PtpVersion};
use vectors::frames;

// Five classes, listening or not, and four by four kinds of messages; then five classes, listening or not, and 40 changes.
pub const CASES: u64 = 560;

const KINDS: u64 = 160;

const CLASSES: [u8; 5] = [0, 1, 127, 128, 255];

const CLOCK: u64 = 0x0080_63FF_FE00_000A;

pub fn own(class: u8) -> InternalDefaultDS {
    let quality = ClockQuality {
        clock_class: class,
        clock_accuracy: 0xFE,
        offset_scaled_log_variance: 0xFFFF,
    };
    InternalDefaultDS {
        clock_identity: CLOCK,
        clock_quality: quality,
        priority_1: 128,
        priority_2: 127,
    }
}

fn same_own(a: InternalDefaultDS, b: InternalDefaultDS) -> bool {
    a.clock_identity == b.clock_identity
        && a.clock_quality == b.clock_quality
        && a.priority_1 == b.priority_1
        && a.priority_2 == b.priority_2
}

// A message of a grandmaster.
fn sent(priority: u8, grandmaster: u64, sender: u64, steps: u16, sequence: u16) -> AnnounceMessage {
    let mut h = frames::f_header(sequence);
    h.source_port_identity = PortIdentity {
        clock_identity: sender,
        port_number: 2,
    };
    let mut a = frames::f_content(h);
    a.grandmaster_priority_1 = priority;
    a.grandmaster_identity = grandmaster;
    a.steps_removed = steps;
    a
}

pub fn received(a: AnnounceMessage, age: u64, port: u16) -> BestAnnounceMessage {
    let identity = PortIdentity {
        clock_identity: CLOCK,
        port_number: port,
    };
    BestAnnounceMessage {
        message: a,
        age,
        identity,
    }
}

// Better than our own data, by priority 1, through a lower sender: of two grandmasters, of which the first is the better.
pub fn first(sequence: u16) -> AnnounceMessage {
    sent(
        100,
        0x0019_0FFF_FE00_0001,
        0x000E_CFFF_FE00_0002,
        3,
        sequence,
    )
}

pub fn second(sequence: u16) -> AnnounceMessage {
    sent(
        110,
        0x0004_8BFF_FE00_0003,
        0x000E_CFFF_FE00_0004,
        0,
        sequence,
    )
}

pub fn worse(sequence: u16) -> AnnounceMessage {
    sent(
        200,
        0x0004_8BFF_FE00_0005,
        0x000E_CFFF_FE00_0006,
        0,
        sequence,
    )
}

// As good as our own data: it names us, and no port received it.
fn equal() -> BestAnnounceMessage {
    received(sent(5, CLOCK, CLOCK, 0, 3), 9, 0)
}

// 1 better than our own data, 2 equal, 3 worse.
fn ebest(kind: u64) -> BestAnnounceMessage {
    match kind {
        1 => received(first(1), 10, 2),
        2 => equal(),
        _ => received(worse(2), 11, 2),
    }
}

fn erbest(kind: u64) -> BestAnnounceMessage {
    match kind {
        1 => received(second(4), 12, 1),
        2 => equal(),
        _ => received(worse(5), 13, 1),
    }
}

// Whether a class is among the first 127, but 0.
fn is_low(class: u8) -> bool {
    (1..=127).contains(&class)
}

fn offered(kind: u64, b: BestAnnounceMessage) -> Option<BestAnnounceMessage> {
    if kind == 0 { None } else { Some(b) }
}

// Whether a state has this digit, and rests on our own data, on Ebest or on Erbest as the paper says.
pub fn is(
    state: RecommendedState,
    digit: u8,
    own: InternalDefaultDS,
    ebest: AnnounceMessage,
    erbest: AnnounceMessage,
) -> bool {
    let right = match state {
        RecommendedState::Stay => digit == b'0',
        RecommendedState::M1(d) => digit == b'1' && same_own(d, own),
        RecommendedState::M2(d) => digit == b'2' && same_own(d, own),
        RecommendedState::M3(a) => digit == b'3' && a == ebest,
        RecommendedState::P1(a) => digit == b'4' && a == erbest,
        RecommendedState::P2(a) => digit == b'5' && a == erbest,
        RecommendedState::S1(a) => digit == b'6' && a == ebest,
    };
    right && state.number() == digit % 16
}

// For no Ebest, a better, an equal and a worse one, and each of these as Erbest; the grandmasters differ.
const HIGH: [u8; 16] = *b"2222333322222222";

const HIGH_LISTENING: [u8; 16] = *b"0222033302220222";

const LOW: [u8; 16] = *b"1411141114111411";

const LOW_LISTENING: [u8; 16] = *b"0411041104110411";

fn digit(class: u8, listening: bool, i: usize) -> u8 {
    let digits = match (is_low(class), listening) {
        (true, true) => LOW_LISTENING,
        (true, false) => LOW,
        (false, true) => HIGH_LISTENING,
        (false, false) => HIGH,
    };
    digits[i % 16]
}

fn by_kind(n: u64) -> bool {
    let class = CLASSES[(n / 32 % 5) as usize];
    let listening = n / 16 % 2 == 1;
    let here = n / 4 % 4;
    let there = n % 4;
    let d = own(class);
    let e = ebest(here);
    let r = erbest(there);
    let state = decision::calculate_recommended_state(
        d,
        offered(here, e),
        offered(there, r),
        listening,
    );
    let want = digit(class, listening, (n % 16) as usize);
    is(state, want, d, e.message, r.message)
}

// 1 where a change is this one.
fn at(change: u64, n: u64) -> u8 {
    u8::from(change == n)
}

// Changes 0 to 11 are the flags.
fn changed_header(change: u64) -> Header {
    let version = PtpVersion {
        major: 2 + at(change, 13) % 2,
        minor: at(change, 14),
    };
    let source = PortIdentity {
        clock_identity: 0x000E_CFFF_FE00_0002 + at(change, 36) as u64 - at(change, 37) as u64,
        port_number: 2 + at(change, 17) as u16,
    };
    let mut h = frames::one_flag(frames::f_header(7), change);
    h.sdo_id = at(change, 12) as u16;
    h.version = version;
    h.domain_number = at(change, 15);
    h.correction_field = at(change, 16) as i64;
    h.source_port_identity = source;
    h.sequence_id = 7 + at(change, 18) as u16;
    h.log_message_interval = (at(change, 19) % 2) as i8;
    h
}

fn changed_content(mut a: AnnounceMessage, change: u64) -> AnnounceMessage {
    let mut origin = a.origin_timestamp;
    origin.seconds = at(change, 20) as u64;
    origin.nanos = at(change, 21) as u32;
    a.origin_timestamp = origin;
    a.current_utc_offset = at(change, 22) as i16;
    a.time_source = at(change, 23);
    a
}

// Steps one and two more, and one fewer, are changes 33 to 35.
fn changed_quality(mut a: AnnounceMessage, change: u64) -> AnnounceMessage {
    let quality = ClockQuality {
        clock_class: at(change, 25),
        clock_accuracy: at(change, 26),
        offset_scaled_log_variance: at(change, 27) as u16,
    };
    a.grandmaster_priority_1 = at(change, 24);
    a.grandmaster_clock_quality = quality;
    a.grandmaster_priority_2 = at(change, 28);
    a.grandmaster_identity = 0x0019_0FFF_FE00_0001 + at(change, 38) as u64;
    a.steps_removed = match change {
        33 => 4,
        34 => 5,
        35 => 2,
        _ => 3,
    };
    a
}

// A record with one thing changed: 29 the age, 30 the receiving clock, 31 and 32 the port; 39 changes nothing.
fn changed(change: u64) -> BestAnnounceMessage {
    let content = changed_content(frames::f_content(changed_header(change)), change);
    let identity = PortIdentity {
        clock_identity: CLOCK + at(change, 30) as u64,
        port_number: match change {
            31 => 5,
            32 => 3,
            _ => 4,
        },
    };
    BestAnnounceMessage {
        message: changed_quality(content, change),
        age: 500 + at(change, 29) as u64,
        identity,
    }
}

// Ebest as it is, and Erbest with each change. A higher port, one step more and a higher sender are by topology.
const CHANGES: [u8; 40] = *b"\
    333333333333\
    33333333\
    3333\
    33333\
    33\
    53\
    533\
    53\
    3\
    6";

fn by_change(n: u64) -> bool {
    let class = CLASSES[(n / 80 % 5) as usize];
    let listening = n / 40 % 2 == 1;
    let change = n % 40;
    let want = if is_low(class) {
        b'4'
    } else {
        CHANGES[change as usize]
    };
    let d = own(class);
    let e = changed(39);
    let r = changed(change);
    let state = decision::calculate_recommended_state(d, Some(e), Some(r), listening);
    is(state, want, d, e.message, r.message)
}

pub fn one(n: u64) -> bool {
    if n < KINDS {
        by_kind(n)
    } else {
        by_change(n - KINDS)
    }
}
