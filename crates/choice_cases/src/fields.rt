// Cases of two grandmasters: a field decides, and the fields before it are equal.
use crate::sides;
use crate::sides::Case;
use choice::Candidate;
use compare::DatasetOrdering;
use std::cmp::Ordering;

// Six fields, eight pairs of values, four ways of the later fields, the lower one on either side.
pub const CASES: u64 = 384;

// The fields by which grandmasters are compared, in their order.
#[derive(Clone, Copy, PartialEq, Eq, PartialOrd, Ord)]
enum Field {
    Priority1,
    Class,
    Accuracy,
    Variance,
    Priority2,
    Identity,
}

const FIELDS: [Field; 6] = [
    Field::Priority1,
    Field::Class,
    Field::Accuracy,
    Field::Variance,
    Field::Priority2,
    Field::Identity,
];

// Pairs of a lower and a higher value, for fields of one, two and eight bytes.
const BYTES: [(u64, u64); 8] = [
    (0, 1),
    (254, 255),
    (0, 255),
    (127, 128),
    (6, 7),
    (0x20, 0x31),
    (0x31, 0x32),
    (0x17, 0xFE),
];

const WORDS: [(u64, u64); 8] = [
    (0, 1),
    (0xFFFE, 0xFFFF),
    (0, 0xFFFF),
    (0x7FFF, 0x8000),
    (0x4E5D, 0x4E5E),
    (0x4E5D, 0x4F5D),
    (0x4EFF, 0x4F00),
    (0x00FF, 0x0100),
];

const LONGS: [(u64, u64); 8] = [
    (0, 1),
    (0xFFFF_FFFF_FFFF_FFFE, 0xFFFF_FFFF_FFFF_FFFF),
    (0, 0xFFFF_FFFF_FFFF_FFFF),
    (0x7FFF_FFFF_FFFF_FFFF, 0x8000_0000_0000_0000),
    (0x001B_19FF_FE12_3456, 0x001B_19FF_FE12_3457),
    (0x001B_19FF_FE12_3456, 0x011B_19FF_FE12_3456),
    (0x001B_19FF_FE12_3456, 0x011B_1900_0000_0000),
    (0x0000_0000_FFFF_FFFF, 0x0000_0001_0000_0000),
];

// The lower or the higher value of a pair for a field.
fn deciding(field: Field, pair: u64, higher: bool) -> u64 {
    let i = (pair % 8) as usize;
    let (low, high) = match field {
        Field::Variance => WORDS[i],
        Field::Identity => LONGS[i],
        _ => BYTES[i],
    };
    if higher { high } else { low }
}

// Of the fields after it, on the side that has the lower value and on the other: equal in the first two ways, then pulling
// the other way by one, and as far as a byte goes.
fn later(way: u64, higher: bool) -> u64 {
    match (way % 4, higher) {
        (2, false) => 0x81,
        (3, false) => 255,
        (3, true) => 0,
        _ => 0x80,
    }
}

// The identity, where it is not the one that decides: it pulls the same way in the first way only.
fn last(way: u64, higher: bool) -> u64 {
    match (way % 4, higher) {
        (0, false) | (1, true) | (2, true) => 0x000C_29FF_FE00_00FF,
        (0, true) | (1, false) => 0x000D_29FF_FE00_0001,
        (2, false) => 0x000C_29FF_FE00_0100,
        (_, false) => u64::MAX,
        (_, true) => 0,
    }
}

// The fields before it.
fn before(way: u64) -> u64 {
    match way {
        2 => 0,
        3 => 255,
        _ => 0x80,
    }
}

// Values before a field, at it and after it, and of an identity after it.
#[derive(Clone, Copy)]
struct Values {
    at: Field,
    front: u64,
    own: u64,
    back: u64,
    identity: u64,
}

impl Values {
    // What a field has.
    fn of(self, field: Field) -> u64 {
        match field.cmp(&self.at) {
            Ordering::Less => self.front,
            Ordering::Equal => self.own,
            Ordering::Greater if field == Field::Identity => self.identity,
            Ordering::Greater => self.back,
        }
    }

    fn byte(self, field: Field) -> u8 {
        (self.of(field) % 256) as u8
    }
}

fn sender_of(steps: u16, port: u16, sender: u64) -> Candidate {
    Candidate {
        gm_priority_1: 0x80,
        clock_class: 0x80,
        clock_accuracy: 0x80,
        gm_priority_2: 0x80,
        offset_scaled_log_variance: 0x80,
        steps_removed: steps,
        receiver_port: port,
        gm_identity: 0x80,
        sender,
        receiver_clock: 0x0080_63FF_FE00_000A,
        age: 5,
        place: 0,
    }
}

// Steps, port and sender, which are not to be looked at, pull the other way: more on the side that has the lower value.
fn sent(higher: bool) -> Candidate {
    if higher {
        sender_of(0, 1, 0x0001_05FF_FE00_0001)
    } else {
        sender_of(5, 2, 0x7C2E_0DFF_FE00_0001)
    }
}

// A candidate with these values.
fn side(values: Values, higher: bool) -> Candidate {
    let mut c = sent(higher);
    c.gm_priority_1 = values.byte(Field::Priority1);
    c.clock_class = values.byte(Field::Class);
    c.clock_accuracy = values.byte(Field::Accuracy);
    c.offset_scaled_log_variance = (values.of(Field::Variance) % 65536) as u16;
    c.gm_priority_2 = values.byte(Field::Priority2);
    c.gm_identity = values.of(Field::Identity);
    c
}

fn made(at: Field, pair: u64, way: u64, higher: bool) -> Candidate {
    let values = Values {
        at,
        front: before(way),
        own: deciding(at, pair, higher),
        back: later(way, higher),
        identity: last(way, higher),
    };
    side(values, higher)
}

// The case of a number.
fn case(n: u64) -> Case {
    let at = FIELDS[(n / 64 % 6) as usize];
    let pair = n / 8 % 8;
    let way = n / 2 % 4;
    let low = made(at, pair, way, false);
    let high = made(at, pair, way, true);
    if n % 2 == 0 {
        Case {
            left: low,
            right: high,
            want: DatasetOrdering::Better,
        }
    } else {
        Case {
            left: high,
            right: low,
            want: DatasetOrdering::Worse,
        }
    }
}

pub fn direct(n: u64) -> bool {
    let c = case(n);
    sides::direct(c) && sides::direct_own(c)
}

pub fn swapped(n: u64) -> bool {
    let c = case(n);
    sides::swapped(c) && sides::swapped_own(c)
}

// A grandmaster of this accuracy and identity.
fn accurate(accuracy: u64, identity: u64) -> Candidate {
    let mut c = sent(true);
    c.clock_accuracy = (accuracy % 256) as u8;
    c.gm_identity = identity;
    c
}

// Where the accuracies are equal, the left identity is the lower one for an even accuracy and the higher one for an odd.
pub fn accuracies(n: u64) -> bool {
    let here = n / 256;
    let there = n % 256;
    let left = accurate(here, 0x001B_19FF_FE00_0010 + here % 2);
    let right = accurate(there, 0x001B_19FF_FE00_0011 - here % 2);
    let want = if here < there || (here == there && here % 2 == 0) {
        DatasetOrdering::Better
    } else {
        DatasetOrdering::Worse
    };
    sides::verdict(left, right, want)
}
