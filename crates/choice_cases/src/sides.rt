// Two sides of a comparison, as candidates and as the messages that they come from, and whether the verdict is as wanted.
use announce::{AnnounceMessage, ClockQuality};
use choice::{BestAnnounceMessage, Candidate};
use compare::{ComparisonDataset, DatasetOrdering, InternalDefaultDS};
use header::PortIdentity;
use std::cmp::Ordering;
use vectors::frames;

// Two sides, and the verdict on the left one.
#[derive(Clone, Copy)]
pub struct Case {
    pub left: Candidate,
    pub right: Candidate,
    pub want: DatasetOrdering,
}

fn number(v: DatasetOrdering) -> u8 {
    match v {
        DatasetOrdering::Better => 0,
        DatasetOrdering::BetterByTopology => 1,
        DatasetOrdering::Error1 => 2,
        DatasetOrdering::Error2 => 3,
        DatasetOrdering::WorseByTopology => 4,
        DatasetOrdering::Worse => 5,
    }
}

// The verdict on the other side.
pub fn mirror(v: DatasetOrdering) -> DatasetOrdering {
    match v {
        DatasetOrdering::Better => DatasetOrdering::Worse,
        DatasetOrdering::BetterByTopology => DatasetOrdering::WorseByTopology,
        DatasetOrdering::Error1 => DatasetOrdering::Error1,
        DatasetOrdering::Error2 => DatasetOrdering::Error2,
        DatasetOrdering::WorseByTopology => DatasetOrdering::BetterByTopology,
        DatasetOrdering::Worse => DatasetOrdering::Better,
    }
}

// What a verdict says of itself: its rank, whether it ranks above, whether it is better by topology.
fn tells(v: DatasetOrdering, ranked: Ordering, above: bool, topology: bool) -> bool {
    v.as_ordering() == ranked && v.ranks_above() == above && v.by_topology() == topology
}

pub fn told(n: u64) -> bool {
    match n {
        0 => tells(DatasetOrdering::Better, Ordering::Greater, true, false),
        1 => tells(
            DatasetOrdering::BetterByTopology,
            Ordering::Greater,
            true,
            true,
        ),
        2 => tells(DatasetOrdering::Error1, Ordering::Equal, false, false),
        3 => tells(DatasetOrdering::Error2, Ordering::Equal, false, false),
        4 => tells(
            DatasetOrdering::WorseByTopology,
            Ordering::Less,
            false,
            false,
        ),
        _ => tells(DatasetOrdering::Worse, Ordering::Less, false, false),
    }
}

// The message that a candidate comes from.
pub fn message(c: Candidate) -> AnnounceMessage {
    let source = PortIdentity {
        clock_identity: c.sender,
        port_number: 1,
    };
    let quality = ClockQuality {
        clock_class: c.clock_class,
        clock_accuracy: c.clock_accuracy,
        offset_scaled_log_variance: c.offset_scaled_log_variance,
    };
    let mut h = frames::f_header(7);
    h.source_port_identity = source;
    let mut a = frames::f_content(h);
    a.grandmaster_priority_1 = c.gm_priority_1;
    a.grandmaster_clock_quality = quality;
    a.grandmaster_priority_2 = c.gm_priority_2;
    a.grandmaster_identity = c.gm_identity;
    a.steps_removed = c.steps_removed;
    a
}

// The port that received it.
fn receiver(c: Candidate) -> PortIdentity {
    PortIdentity {
        clock_identity: c.receiver_clock,
        port_number: c.receiver_port,
    }
}

// The whole record that it comes from.
pub fn record(c: Candidate) -> BestAnnounceMessage {
    BestAnnounceMessage {
        message: message(c),
        age: c.age,
        identity: receiver(c),
    }
}

// A clock that is the grandmaster itself.
fn own(c: Candidate) -> InternalDefaultDS {
    let quality = ClockQuality {
        clock_class: c.clock_class,
        clock_accuracy: c.clock_accuracy,
        offset_scaled_log_variance: c.offset_scaled_log_variance,
    };
    InternalDefaultDS {
        clock_identity: c.gm_identity,
        clock_quality: quality,
        priority_1: c.gm_priority_1,
        priority_2: c.gm_priority_2,
    }
}

pub fn set(c: Candidate) -> ComparisonDataset {
    ComparisonDataset::from_announce_message(message(c), receiver(c))
}

pub fn own_set(c: Candidate) -> ComparisonDataset {
    ComparisonDataset::from_own_data(own(c))
}

pub fn is(got: DatasetOrdering, want: DatasetOrdering) -> bool {
    number(got) == number(want)
}

// The records made into candidates again.
fn by_records(a: Candidate, b: Candidate, want: DatasetOrdering) -> bool {
    let here = record(a).candidate(1);
    let there = record(b).candidate(2);
    is(here.compare_dataset(there), want)
}

// Whether the verdict on a is as wanted: of the candidates, of the messages, and of the records.
pub fn verdict(a: Candidate, b: Candidate, want: DatasetOrdering) -> bool {
    is(a.compare_dataset(b), want) && is(set(a).compare(set(b)), want) && by_records(a, b, want)
}

pub fn direct(c: Case) -> bool {
    verdict(c.left, c.right, c.want)
}

pub fn swapped(c: Case) -> bool {
    verdict(c.right, c.left, mirror(c.want))
}

// The same with a clock's own data on the left.
pub fn direct_own(c: Case) -> bool {
    is(own_set(c.left).compare(set(c.right)), c.want)
}

pub fn swapped_own(c: Case) -> bool {
    is(set(c.right).compare(own_set(c.left)), mirror(c.want))
}

// Whether all twelve fields are the same.
pub fn same(a: Candidate, b: Candidate) -> bool {
    a.gm_priority_1 == b.gm_priority_1
        && a.clock_class == b.clock_class
        && a.clock_accuracy == b.clock_accuracy
        && a.gm_priority_2 == b.gm_priority_2
        && a.offset_scaled_log_variance == b.offset_scaled_log_variance
        && a.steps_removed == b.steps_removed
        && a.receiver_port == b.receiver_port
        && a.gm_identity == b.gm_identity
        && a.sender == b.sender
        && a.receiver_clock == b.receiver_clock
        && a.age == b.age
        && a.place == b.place
}
