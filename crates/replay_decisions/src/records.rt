// The records of a line: our own data, sets, candidates, and whole messages.
ghost use Rattle.std.specs.Prelude.{◌+◌, ◌*◌, ◌≤◌, ◌<◌, length};

use announce::{AnnounceMessage, ClockQuality, WireTimestamp};
use choice::{BestAnnounceMessage, Candidate};
use compare::{ComparisonDataset, InternalDefaultDS};
use frame::TLV_START;
use header::{Header, PortIdentity, PtpVersion};

// The sizes of our own data, a set, a candidate, and a message with its age and receiver.
pub const OWN_SIZE: usize = 14;

pub const SET_SIZE: usize = 34;

pub const CANDIDATE_SIZE: usize = 42;

const MESSAGE_SIZE: usize = TLV_START + 18;

// The most candidates of a line.
pub const MAX_CANDIDATES: usize = 48;

fn quality_at(s: &[u8], at: usize) -> ClockQuality
    requires { at + 4 ≤ length s.now }
{
    ClockQuality {
        clock_class: wire::u8_at(s, at),
        clock_accuracy: wire::u8_at(s, at + 1),
        offset_scaled_log_variance: wire::u16_at(s, at + 2),
    }
}

// Our own data: identity, priority 1, quality, priority 2.
pub fn own_at(s: &[u8], at: usize) -> InternalDefaultDS
    requires { at + 14 ≤ length s.now }
{
    let quality = quality_at(s, at + 9);
    InternalDefaultDS {
        clock_identity: wire::u64_at(s, at),
        clock_quality: quality,
        priority_1: wire::u8_at(s, at + 8),
        priority_2: wire::u8_at(s, at + 13),
    }
}

// A header of version 2.0 with this sender and this sequence; all else is zero.
fn header_of(sender: u64, sequence: u16) -> Header {
    let version = PtpVersion { major: 2, minor: 0 };
    let source = PortIdentity {
        clock_identity: sender,
        port_number: 0,
    };
    Header {
        sdo_id: 0,
        version,
        domain_number: 0,
        alternate_master_flag: false,
        two_step_flag: false,
        unicast_flag: false,
        ptp_profile_specific_1: false,
        ptp_profile_specific_2: false,
        leap61: false,
        leap59: false,
        current_utc_offset_valid: false,
        ptp_timescale: false,
        time_tracable: false,
        frequency_tracable: false,
        synchronization_uncertain: false,
        correction_field: 0,
        source_port_identity: source,
        sequence_id: sequence,
        log_message_interval: 0,
    }
}

// The announce of a set: priority 1, quality, priority 2, grandmaster, steps removed, sender. The rest is zero.
fn announce_at(s: &[u8], at: usize, sequence: u16) -> AnnounceMessage
    requires { at + 34 ≤ length s.now }
{
    let header = header_of(wire::u64_at(s, at + 16), sequence);
    let origin = WireTimestamp {
        seconds: 0,
        nanos: 0,
    };
    let quality = quality_at(s, at + 1);
    AnnounceMessage {
        header: header,
        origin_timestamp: origin,
        current_utc_offset: 0,
        grandmaster_priority_1: wire::u8_at(s, at),
        grandmaster_clock_quality: quality,
        grandmaster_priority_2: wire::u8_at(s, at + 5),
        grandmaster_identity: wire::u64_at(s, at + 6),
        steps_removed: wire::u16_at(s, at + 14),
        time_source: 0,
    }
}

// A set: an announce, then the receiver.
pub fn set_at(s: &[u8], at: usize) -> ComparisonDataset
    requires { at + 34 ≤ length s.now }
{
    let message = announce_at(s, at, 0);
    let receiver = header::port_identity_at(s, at + 24);
    ComparisonDataset::from_announce_message(message, receiver)
}

// The candidate at a place: a set, then the age. The sequence tells the place.
pub fn best_at(s: &[u8], place: usize) -> BestAnnounceMessage
    requires { (place < 48) × (place * 42 + 42 ≤ length s.now) }
{
    let at = place * CANDIDATE_SIZE;
    let message = announce_at(s, at, place as u16);
    let receiver = header::port_identity_at(s, at + 24);
    BestAnnounceMessage {
        message,
        age: wire::u64_at(s, at + 34),
        identity: receiver,
    }
}

// The port that received the candidate at a place.
pub fn port_at(s: &[u8], place: usize) -> u16
    requires { (place < 48) × (place * 42 + 42 ≤ length s.now) }
{
    wire::u16_at(s, place * CANDIDATE_SIZE + 32)
}

// The candidate at a place as the choice takes it.
fn candidate_at(s: &[u8], place: usize) -> Candidate
    requires { (place < 48) × (place * 42 + 42 ≤ length s.now) }
{
    best_at(s, place).candidate(place as u64)
}

// The candidates at the places from first up to end, at the start of a list.
pub fn candidates(s: &[u8], first: usize, end: usize) -> [Candidate; 96]
    requires { (end ≤ 48) × (end * 42 ≤ length s.now) }
{
    let mut list = [replay_states::no_candidate(); 96];
    for place in first..end {
        list[place - first] = candidate_at(s, place);
    }
    list
}

// A whole message: a frame without TLVs, then its age and its receiver.
fn message_at(s: &[u8]) -> Option<BestAnnounceMessage>
    requires { 82 ≤ length s.now }
{
    let age = wire::u64_at(s, TLV_START);
    let identity = header::port_identity_at(s, TLV_START + 8);
    match frame::read_frame(&s[0..TLV_START]) {
        Ok(read) => Some(BestAnnounceMessage {
            message: read.announce,
            age,
            identity,
        }),
        Err(_) => None,
    }
}

// How many bytes the first of two options takes; 1 where its message is cut short.
pub fn option_size(s: &[u8]) -> usize
    ensures { result ≤ length s.now }
{
    if s.is_empty() {
        0
    } else if s[0] == 0 || s.len() <= MESSAGE_SIZE {
        1
    } else {
        MESSAGE_SIZE + 1
    }
}

// An option: 00, or 01 and a message. Anything else has not the right shape.
pub fn option(s: &[u8]) -> Option<Option<BestAnnounceMessage>> {
    if s.len() == 1 && s[0] == 0 {
        return Some(None);
    }
    if s.len() == MESSAGE_SIZE + 1 && s[0] == 1 {
        return message_at(&s[1..]).map(Some);
    }
    None
}
