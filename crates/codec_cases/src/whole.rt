// Cases of whole frames: of bytes of one value, and of different bytes.
use announce::{AnnounceMessage, ClockQuality, WireTimestamp};
use header::{Header, PortIdentity, PtpVersion};
use message_type::MessageType;
use refused::Refusal;
use vectors::frames::Message;
use vectors::up::{UP, UP_AGAIN};
use vectors::{codec, frames, up};

// A Sync with every field zero, and as it is written again.
fn zeros() -> bool {
    let frame = [0u8; 64];
    let mut back = [0u8; 64];
    back[3] = 0x40;
    codec::round(&frame, zero_message(), 0, &back)
}

fn zero_message() -> Message {
    let mut h = frames::f_header(0);
    h.version = PtpVersion { major: 0, minor: 0 };
    h.source_port_identity = PortIdentity {
        clock_identity: 0,
        port_number: 0,
    };
    let mut a = frames::f_content(h);
    a.grandmaster_priority_1 = 0;
    a.grandmaster_clock_quality = ClockQuality {
        clock_class: 0,
        clock_accuracy: 0,
        offset_scaled_log_variance: 0,
    };
    a.grandmaster_priority_2 = 0;
    a.grandmaster_identity = 0;
    a.time_source = 0;
    Message {
        kind: MessageType::Sync,
        length: 0,
        content: a,
    }
}

fn ones_header() -> Header {
    let version = PtpVersion {
        major: 15,
        minor: 15,
    };
    let source = PortIdentity {
        clock_identity: 0xFFFF_FFFF_FFFF_FFFF,
        port_number: 0xFFFF,
    };
    let mut h = frames::flagged(frames::f_header(0xFFFF), true);
    h.sdo_id = 0xFFF;
    h.version = version;
    h.domain_number = 0xFF;
    h.correction_field = -1;
    h.source_port_identity = source;
    h.log_message_interval = -1;
    h
}

fn ones_content() -> AnnounceMessage {
    let origin = WireTimestamp {
        seconds: 0xFFFF_FFFF_FFFF,
        nanos: 0xFFFF_FFFF,
    };
    let quality = ClockQuality {
        clock_class: 0xFF,
        clock_accuracy: 0xFF,
        offset_scaled_log_variance: 0xFFFF,
    };
    AnnounceMessage {
        header: ones_header(),
        origin_timestamp: origin,
        current_utc_offset: -1,
        grandmaster_priority_1: 0xFF,
        grandmaster_clock_quality: quality,
        grandmaster_priority_2: 0xFF,
        grandmaster_identity: 0xFFFF_FFFF_FFFF_FFFF,
        steps_removed: 0xFFFF,
        time_source: 0xFF,
    }
}

// An announce message of FF.
fn ones_announce() -> bool {
    let mut frame = [0xFFu8; 64];
    frame[0] = 0xFB;
    let want = Message {
        kind: MessageType::Announce,
        length: 0xFFFF,
        content: ones_content(),
    };
    codec::round(&frame, want, 0xFF, &ONES_AGAIN)
}

// FF written again over FF, with 64 as the length.
const ONES_AGAIN: [u8; 64] = *b"\
    \xFB\xFF\x00\x40\xFF\xFF\x67\x7F\
    \xFF\xFF\xFF\xFF\xFF\xFF\xFF\xFF\
    \x00\x00\x00\x00\
    \xFF\xFF\xFF\xFF\xFF\xFF\xFF\xFF\xFF\xFF\
    \xFF\xFF\x05\xFF\
    \xFF\xFF\xFF\xFF\xFF\xFF\xFF\xFF\xFF\xFF\
    \xFF\xFF\xFF\xFF\
    \xFF\xFF\xFF\xFF\xFF\
    \xFF\xFF\xFF\xFF\xFF\xFF\xFF\xFF\
    \xFF\xFF\xFF";

fn up() -> bool {
    let want = Message {
        kind: MessageType::Announce,
        length: 0x8283,
        content: up::up_content(),
    };
    codec::round(&UP, want, 0x55, &UP_AGAIN)
}

// The whole frames: zeros; FF, which has a reserved type; FF of too few bytes, which are refused before the type is looked at; an announce
// message of FF; bytes that count up.
pub fn frame(n: u64) -> bool {
    match n {
        0 => zeros(),
        1 => codec::refuses(&[0xFF; 64], Refusal::ReservedType),
        2 => codec::refuses(&[0xFF; 33], Refusal::Short),
        3 => ones_announce(),
        _ => up(),
    }
}
