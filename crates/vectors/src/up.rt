// A frame whose bytes differ, and what it holds.
use crate::frames;
use announce::{AnnounceMessage, ClockQuality, WireTimestamp};
use header::{Header, PortIdentity, PtpVersion};

// Bytes that count up from 80, but for the type.
pub const UP: [u8; 64] = *b"\
    \x8B\x81\x82\x83\x84\x85\x86\x87\
    \x88\x89\x8A\x8B\x8C\x8D\x8E\x8F\
    \x90\x91\x92\x93\
    \x94\x95\x96\x97\x98\x99\x9A\x9B\x9C\x9D\
    \x9E\x9F\xA0\xA1\
    \xA2\xA3\xA4\xA5\xA6\xA7\xA8\xA9\xAA\xAB\
    \xAC\xAD\xAE\xAF\
    \xB0\xB1\xB2\xB3\xB4\
    \xB5\xB6\xB7\xB8\xB9\xBA\xBB\xBC\
    \xBD\xBE\xBF";

// These written again over bytes of 55.
pub const UP_AGAIN: [u8; 64] = *b"\
    \x8B\x81\x00\x40\x84\x85\x06\x07\
    \x88\x89\x8A\x8B\x8C\x8D\x8E\x8F\
    \x00\x00\x00\x00\
    \x94\x95\x96\x97\x98\x99\x9A\x9B\x9C\x9D\
    \x9E\x9F\x05\xA1\
    \xA2\xA3\xA4\xA5\xA6\xA7\xA8\xA9\xAA\xAB\
    \xAC\xAD\x55\xAF\
    \xB0\xB1\xB2\xB3\xB4\
    \xB5\xB6\xB7\xB8\xB9\xBA\xBB\xBC\
    \xBD\xBE\xBF";

fn up_header() -> Header {
    let version = PtpVersion { major: 1, minor: 8 };
    let source = PortIdentity {
        clock_identity: 0x9495_9697_9899_9A9B,
        port_number: 0x9C9D,
    };
    let mut h = frames::f_header(0x9E9F);
    h.sdo_id = 0x885;
    h.version = version;
    h.domain_number = 0x84;
    h.two_step_flag = true;
    h.unicast_flag = true;
    h.leap61 = true;
    h.leap59 = true;
    h.current_utc_offset_valid = true;
    h.correction_field = -8_608_196_880_778_817_905;
    h.source_port_identity = source;
    h.log_message_interval = -95;
    h
}

pub fn up_content() -> AnnounceMessage {
    let origin = WireTimestamp {
        seconds: 0xA2A3_A4A5_A6A7,
        nanos: 0xA8A9_AAAB,
    };
    let quality = ClockQuality {
        clock_class: 0xB0,
        clock_accuracy: 0xB1,
        offset_scaled_log_variance: 0xB2B3,
    };
    AnnounceMessage {
        header: up_header(),
        origin_timestamp: origin,
        current_utc_offset: -21331,
        grandmaster_priority_1: 0xAF,
        grandmaster_clock_quality: quality,
        grandmaster_priority_2: 0xB4,
        grandmaster_identity: 0xB5B6_B7B8_B9BA_BBBC,
        steps_removed: 0xBDBE,
        time_source: 0xBF,
    }
}
