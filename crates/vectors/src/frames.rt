// What paper 01 says of a frame: the bytes of F(1), the values that they hold, and the number of each type.
use announce::{AnnounceMessage, ClockQuality, WireTimestamp};
use header::{Header, PortIdentity, PtpVersion};
use message_type::MessageType;

// F(1). A line each: the bytes up to the flags; the correction; zero; the source; sequence, control and interval; the origin;
// UTC offset, reserved byte and priority 1; quality and priority 2; the grandmaster; steps removed and time source.
pub const F: [u8; 64] = *b"\
    \x0B\x02\x00\x40\x00\x00\x00\x00\
    \x00\x00\x00\x00\x00\x00\x00\x00\
    \x00\x00\x00\x00\
    \x00\x00\x00\x00\x00\x00\x00\x01\x00\x01\
    \x00\x01\x05\x00\
    \x00\x00\x00\x00\x00\x00\x00\x00\x00\x00\
    \x00\x00\x00\x80\
    \x06\x20\x4E\x5D\x80\
    \x00\x00\x00\x00\x00\x00\x00\x01\
    \x00\x00\x20";

// F(1), and six bytes that are no part of it.
pub const LONG: [u8; 70] = *b"\
    \x0B\x02\x00\x40\x00\x00\x00\x00\
    \x00\x00\x00\x00\x00\x00\x00\x00\
    \x00\x00\x00\x00\
    \x00\x00\x00\x00\x00\x00\x00\x01\x00\x01\
    \x00\x01\x05\x00\
    \x00\x00\x00\x00\x00\x00\x00\x00\x00\x00\
    \x00\x00\x00\x80\
    \x06\x20\x4E\x5D\x80\
    \x00\x00\x00\x00\x00\x00\x00\x01\
    \x00\x00\x20\
    \x00\x08\x00\x02\xA5\x5A";

// What a frame holds.
#[derive(Clone, Copy, PartialEq, Eq)]
pub struct Message {
    pub kind: MessageType,
    pub length: u16,
    pub content: AnnounceMessage,
}

// The header of F(n).
pub fn f_header(n: u16) -> Header {
    let version = PtpVersion { major: 2, minor: 0 };
    let source = PortIdentity {
        clock_identity: 1,
        port_number: 1,
    };
    Header {
        sdo_id: 0,
        version,
        domain_number: 0,
        alternate_master_flag: false,
        two_step_flag: false,
        unicast_flag: false,
        ptp_profile_specific_1: false,
        ptp_profile_specific_2: false,
        leap61: false,
        leap59: false,
        current_utc_offset_valid: false,
        ptp_timescale: false,
        time_tracable: false,
        frequency_tracable: false,
        synchronization_uncertain: false,
        correction_field: 0,
        source_port_identity: source,
        sequence_id: n,
        log_message_interval: 0,
    }
}

// The content of F(n) after a header.
pub fn f_content(h: Header) -> AnnounceMessage {
    let origin = WireTimestamp {
        seconds: 0,
        nanos: 0,
    };
    let quality = ClockQuality {
        clock_class: 0x06,
        clock_accuracy: 0x20,
        offset_scaled_log_variance: 0x4E5D,
    };
    AnnounceMessage {
        header: h,
        origin_timestamp: origin,
        current_utc_offset: 0,
        grandmaster_priority_1: 0x80,
        grandmaster_clock_quality: quality,
        grandmaster_priority_2: 0x80,
        grandmaster_identity: 1,
        steps_removed: 0,
        time_source: 0x20,
    }
}

// The header of F(1) with the sdo and the versions as told.
pub fn versioned(sdo: u16, major: u8, minor: u8) -> Header {
    let mut h = f_header(1);
    h.sdo_id = sdo;
    h.version = PtpVersion { major, minor };
    h
}

// The content of F(n) after a header, with the seconds as told.
pub fn timed(h: Header, seconds: u64) -> AnnounceMessage {
    let mut a = f_content(h);
    a.origin_timestamp = WireTimestamp { seconds, nanos: 0 };
    a
}

// The message F(1).
pub fn f_message() -> AnnounceMessage {
    f_content(f_header(1))
}

// An announce message whose length field says 64.
pub fn announced(content: AnnounceMessage) -> Message {
    Message {
        kind: MessageType::Announce,
        length: 64,
        content,
    }
}

// The message with this header and the content of F(n).
pub fn headed(h: Header) -> Message {
    announced(f_content(h))
}

// The header with all twelve flags as told.
pub fn flagged(mut h: Header, on: bool) -> Header {
    h.alternate_master_flag = on;
    h.two_step_flag = on;
    h.unicast_flag = on;
    h.ptp_profile_specific_1 = on;
    h.ptp_profile_specific_2 = on;
    h.leap61 = on;
    h.leap59 = on;
    h.current_utc_offset_valid = on;
    h.ptp_timescale = on;
    h.time_tracable = on;
    h.frequency_tracable = on;
    h.synchronization_uncertain = on;
    h
}

// The header with the flag of the given place alone, of byte 6 first.
pub fn one_flag(mut h: Header, place: u64) -> Header {
    h.alternate_master_flag = place == 0;
    h.two_step_flag = place == 1;
    h.unicast_flag = place == 2;
    h.ptp_profile_specific_1 = place == 3;
    h.ptp_profile_specific_2 = place == 4;
    h.leap61 = place == 5;
    h.leap59 = place == 6;
    h.current_utc_offset_valid = place == 7;
    h.ptp_timescale = place == 8;
    h.time_tracable = place == 9;
    h.frequency_tracable = place == 10;
    h.synchronization_uncertain = place == 11;
    h
}

// The type that a number names.
pub fn named(number: u64) -> Option<MessageType> {
    match number {
        0 => Some(MessageType::Sync),
        1 => Some(MessageType::DelayReq),
        2 => Some(MessageType::PDelayReq),
        3 => Some(MessageType::PDelayResp),
        8 => Some(MessageType::FollowUp),
        9 => Some(MessageType::DelayResp),
        10 => Some(MessageType::PDelayRespFollowUp),
        11 => Some(MessageType::Announce),
        12 => Some(MessageType::Signaling),
        13 => Some(MessageType::Management),
        _ => None,
    }
}

// The control field of the type of a number.
pub fn control(number: u64) -> u8 {
    match number {
        0 => 0,
        1 => 1,
        8 => 2,
        9 => 3,
        13 => 4,
        _ => 5,
    }
}
