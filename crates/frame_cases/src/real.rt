// Announce frames that ptp4l of linuxptp 3.1.1 sent, with path_trace_enabled 1, free_running 1, logAnnounceInterval 0 and
// software time stamps: a grandmaster (priority1 100, clockClass 6, clockAccuracy 0x20, offsetScaledLogVariance 0x4E5D,
// timeSource 0x20) and a boundary clock behind it, over Ethernet but for one. They were recorded at the other end of the link.
use announce::{AnnounceMessage, ClockQuality};
use header::{Header, PortIdentity};
use refused::Refusal;
use tlv::TlvRead;
use vectors::{frames, framing, room};

// The grandmaster, after pmc had set its time and frequency traceable, its timescale PTP and its UTC offset of 37 valid.
const GRANDMASTER: [u8; 76] = *b"\
    \x0B\x02\x00\x4C\x00\x00\x00\x3C\
    \x00\x00\x00\x00\x00\x00\x00\x00\
    \x00\x00\x00\x00\
    \x02\x00\x00\xFF\xFE\x00\x00\x01\x00\x01\
    \x00\x13\x05\x00\
    \x00\x00\x00\x00\x00\x00\x00\x00\x00\x00\
    \x00\x25\x00\x64\
    \x06\x20\x4E\x5D\x80\
    \x02\x00\x00\xFF\xFE\x00\x00\x01\
    \x00\x00\x20\
    \x00\x08\x00\x08\x02\x00\x00\xFF\xFE\x00\x00\x01";

// The boundary clock: a path of two identities.
const BOUNDARY: [u8; 84] = *b"\
    \x0B\x02\x00\x54\x00\x00\x00\x3C\
    \x00\x00\x00\x00\x00\x00\x00\x00\
    \x00\x00\x00\x00\
    \x02\x00\x00\xFF\xFE\x00\x00\x02\x00\x02\
    \x00\x13\x05\x00\
    \x00\x00\x00\x00\x00\x00\x00\x00\x00\x00\
    \x00\x25\x00\x64\
    \x06\x20\x4E\x5D\x80\
    \x02\x00\x00\xFF\xFE\x00\x00\x01\
    \x00\x01\x20\
    \x00\x08\x00\x10\x02\x00\x00\xFF\xFE\x00\x00\x01\x02\x00\x00\xFF\xFE\x00\x00\x02";

// The boundary clock before it had heard the grandmaster.
const ALONE: [u8; 76] = *b"\
    \x0B\x02\x00\x4C\x00\x00\x00\x00\
    \x00\x00\x00\x00\x00\x00\x00\x00\
    \x00\x00\x00\x00\
    \x02\x00\x00\xFF\xFE\x00\x00\x02\x00\x02\
    \x00\x00\x05\x00\
    \x00\x00\x00\x00\x00\x00\x00\x00\x00\x00\
    \x00\x25\x00\x80\
    \xF8\xFE\xFF\xFF\x80\
    \x02\x00\x00\xFF\xFE\x00\x00\x02\
    \x00\x00\xA0\
    \x00\x08\x00\x08\x02\x00\x00\xFF\xFE\x00\x00\x02";

// The boundary clock's first announce after it had chosen the grandmaster.
const CHOSEN: [u8; 76] = *b"\
    \x0B\x02\x00\x4C\x00\x00\x00\x00\
    \x00\x00\x00\x00\x00\x00\x00\x00\
    \x00\x00\x00\x00\
    \x02\x00\x00\xFF\xFE\x00\x00\x02\x00\x02\
    \x00\x02\x05\x00\
    \x00\x00\x00\x00\x00\x00\x00\x00\x00\x00\
    \x00\x25\x00\x64\
    \x06\x20\x4E\x5D\x80\
    \x02\x00\x00\xFF\xFE\x00\x00\x01\
    \x00\x01\x20\
    \x00\x08\x00\x08\x02\x00\x00\xFF\xFE\x00\x00\x02";

// The grandmaster over UDP and IPv6, where two bytes follow the message.
const PADDED: [u8; 78] = *b"\
    \x0B\x02\x00\x4C\x00\x00\x00\x00\
    \x00\x00\x00\x00\x00\x00\x00\x00\
    \x00\x00\x00\x00\
    \x02\x00\x00\xFF\xFE\x00\x00\x01\x00\x01\
    \x00\x13\x05\x00\
    \x00\x00\x00\x00\x00\x00\x00\x00\x00\x00\
    \x00\x25\x00\x64\
    \x06\x20\x4E\x5D\x80\
    \x02\x00\x00\xFF\xFE\x00\x00\x01\
    \x00\x00\x20\
    \x00\x08\x00\x08\x02\x00\x00\xFF\xFE\x00\x00\x01\
    \x00\x00";

const GRANDMASTER_IDENTITY: u64 = 0x0200_00FF_FE00_0001;

const BOUNDARY_IDENTITY: u64 = 0x0200_00FF_FE00_0002;

fn header_of(clock: u64, port: u16, sequence: u16, traceable: bool) -> Header {
    let mut h = frames::f_header(sequence);
    h.source_port_identity = PortIdentity {
        clock_identity: clock,
        port_number: port,
    };
    h.current_utc_offset_valid = traceable;
    h.ptp_timescale = traceable;
    h.time_tracable = traceable;
    h.frequency_tracable = traceable;
    h
}

// What is announced of the grandmaster, with the steps as told.
fn chosen(h: Header, steps: u16) -> AnnounceMessage {
    let mut a = frames::f_content(h);
    a.current_utc_offset = 37;
    a.grandmaster_priority_1 = 100;
    a.grandmaster_identity = GRANDMASTER_IDENTITY;
    a.steps_removed = steps;
    a
}

// What the boundary clock announces of itself.
fn alone() -> AnnounceMessage {
    let quality = ClockQuality {
        clock_class: 248,
        clock_accuracy: 0xFE,
        offset_scaled_log_variance: 0xFFFF,
    };
    let mut a = frames::f_content(header_of(BOUNDARY_IDENTITY, 2, 0, false));
    a.current_utc_offset = 37;
    a.grandmaster_clock_quality = quality;
    a.grandmaster_identity = BOUNDARY_IDENTITY;
    a.time_source = 0xA0;
    a
}

fn grandmaster(traceable: bool) -> AnnounceMessage {
    chosen(header_of(GRANDMASTER_IDENTITY, 1, 19, traceable), 0)
}

fn boundary(sequence: u16, traceable: bool) -> AnnounceMessage {
    chosen(header_of(BOUNDARY_IDENTITY, 2, sequence, traceable), 1)
}

// Whether a list is one path trace of so many bytes.
fn path(tlvs: &[u8], size: usize) -> bool {
    match tlv_set::list_entry(tlvs, 0) {
        Ok(
            TlvRead::Entry {
                tlv_type,
                start,
                len,
                next,
            },
        ) => tlv_type == 8 && start == 4 && len == size && next.at == tlvs.len(),
        _ => false,
    }
}

// Whether a frame reads as wanted, with one path trace, and written again over zeros is what it was up to its end.
fn whole(s: &[u8], want: AnnounceMessage, size: usize, end: usize) -> bool {
    let mut target = [0u8; 96];
    framing::answers(s, Ok(()), want, end)
        && s.get(64..end).is_some_and(|tlvs| path(tlvs, size))
        && framing::rewrite(s, &mut target).is_ok()
        && room::holds(&target, framing::first(s, end), 0)
}

// A case of a frame, of what it says, of the size of its path and of its end.
fn recorded<F: Fn(&[u8], AnnounceMessage, usize, usize) -> bool>(n: u64, case: F) -> bool
    requires { F.IsAlwaysCallable case }
{
    match n {
        0 => case(&GRANDMASTER, grandmaster(true), 8, 76),
        1 => case(&BOUNDARY, boundary(19, true), 16, 84),
        2 => case(&ALONE, alone(), 8, 76),
        3 => case(&CHOSEN, boundary(2, false), 8, 76),
        _ => case(&PADDED, grandmaster(false), 8, 76),
    }
}

pub fn frame(n: u64) -> bool {
    recorded(n, whole)
}

// A frame cut to its first bytes, and the whole with a length field that says as many.
fn cut(s: &[u8], n: u64, want: AnnounceMessage) -> bool {
    let mut frame = [0u8; 96];
    if frame.len() < s.len() {
        return false;
    }
    wire::put_bytes(&mut frame, 0, s);
    wire::put_be(&mut frame, 2, 2, n);
    let answer = match n {
        0..=33 => Err(Refusal::LengthField),
        64 => Ok(()),
        _ => Err(Refusal::Short),
    };
    framing::answers(framing::first(s, n as usize), Err(Refusal::Short), want, 0)
        && framing::answers(&frame, answer, want, 64)
}

// Each number of bytes below 76.
pub fn damaged(n: u64) -> bool {
    recorded(n / 76, |frame, want, _, _| cut(frame, n % 76, want))
}
