// Answers each line of the input, a frame in hexadecimal digits, with what the codec reads from the frame and what it writes of that again:
// the lines of the oracle's subcommand codec.
#![tactic(auto)]

use announce::{AnnounceMessage, CONTENT_SIZE};
use header::{DeserializedHeader, HEADER_SIZE, Header};
use message_type::MessageType;
use replay::{print, print_bytes, print_flag, print8, print16};

// What lies where a message is written to.
const UNWRITTEN: u8 = 0xa5;

fn print_flags(h: Header) {
    let flags = [
        h.alternate_master_flag,
        h.two_step_flag,
        h.unicast_flag,
        h.ptp_profile_specific_1,
        h.ptp_profile_specific_2,
        h.leap61,
        h.leap59,
        h.current_utc_offset_valid,
        h.ptp_timescale,
        h.time_tracable,
        h.frequency_tracable,
        h.synchronization_uncertain,
    ];
    for flag in flags {
        print_flag(flag);
    }
}

// Writes what follows the flags.
fn print_rest(h: Header) {
    let correction = h.correction_field;
    let source = h.source_port_identity;
    let interval = h.log_message_interval;
    print_flag(correction < 0);
    print(correction.cast_unsigned(), 16);
    print(source.clock_identity, 16);
    print16(source.port_number);
    print16(h.sequence_id);
    print_flag(interval < 0);
    print8(interval.cast_unsigned());
}

fn print_header(d: DeserializedHeader) {
    let h = d.header;
    let message_type = d.message_type;
    let version = h.version;
    print8(message_type.number());
    print16(d.message_length);
    print16(h.sdo_id);
    print8(version.major);
    print8(version.minor);
    print8(h.domain_number);
    print_flags(h);
    print_rest(h);
}

fn print_announce(a: AnnounceMessage) {
    let origin = a.origin_timestamp;
    let offset = a.current_utc_offset;
    let quality = a.grandmaster_clock_quality;
    print(origin.seconds, 12);
    print(u64::from(origin.nanos), 8);
    print_flag(offset < 0);
    print16(offset.cast_unsigned());
    print8(a.grandmaster_priority_1);
    print8(quality.clock_class);
    print8(quality.clock_accuracy);
    print16(quality.offset_scaled_log_variance);
    print8(a.grandmaster_priority_2);
    print(a.grandmaster_identity, 16);
    print16(a.steps_removed);
    print8(a.time_source);
}

// Writes the header again, over a content of the length that the message's length field says: none where it says less than a header.
fn print_header_again(d: DeserializedHeader) {
    let content = usize::from(d.message_length).saturating_sub(HEADER_SIZE);
    let mut target = [UNWRITTEN; HEADER_SIZE];
    let _ = header_writer::serialize_header(d.header, d.message_type, content, &mut target);
    print_bytes(&target);
}

// Writes the content again.
fn print_announce_again(a: AnnounceMessage) {
    let mut target = [UNWRITTEN; CONTENT_SIZE];
    let _ = announce_writer::serialize_content(a, &mut target);
    print_bytes(&target);
}

// Answers the content of an announce.
fn answer_content(h: Header, content: &[u8]) {
    match announce::deserialize_content(h, content) {
        Ok(a) => {
            print8(0);
            print_announce(a);
            print_announce_again(a);
        }
        Err(why) => print8(why.number()),
    }
}

// Answers a frame: any line has the right shape.
fn answer_frame(frame: &[u8]) -> bool {
    match header::deserialize_header(frame) {
        Ok(d) => {
            replay::print_first(0);
            print_header(d);
            print_header_again(d);
            if d.message_type == MessageType::Announce {
                answer_content(d.header, &frame[HEADER_SIZE..]);
            }
        }
        Err(why) => replay::print_first(why.number()),
    }
    true
}

fn main(rt: HostRuntime) {
    replay_lines::run(rt.stdin(), answer_frame);
}
