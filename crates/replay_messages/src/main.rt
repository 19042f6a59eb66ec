// Answers each line of the input, a frame in hexadecimal digits, with the TLVs of the message that it holds and with that message written
// again: the lines of the oracle's subcommand messages.
#![tactic(auto)]

ghost use Rattle.std.specs.Prelude.{◌≤◌, length};

use announce::AnnounceMessage;
use frame::TLV_START;
use replay::{print_bytes, print_flag, print8, print16};
use tlv::{TlvCursor, TlvRead};
use tlv_builder::TlvSetBuilder;
use tlv_type::TlvType;

// The longest frame, as long as the bytes of a line.
const MAX_FRAME: usize = 2048;

// The longest list of TLVs in a frame.
const MAX_TLVS: usize = MAX_FRAME - TLV_START;

// How many bytes behind a written message are shown.
const BEHIND: usize = 2;

// What lies where entries and messages are written to.
const UNWRITTEN: u8 = 0xa5;

// Writes what an entry's type and length are. A kind without a name has the code 0.
fn print_entry(tlv_type: u16, len: usize) {
    let kind = TlvType::from(tlv_type);
    print16(u16::from(kind));
    print8(kind_code::name_code(kind).unwrap_or(0));
    print_flag(kind.announce_propagate());
    replay::print(len as u64, 4);
}

// Adds an entry to the list that is built, or shows the number of the refusal.
fn add_entry(
    builder: TlvSetBuilder,
    buffer: &mut [u8],
    tlv_type: u16,
    value: &[u8],
) -> TlvSetBuilder
    requires { builder.used ≤ length buffer.old }
    ensures { result.used ≤ length buffer.old }
{
    match builder.add(buffer, tlv_type, value) {
        Ok(after) => after,
        Err(why) => {
            print8(why.number());
            builder
        }
    }
}

// Writes the entries of a list, and builds the list again in a buffer: how many of its bytes are used then. A refusal, which a list that was
// checked has none of, is shown.
fn answer_tlvs(tlvs: &[u8], buffer: &mut [u8]) -> usize
    ensures { result ≤ length buffer.old }
{
    let mut cursor = TlvCursor::new();
    let mut builder = TlvSetBuilder::new();
    loop {
        match cursor.next(tlvs) {
            Ok(
                TlvRead::Entry {
                    tlv_type,
                    start,
                    len,
                    next,
                },
            ) => {
                let end = start + len;
                print_entry(tlv_type, len);
                builder = add_entry(builder, buffer, tlv_type, &tlvs[start..end]);
                cursor = next;
            }
            Ok(TlvRead::End) => return builder.used,
            Err(why) => {
                print8(why.number());
                return builder.used;
            }
        }
    }
}

// Writes the message again. A refusal, which a message that was read has none of, is shown.
fn answer_again(a: AnnounceMessage, tlvs: &[u8], target: &mut [u8]) {
    if let Err(why) = frame_writer::write_frame(a, tlvs, target) {
        print8(why.number());
    }
    print_bytes(target);
}

// Answers a message with these TLVs.
fn answer_message(a: AnnounceMessage, tlvs: &[u8]) {
    let mut buffer = [UNWRITTEN; MAX_TLVS];
    let mut target = [UNWRITTEN; MAX_FRAME + BEHIND];
    let used = answer_tlvs(tlvs, &mut buffer);
    let size = used + (TLV_START + BEHIND);
    answer_again(a, &buffer[..used], &mut target[..size]);
}

// Answers a frame: any line has the right shape.
fn answer_frame(frame: &[u8]) -> bool {
    match frame::read_frame(frame) {
        Ok(message) => {
            replay::print_first(0);
            let start = message.tlv_start;
            let end = message.tlv_end;
            answer_message(message.announce, &frame[start..end]);
        }
        Err(why) => replay::print_first(why.number()),
    }
    true
}

fn main(rt: HostRuntime) {
    replay_lines::run(rt.stdin(), answer_frame);
}
