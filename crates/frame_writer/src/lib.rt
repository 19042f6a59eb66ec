// Writing a whole message, after messages/mod.rs: an announce with its TLVs as one frame.
#![tactic(auto)]

ghost use Rattle.std.specs.Prelude.{◌≡◌, ◌+◌, ◌≤◌, length};
ghost use Rattle.refused.specs.Refusal.{number_in};
ghost use Rattle.frame_writer.specs.Frame.{fits_of, with_frame, write_answer, write_exit};

use announce::{AnnounceMessage, CONTENT_SIZE};
use frame::TLV_START;
use header::HEADER_SIZE;
use message_type::MessageType;
use refused::Refusal;

// Whether the wire can hold an announce with these TLVs.
#[tactic(auto, unfolding(crate::specs::Frame::fits_of))]
fn fits_wire(a: AnnounceMessage, tlvs: &[u8]) -> bool
    ensures { result ≡ fits_of a tlvs.now }
{
    let h = a.header;
    let content = tlvs.len() + CONTENT_SIZE;
    header_writer::fits_wire(h.sdo_id, h.version.major, h.version.minor, content)
        && announce_writer::fits_wire(a.origin_timestamp.seconds)
        && tlv::whole_entries(tlvs)
}

// Writes the whole message at the start of a buffer with room for it.
fn put_frame(a: AnnounceMessage, tlvs: &[u8], s: &mut [u8])
    requires { (length tlvs.now + 64 ≤ length s.old) × (length tlvs.now + 64 ≤ 65535) }
    ensures { s.new ≡ with_frame s.old a tlvs.now }
{
    let size = (tlvs.len() + TLV_START) as u16;
    header_writer::put_header(a.header, MessageType::Announce, size, s);
    announce_writer::put_content(a, s, HEADER_SIZE);
    wire::put_bytes(s, TLV_START, tlvs);
}

// Writes an announce with its TLVs: refused 15 where the wire cannot hold it, then 1 where the buffer is short.
// A refusal writes nothing.
pub fn write_frame(a: AnnounceMessage, tlvs: &[u8], buffer: &mut [u8]) -> Result<(), Refusal>
    ensures { (number_in result ≡ write_answer buffer.old a tlvs.now) × (buffer.new ≡ write_exit buffer.old a tlvs.now) }
{
    if !fits_wire(a, tlvs) {
        return Err(Refusal::Unfit);
    }
    if buffer.len() < tlvs.len() + TLV_START {
        return Err(Refusal::Short);
    }
    put_frame(a, tlvs, buffer);
    Ok(())
}
