// The calls under test on whole frames.
use crate::frames::Message;
use crate::{frames, framing, room};
use announce::AnnounceMessage;
use header::{DeserializedHeader, Header};
use message_type::MessageType;
use refused::Refusal;

// Writes a header into the first bytes of the target.
pub fn write_header(
    h: Header,
    kind: MessageType,
    content: usize,
    target: &mut [u8],
    size: usize,
) -> Result<(), Refusal> {
    header_writer::serialize_header(h, kind, content, framing::first_mut(target, size))
}

// Writes a content into bytes of the target from 34 on.
pub fn write_content(a: AnnounceMessage, target: &mut [u8], size: usize) -> Result<(), Refusal> {
    let room = target.get_mut(34..).unwrap_or(&mut []);
    announce_writer::serialize_content(a, framing::first_mut(room, size))
}

// Whether a message, written over a content of 30 bytes into a target of 70 bytes of one value, gives these bytes
// and leaves those after them.
pub fn gives(a: AnnounceMessage, kind: MessageType, fill: u8, bytes: &[u8]) -> bool {
    let mut target = [fill; 70];
    header_writer::serialize_header(a.header, kind, 30, &mut target).is_ok()
        && write_content(a, &mut target, 36).is_ok()
        && room::holds(&target, bytes, fill)
}

// Reads the content of a frame, after a header.
fn read_content(h: Header, frame: &[u8]) -> Result<AnnounceMessage, Refusal> {
    announce::deserialize_content(h, frame.get(34..).unwrap_or(b""))
}

// Reads a frame, header and content.
fn read(frame: &[u8]) -> Result<Message, Refusal> {
    let d = header::deserialize_header(frame)?;
    let content = read_content(d.header, frame)?;
    Ok(Message {
        kind: d.message_type,
        length: d.message_length,
        content,
    })
}

// Whether a frame reads as wanted and, written again over bytes of one value, gives these bytes.
pub fn round(frame: &[u8], want: Message, fill: u8, bytes: &[u8]) -> bool {
    read(frame) == Ok(want) && gives(want.content, want.kind, fill, bytes)
}

// Whether a frame's header is refused so.
pub fn refuses(frame: &[u8], why: Refusal) -> bool {
    header::deserialize_header(frame) == Err(why)
}

// Whether a frame's header is that of F(1).
pub fn reads_header(frame: &[u8]) -> bool {
    let want = DeserializedHeader {
        header: frames::f_header(1),
        message_type: MessageType::Announce,
        message_length: 64,
    };
    header::deserialize_header(frame) == Ok(want)
}

// Whether a frame's content is refused so.
pub fn refuses_content(frame: &[u8], why: Refusal) -> bool {
    read_content(frames::f_header(1), frame) == Err(why)
}
