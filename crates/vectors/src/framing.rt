// The calls of frame on whole frames.
use crate::frames;
use announce::AnnounceMessage;
use refused::Refusal;

// The first of a list, or all where there are fewer.
pub fn first<T>(s: &[T], size: usize) -> &[T] {
    &s[..size.min(s.len())]
}

// The same of a target.
pub fn first_mut<T>(s: &mut [T], size: usize) -> &mut [T] {
    let end = size.min(s.len());
    &mut s[..end]
}

// Lays a message of 64 bytes and these TLVs into a frame, and the length of both into its length field, where there is room.
pub fn lay(frame: &mut [u8], head: &[u8; 64], tlvs: &[u8]) {
    let n = tlvs.len();
    if n <= 65471 && 64 + n <= frame.len() {
        wire::put_bytes(frame, 0, head);
        wire::put_be(frame, 2, 2, (64 + n) as u64);
        wire::put_bytes(frame, 64, tlvs);
    }
}

// Whether a frame is answered so: refused, or taken as this message with its TLVs from byte 64 up to this end.
pub fn answers(s: &[u8], answer: Result<(), Refusal>, want: AnnounceMessage, end: usize) -> bool {
    match frame::read_frame(s) {
        Ok(m) => answer.is_ok() && m.announce == want && m.tlv_start == 64 && m.tlv_end == end,
        Err(why) => answer == Err(why),
    }
}

// The same of the message F(1).
pub fn f_answers(s: &[u8], answer: Result<(), Refusal>, end: usize) -> bool {
    answers(s, answer, frames::f_message(), end)
}

// Writes a message into the first bytes of the target.
pub fn write(
    a: AnnounceMessage,
    tlvs: &[u8],
    target: &mut [u8],
    size: usize,
) -> Result<(), Refusal> {
    frame_writer::write_frame(a, tlvs, first_mut(target, size))
}

// Reads a frame and writes it again with its TLVs, which are within it.
pub fn rewrite(s: &[u8], target: &mut [u8]) -> Result<(), Refusal> {
    let m = frame::read_frame(s)?;
    let tlvs = s.get(m.tlv_start..m.tlv_end).ok_or(Refusal::Short)?;
    frame_writer::write_frame(m.announce, tlvs, target)
}
