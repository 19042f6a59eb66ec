// A whole message, after messages/mod.rs: any bytes read as a frame.
#![tactic(auto)]

ghost use Rattle.std.specs.Prelude.{◌≡◌};
ghost use Rattle.refused.specs.Refusal.{number_in};
ghost use Rattle.frame.specs.Frame.{refusal_of, frame_refusal, read_frame};

use announce::{AnnounceMessage, CONTENT_SIZE};
use header::HEADER_SIZE;
use message_type::MessageType;
use refused::Refusal;

// An announce, with its header, and where in the frame its TLVs begin and end.
#[derive(Clone, Copy)]
pub struct Message {
    pub announce: AnnounceMessage,
    pub tlv_start: usize,
    pub tlv_end: usize,
}

// Where the TLVs of an announce begin.
pub const TLV_START: usize = HEADER_SIZE + CONTENT_SIZE;

// The checks of a type, a length field and the number of bytes given.
fn refusal_of(number: u8, size: usize, given: usize) -> Result<(), Refusal>
    ensures { number_in result ≡ refusal_of number size given }
{
    let message_type = MessageType::try_from(number)?;
    if size < HEADER_SIZE {
        return Err(Refusal::LengthField);
    }
    if given < size {
        return Err(Refusal::Short);
    }
    if message_type != MessageType::Announce {
        return Err(Refusal::NoAnnounce);
    }
    if size < TLV_START {
        return Err(Refusal::Short);
    }
    Ok(())
}

// The refusal of a frame, in the paper's order, where there is one.
fn frame_refusal(s: &[u8]) -> Result<(), Refusal>
    ensures { number_in result ≡ frame_refusal s.now }
{
    if s.len() < HEADER_SIZE {
        return Err(Refusal::Short);
    }
    let size = wire::u16_at(s, 2) as usize;
    refusal_of(wire::u8_at(s, 0) % 16, size, s.len())?;
    tlv::check(&s[TLV_START..size])
}

// Reads a frame. Bytes after the message are ignored.
pub fn read_frame(s: &[u8]) -> Result<Message, Refusal>
    ensures { result ≡ read_frame s.now }
{
    frame_refusal(s)?;
    let header = header::header_at(s);
    Ok(Message {
        announce: announce::content_at(header, s, HEADER_SIZE),
        tlv_start: TLV_START,
        tlv_end: wire::u16_at(s, 2) as usize,
    })
}
