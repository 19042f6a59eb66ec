// Cases of the types, and of the length field, which the calls do not look at.
use crate::reading;
use message_type::MessageType;
use refused::Refusal;
use vectors::frames::{F, Message};
use vectors::{codec, frames};

fn message(kind: MessageType, length: u16) -> Message {
    Message {
        kind,
        length,
        content: frames::f_message(),
    }
}

// F(1) with each type: read as that type and written again with its control, or refused 2.
pub fn nibble(n: u64) -> bool {
    let mut frame = F;
    frame[0] = (n % 16) as u8;
    frame[32] = frames::control(n);
    frame[46] = 0xA5;
    match frames::named(n) {
        Some(kind) => codec::round(&frame, message(kind, 64), 0xA5, &frame),
        None => codec::refuses(&frame, Refusal::ReservedType),
    }
}

// Every byte as a type.
pub fn byte(n: u64) -> bool {
    let number = (n % 256) as u8;
    let got = MessageType::try_from(number);
    match frames::named(n) {
        Some(kind) => {
            got == Ok(kind) && kind.number() == number && kind.control_field() == frames::control(n)
        }
        None => got == Err(Refusal::ReservedType),
    }
}

// Every length field: read as it is, and written again as 64.
pub fn length_field(n: u64) -> bool {
    let want = message(MessageType::Announce, (n % 65536) as u16);
    reading::changed(2, 2, n, 0x0040, want)
}
