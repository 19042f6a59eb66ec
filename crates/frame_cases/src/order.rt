// Cases of the type, and of the order in which a frame is checked.
use message_type::MessageType;
use refused::Refusal;
use vectors::frames::LONG;
use vectors::{frames, framing};

// The answer for a reserved type, for a known one that is no announce, and for an announce.
fn by_type(
    number: u64,
    other: Result<(), Refusal>,
    announce: Result<(), Refusal>,
) -> Result<(), Refusal> {
    match frames::named(number) {
        None => Err(Refusal::ReservedType),
        Some(MessageType::Announce) => announce,
        Some(_) => other,
    }
}

// 70 bytes of a type, below an sdo of 0 or 0xF00, whose length field says this.
fn of_type(number: u64, high: u64, length: u64, answer: Result<(), Refusal>) -> bool {
    let mut frame = LONG;
    frame[0] = (high % 2 * 0xF0 + number % 16) as u8;
    wire::put_be(&mut frame, 2, 2, length);
    let mut h = frames::f_header(1);
    h.sdo_id = (high % 2 * 0xF00) as u16;
    framing::answers(&frame, answer, frames::f_content(h), length as usize)
}

// Each type at six length fields.
pub fn typed(n: u64) -> bool {
    let number = n % 16;
    let high = n / 16 % 2;
    match n / 32 {
        0 => of_type(
            number,
            high,
            33,
            by_type(number, Err(Refusal::LengthField), Err(Refusal::LengthField)),
        ),
        1 => of_type(
            number,
            high,
            34,
            by_type(number, Err(Refusal::NoAnnounce), Err(Refusal::Short)),
        ),
        2 => of_type(
            number,
            high,
            63,
            by_type(number, Err(Refusal::NoAnnounce), Err(Refusal::Short)),
        ),
        3 => of_type(
            number,
            high,
            64,
            by_type(number, Err(Refusal::NoAnnounce), Ok(())),
        ),
        4 => of_type(
            number,
            high,
            70,
            by_type(number, Err(Refusal::NoAnnounce), Ok(())),
        ),
        _ => of_type(
            number,
            high,
            71,
            by_type(number, Err(Refusal::Short), Err(Refusal::Short)),
        ),
    }
}

// The first bytes of a frame of a type and a length field, with an entry whose length is as told before its two bytes.
fn case(number: u8, length: u64, given: usize, entry: u8, answer: Result<(), Refusal>) -> bool {
    let mut frame = LONG;
    frame[0] = number;
    wire::put_be(&mut frame, 2, 2, length);
    frame[67] = entry;
    framing::f_answers(framing::first(&frame, given), answer, length as usize)
}

// Two reasons to refuse, or one and none.
pub fn order(n: u64) -> bool {
    match n {
        0 => case(0x0, 70, 70, 1, Err(Refusal::NoAnnounce)),
        1 => case(0xC, 70, 70, 4, Err(Refusal::NoAnnounce)),
        2 => case(0xD, 69, 70, 2, Err(Refusal::NoAnnounce)),
        3 => case(0x2, 66, 70, 2, Err(Refusal::NoAnnounce)),
        4 => case(0xB, 70, 70, 1, Err(Refusal::OddTlv)),
        5 => case(0xB, 70, 70, 4, Err(Refusal::Short)),
        6 => case(0xB, 64, 70, 1, Ok(())),
        7 => case(0x4, 33, 70, 2, Err(Refusal::ReservedType)),
        8 => case(0xF, 0, 70, 2, Err(Refusal::ReservedType)),
        9 => case(0x7, 65535, 70, 2, Err(Refusal::ReservedType)),
        10 => case(0xE, 64, 34, 2, Err(Refusal::ReservedType)),
        11 => case(0x5, 64, 33, 2, Err(Refusal::Short)),
        12 => case(0xF, 0, 0, 2, Err(Refusal::Short)),
        13 => case(0xB, 33, 33, 2, Err(Refusal::Short)),
        14 => case(0xB, 33, 34, 2, Err(Refusal::LengthField)),
        _ => order_on(n),
    }
}

fn order_on(n: u64) -> bool {
    match n {
        15 => case(0x0, 0, 34, 2, Err(Refusal::LengthField)),
        16 => case(0x8, 33, 64, 2, Err(Refusal::LengthField)),
        17 => case(0x0, 44, 44, 2, Err(Refusal::NoAnnounce)),
        18 => case(0x0, 45, 44, 2, Err(Refusal::Short)),
        19 => case(0x9, 34, 34, 2, Err(Refusal::NoAnnounce)),
        20 => case(0x9, 35, 34, 2, Err(Refusal::Short)),
        21 => case(0xB, 34, 34, 2, Err(Refusal::Short)),
        22 => case(0xB, 65, 64, 2, Err(Refusal::Short)),
        23 => case(0xB, 71, 70, 1, Err(Refusal::Short)),
        24 => case(0xB, 64, 64, 2, Ok(())),
        25 => case(0xC, 64, 63, 2, Err(Refusal::Short)),
        26 => case(0xD, 65535, 70, 2, Err(Refusal::Short)),
        27 => case(0xB, 69, 69, 1, Err(Refusal::OddTlv)),
        28 => case(0xB, 68, 70, 1, Err(Refusal::Short)),
        _ => case(0xB, 70, 70, 0, Err(Refusal::Short)),
    }
}
