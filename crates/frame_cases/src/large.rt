// Cases of the longest messages that are read: 65,534 bytes, of which 65,470 are TLVs.
use refused::Refusal;
use vectors::frames::F;
use vectors::{framing, room};

// Lays F(1) with a length field and an entry of a length, whose value is what lies there.
fn lay(frame: &mut [u8], length: u64, entry: u64) {
    if 68 <= frame.len() {
        wire::put_bytes(frame, 0, &F);
        wire::put_be(frame, 2, 2, length);
        wire::put_be(frame, 64, 2, 8);
        wire::put_be(frame, 66, 2, entry);
    }
}

// The first bytes of such a frame.
fn one(length: u64, entry: u64, given: usize, answer: Result<(), Refusal>) -> bool {
    let mut frame = io::large_buffer();
    room::fill(&mut frame);
    lay(&mut frame, length, entry);
    framing::f_answers(framing::first(&frame, given), answer, length as usize)
}

pub fn read(n: u64) -> bool {
    match n {
        0 => one(65534, 65466, 65534, Ok(())),
        1 => one(65534, 65466, 65535, Ok(())),
        2 => one(65534, 65466, 65536, Ok(())),
        3 => one(65534, 65466, 65533, Err(Refusal::Short)),
        4 => one(65535, 65466, 65535, Err(Refusal::Short)),
        5 => one(65535, 65467, 65535, Err(Refusal::OddTlv)),
        6 => one(65535, 65468, 65535, Err(Refusal::Short)),
        7 => one(65535, 65467, 65534, Err(Refusal::Short)),
        8 => one(65534, 65468, 65534, Err(Refusal::Short)),
        9 => one(65534, 65467, 65534, Err(Refusal::OddTlv)),
        10 => one(65534, 65464, 65534, Err(Refusal::Short)),
        11 => one(65535, 65464, 65535, Err(Refusal::Short)),
        12 => one(65535, 65466, 65536, Err(Refusal::Short)),
        13 => one(65533, 65466, 65533, Err(Refusal::Short)),
        14 => one(65533, 65464, 65533, Err(Refusal::Short)),
        _ => one(65532, 65464, 65532, Ok(())),
    }
}

// An entry of six bytes.
const ENTRY: [u8; 6] = *b"\x00\x08\x00\x02\x01\x02";

// Fills a frame from byte 68 on with such entries.
fn lay_entries(frame: &mut [u8]) {
    for (i, x) in frame.iter_mut().skip(68).enumerate() {
        *x = ENTRY[i % 6];
    }
}

// F(1) with an empty entry and entries of six bytes, of which the last, from byte 65,528 on, has a length as told.
fn entries(length: u64, last: u8, answer: Result<(), Refusal>) -> bool {
    let mut frame = io::large_buffer();
    lay(&mut frame, length, 0);
    lay_entries(&mut frame);
    frame[65531] = last;
    framing::f_answers(&frame, answer, length as usize)
}

pub fn many(n: u64) -> bool {
    match n {
        0 => entries(65534, 2, Ok(())),
        1 => entries(65528, 2, Ok(())),
        2 => entries(65529, 2, Err(Refusal::Short)),
        3 => entries(65532, 2, Err(Refusal::Short)),
        4 => entries(65533, 2, Err(Refusal::Short)),
        5 => entries(65535, 2, Err(Refusal::Short)),
        6 => entries(65534, 1, Err(Refusal::OddTlv)),
        7 => entries(65534, 4, Err(Refusal::Short)),
        8 => entries(65532, 1, Err(Refusal::Short)),
        _ => entries(65533, 1, Err(Refusal::OddTlv)),
    }
}
