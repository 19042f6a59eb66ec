// Cases of the number of bytes given, and of the length field.
use refused::Refusal;
use vectors::frames::LONG;
use vectors::framing;

// F(1) with each number of bytes from 0 to 70: the bytes from 64 on are no part of it.
pub fn given(n: u64) -> bool {
    let answer = if n < 64 { Err(Refusal::Short) } else { Ok(()) };
    framing::f_answers(&LONG[..(n % 71) as usize], answer, 64)
}

// The same with the six bytes after it as its TLVs: the length field says 70.
pub fn given_tlv(n: u64) -> bool {
    let size = (n % 71) as usize;
    let mut frame = LONG;
    frame[3] = 70;
    let answer = if n < 70 { Err(Refusal::Short) } else { Ok(()) };
    framing::f_answers(framing::first(&frame, size), answer, 70)
}

// Every length field over 70 bytes, of which the last six are an entry.
pub fn length_field(n: u64) -> bool {
    let mut frame = LONG;
    wire::put_be(&mut frame, 2, 2, n);
    let answer = match n {
        64 | 70 => Ok(()),
        0..=33 => Err(Refusal::LengthField),
        _ => Err(Refusal::Short),
    };
    framing::f_answers(&frame, answer, n as usize)
}

// The same where the entry's length is 1: it is looked at where more than 4 bytes remain.
pub fn odd_length_field(n: u64) -> bool {
    let mut frame = LONG;
    wire::put_be(&mut frame, 2, 2, n);
    frame[67] = 1;
    let answer = match n {
        64 => Ok(()),
        69 | 70 => Err(Refusal::OddTlv),
        0..=33 => Err(Refusal::LengthField),
        _ => Err(Refusal::Short),
    };
    framing::f_answers(&frame, answer, n as usize)
}
