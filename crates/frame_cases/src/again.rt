// Cases of frames that are read and written again.
use vectors::frames::F;
use vectors::framing;
use vectors::up::{UP, UP_AGAIN};

// Whether a frame of these 64 bytes and TLVs, written again over bytes of 55, gives those 64 bytes and the TLVs, and does so a
// second time.
fn twice(head: [u8; 64], tlvs: &[u8], again: [u8; 64]) -> bool {
    let mut frame = [0xA5u8; 96];
    let mut target = [0x55u8; 96];
    let mut want = [0x55u8; 96];
    framing::lay(&mut frame, &head, tlvs);
    framing::lay(&mut want, &again, tlvs);
    let one = framing::rewrite(&frame, &mut target);
    let once = target;
    let two = framing::rewrite(&once, &mut target);
    one.is_ok() && two.is_ok() && once == want && target == want
}

// F(1) with all bits that are ignored, and with each control byte, each byte 46 and each of bytes 16 to 19.
pub fn ignored(n: u64) -> bool {
    let v = (n % 256) as u8;
    let mut head = F;
    let mut again = F;
    head[6] = 0x98;
    head[7] = 0x80;
    head[16] = v;
    head[17] = 255 - v;
    head[18] = v;
    head[19] = 255;
    head[32] = v;
    head[46] = v;
    again[46] = 0x55;
    let mut frame = [0xA5u8; 96];
    framing::lay(&mut frame, &head, b"\x00\x08\x00\x02\x01\x02");
    framing::f_answers(&frame, Ok(()), 70) && twice(head, b"\x00\x08\x00\x02\x01\x02", again)
}

// The frame whose bytes differ, with these TLVs.
fn up_twice(tlvs: &[u8]) -> bool {
    twice(UP, tlvs, UP_AGAIN)
}

pub fn again(n: u64) -> bool {
    match n {
        0 => up_twice(b""),
        1 => up_twice(b"\x00\x08\x00\x02\x01\x02"),
        2 => up_twice(b"\x00\x08\x00\x00\x00\x08\x00\x02\x01\x02"),
        3 => up_twice(b"\x40\x00\x00\x04\xAA\xBB\xCC\xDD\xFF\xFF\x00\x02\x00\x00"),
        4 => up_twice(b"\x00\x08\x00\x08\x00\x08\x00\x01\x00\x08\x00\x01"),
        _ => up_twice(b"\x00\x00\x00\x00\x80\x09\x00\x02\x11\x22\x7F\xFF\x00\x02\x33\x44"),
    }
}
