// Cases of the writer of frames: what it refuses, the bytes that it leaves, and what it wrote, read.
use announce::AnnounceMessage;
use refused::Refusal;
use vectors::frames::F;
use vectors::up::UP_AGAIN;
use vectors::{frames, framing, room, up};

// A TLV.
const ENTRY: [u8; 6] = *b"\x00\x08\x00\x02\x01\x02";

// An empty TLV before it.
const AFTER_EMPTY: [u8; 10] = *b"\x00\x08\x00\x00\x00\x08\x00\x02\x01\x02";

// The message F(1) with the sdo, the versions and the seconds as told.
fn message(sdo: u16, major: u8, minor: u8, seconds: u64) -> AnnounceMessage {
    frames::timed(frames::versioned(sdo, major, minor), seconds)
}

// Whether a message is refused so in a room, and every byte left.
fn refused(a: AnnounceMessage, tlvs: &[u8], room: usize, why: Refusal) -> bool {
    let mut target = [0u8; 96];
    room::fill(&mut target);
    framing::write(a, tlvs, &mut target, room) == Err(why) && room::holds_over(&target, b"")
}

// Whether a message is taken in a room, and its bytes are these 64, but for byte 46, and the TLVs; every other byte is left.
fn taken(a: AnnounceMessage, tlvs: &[u8], room: usize, head: [u8; 64]) -> bool {
    let mut target = [0u8; 96];
    let mut want = [0u8; 96];
    room::fill(&mut target);
    framing::lay(&mut want, &head, tlvs);
    want[46] = room::laid(46);
    let end = 64 + tlvs.len() % 32;
    framing::write(a, tlvs, &mut target, room).is_ok()
        && room::holds_over(&target, framing::first(&want, end))
}

// A message that will not fit, with a TLV.
fn field(sdo: u16, major: u8, minor: u8, seconds: u64, room: usize) -> bool {
    refused(
        message(sdo, major, minor, seconds),
        &ENTRY,
        room,
        Refusal::Unfit,
    )
}

// TLVs that are not made of whole even entries.
fn tlvs(bytes: &[u8], room: usize) -> bool {
    refused(frames::f_message(), bytes, room, Refusal::Unfit)
}

// Each that will not fit, in a room of 96 bytes and in three that are short.
pub fn unfit(n: u64) -> bool {
    let room: usize = match n % 4 {
        0 => 96,
        1 => 63,
        2 => 33,
        _ => 0,
    };
    unfit_field(n / 4, room)
}

fn unfit_field(n: u64, room: usize) -> bool {
    match n {
        0 => field(0x1000, 2, 0, 0, room),
        1 => field(0xFFFF, 2, 0, 0, room),
        2 => field(0, 16, 0, 0, room),
        3 => field(0, 255, 0, 0, room),
        4 => field(0, 2, 16, 0, room),
        5 => field(0, 2, 255, 0, room),
        6 => field(0, 2, 0, 0x1_0000_0000_0000, room),
        7 => field(0, 2, 0, u64::MAX, room),
        _ => unfit_tlvs(n, room),
    }
}

fn unfit_tlvs(n: u64, room: usize) -> bool {
    match n {
        8 => tlvs(b"\x00\x08\x00\x01\x01\x02", room),
        9 => tlvs(b"\x00\x08\x00\x01\x01", room),
        10 => tlvs(b"\x00\x08\x00\x04\x01\x02", room),
        11 => tlvs(b"\x00\x08\x00\x02\x01", room),
        12 => tlvs(b"\x00\x08\xFF\xFE\x01\x02", room),
        13 => tlvs(b"\x00\x08\xFF\xFF\x01\x02", room),
        14 => tlvs(b"\x00", room),
        15 => tlvs(b"\x00\x08", room),
        16 => tlvs(b"\x00\x08\x00", room),
        17 => tlvs(b"\x00\x08\x00\x01", room),
        18 => tlvs(b"\x00\x08\x00\x02", room),
        19 => tlvs(b"\x00\x08\x00\x02\x01\x02\x00", room),
        20 => tlvs(b"\x00\x08\x00\x02\x01\x02\x00\x08", room),
        21 => tlvs(b"\x00\x08\x00\x02\x01\x02\x00\x08\x00", room),
        22 => tlvs(b"\x00\x08\x00\x02\x01\x02\x00\x08\x00\x01\x01", room),
        23 => tlvs(b"\x00\x08\x00\x00\x00", room),
        _ => tlvs(b"\x00\x08\x00\x00\x00\x08\x00\x02\x01", room),
    }
}

// The message with a field at its limit, whose n bytes from at on are these, with a TLV and without.
fn limit(a: AnnounceMessage, at: usize, n: usize, x: u64) -> bool {
    let mut head = F;
    room::put(&mut head, at, n, x);
    taken(a, &ENTRY, 96, head) && taken(a, &ENTRY, 70, head) && taken(a, b"", 64, head)
}

// F(1) with TLVs.
fn with(tlvs: &[u8]) -> bool {
    taken(frames::f_message(), tlvs, 96, F)
}

// What is nearest to what will not fit, and TLVs of any type, also empty.
pub fn fit(n: u64) -> bool {
    match n {
        0 => limit(message(0xFFF, 2, 0, 0), 0, 6, 0xFB02_0000_00FF),
        1 => limit(message(0x100, 2, 0, 0), 0, 6, 0x1B02_0000_0000),
        2 => limit(message(0x0FF, 2, 0, 0), 0, 6, 0x0B02_0000_00FF),
        3 => limit(message(0, 15, 0, 0), 0, 6, 0x0B0F_0000_0000),
        4 => limit(message(0, 2, 15, 0), 0, 6, 0x0BF2_0000_0000),
        5 => limit(message(0, 0, 0, 0), 0, 6, 0x0B00_0000_0000),
        6 => limit(message(0, 2, 0, 0xFFFF_FFFF_FFFF), 34, 6, 0xFFFF_FFFF_FFFF),
        7 => limit(message(0, 2, 0, 0x0102_0304_0506), 34, 6, 0x0102_0304_0506),
        8 => with(&AFTER_EMPTY),
        9 => with(b"\xFF\xFF\x00\x02\xFF\xFF"),
        10 => with(b"\x00\x00\x00\x00"),
        11 => with(b"\x00\x08\x00\x02\x01\x02\x40\x00\x00\x04\x05\x06\x07\x08"),
        12 => with(b"\x00\x00\x00\x08\x00\x03\x00\x01\x00\x00\xFF\xFF"),
        _ => with(b"\x00\x00\x00\x00\x00\x01\x00\x00\x00\x02\x00\x00\x00\x03\x00\x00"),
    }
}

// F(1) with a TLV, and without, in each room from 0 to 96 bytes.
pub fn room(n: u64) -> bool {
    let size = (n % 97) as usize;
    if n < 97 {
        in_room(&ENTRY, size)
    } else {
        in_room(b"", size)
    }
}

// F(1) with up to six bytes of TLVs in a room.
fn in_room(tlvs: &[u8], room: usize) -> bool {
    if room < 64 + tlvs.len() % 32 {
        refused(frames::f_message(), tlvs, room, Refusal::Short)
    } else {
        taken(frames::f_message(), tlvs, room, F)
    }
}

// Whether a message with these TLVs is written as these 64 bytes and the TLVs, and what was written is answered so by the
// reader: alone, and with bytes after it.
fn read_back(a: AnnounceMessage, head: [u8; 64], tlvs: &[u8], answer: Result<(), Refusal>) -> bool {
    let mut target = [0u8; 96];
    room::fill(&mut target);
    let got = framing::write(a, tlvs, &mut target, 96);
    let end = 64 + tlvs.len() % 32;
    got.is_ok()
        && taken(a, tlvs, end, head)
        && framing::answers(&target, answer, a, end)
        && framing::answers(framing::first(&target, end), answer, a, end)
}

fn f_back(tlvs: &[u8], answer: Result<(), Refusal>) -> bool {
    read_back(frames::f_message(), F, tlvs, answer)
}

// An empty last entry is written, and refused by the reader; any other empty one is taken.
pub fn empty_last(n: u64) -> bool {
    match n {
        0 => f_back(b"\x00\x08\x00\x00", Err(Refusal::Short)),
        1 => f_back(
            b"\x00\x08\x00\x02\x01\x02\x00\x08\x00\x00",
            Err(Refusal::Short),
        ),
        2 => f_back(b"\x00\x08\x00\x00\x00\x08\x00\x00", Err(Refusal::Short)),
        3 => f_back(&AFTER_EMPTY, Ok(())),
        4 => f_back(&ENTRY, Ok(())),
        _ => f_back(b"", Ok(())),
    }
}

// F(1), or the message whose bytes differ, with these TLVs: written and read.
fn back(n: u64, tlvs: &[u8]) -> bool {
    if n % 2 == 0 {
        read_back(frames::f_message(), F, tlvs, Ok(()))
    } else {
        read_back(up::up_content(), UP_AGAIN, tlvs, Ok(()))
    }
}

pub fn written_read(n: u64) -> bool {
    match n / 2 {
        0 => back(n, b""),
        1 => back(n, b"\x00\x08\x00\x02\x01\x02"),
        2 => back(n, b"\x00\x08\x00\x00\x00\x08\x00\x02\x01\x02"),
        3 => back(
            n,
            b"\x40\x00\x00\x04\xAA\xBB\xCC\xDD\xFF\xFF\x00\x02\x00\x00",
        ),
        4 => back(n, b"\x00\x08\x00\x08\x00\x08\x00\x01\x00\x08\x00\x01"),
        _ => back(
            n,
            b"\x00\x00\x00\x00\x80\x09\x00\x02\x11\x22\x7F\xFF\x00\x02\x33\x44",
        ),
    }
}
