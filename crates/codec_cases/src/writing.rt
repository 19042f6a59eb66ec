// Cases of the writers: what they refuse, and the bytes that they leave.
use announce::AnnounceMessage;
use message_type::MessageType;
use refused::Refusal;
use vectors::frames::F;
use vectors::{codec, frames, room};

// What lies in the targets.
const LAY: [u8; 70] = *b"\
    \xC3\x15\x67\xB9\x0B\x5D\xAF\x01\
    \x53\xA5\xF7\x49\x9B\xED\x3F\x91\
    \xE3\x35\x87\xD9\
    \x2B\x7D\xCF\x21\x73\xC5\x17\x69\xBB\x0D\
    \x5F\xB1\x03\x55\
    \xA7\xF9\x4B\x9D\xEF\x41\x93\xE5\x37\x89\
    \xDB\x2D\
    \x7F\
    \xD1\
    \x23\x75\xC7\x19\x6B\
    \xBD\x0F\x61\xB3\x05\x57\xA9\xFB\
    \x4D\x9F\xF1\
    \x43\x95\xE7\x39\x8B\xDD";

// The same with the header of F(1).
const HEADED: [u8; 70] = *b"\
    \x0B\x02\x00\x40\x00\x00\x00\x00\
    \x00\x00\x00\x00\x00\x00\x00\x00\
    \x00\x00\x00\x00\
    \x00\x00\x00\x00\x00\x00\x00\x01\x00\x01\
    \x00\x01\x05\x00\
    \xA7\xF9\x4B\x9D\xEF\x41\x93\xE5\x37\x89\
    \xDB\x2D\
    \x7F\
    \xD1\
    \x23\x75\xC7\x19\x6B\
    \xBD\x0F\x61\xB3\x05\x57\xA9\xFB\
    \x4D\x9F\xF1\
    \x43\x95\xE7\x39\x8B\xDD";

// The same with the content of F(1), but for its reserved byte.
const FILLED: [u8; 70] = *b"\
    \xC3\x15\x67\xB9\x0B\x5D\xAF\x01\
    \x53\xA5\xF7\x49\x9B\xED\x3F\x91\
    \xE3\x35\x87\xD9\
    \x2B\x7D\xCF\x21\x73\xC5\x17\x69\xBB\x0D\
    \x5F\xB1\x03\x55\
    \x00\x00\x00\x00\x00\x00\x00\x00\x00\x00\
    \x00\x00\
    \x7F\
    \x80\
    \x06\x20\x4E\x5D\x80\
    \x00\x00\x00\x00\x00\x00\x00\x01\
    \x00\x00\x20\
    \x43\x95\xE7\x39\x8B\xDD";

// Whether a writer refuses so and leaves every byte.
fn refused<W: FnOnce(&mut [u8; 70]) -> Result<(), Refusal>>(write: W, why: Refusal) -> bool
    requires { W.IsAlwaysCallable write }
{
    let mut target = LAY;
    write(&mut target) == Err(why) && target == LAY
}

// Whether a writer takes what it is given and writes these bytes, with these six from a place on.
fn taken<W: FnOnce(&mut [u8; 70]) -> Result<(), Refusal>>(
    write: W,
    bytes: [u8; 70],
    at: usize,
    six: u64,
) -> bool
    requires { W.IsAlwaysCallable write }
{
    let mut target = LAY;
    let mut want = bytes;
    room::put(&mut want, at, 6, six);
    write(&mut target).is_ok() && target == want
}

// Whether the writer of headers refuses so and leaves every byte.
fn header_refused(
    sdo: u16,
    major: u8,
    minor: u8,
    content: usize,
    size: usize,
    why: Refusal,
) -> bool {
    let h = frames::versioned(sdo, major, minor);
    refused(
        |target| codec::write_header(h, MessageType::Announce, content, target, size),
        why,
    )
}

// Whether the writer of headers takes the header, writes F(1) with these six bytes at the start, and leaves the rest.
fn header_taken(sdo: u16, major: u8, minor: u8, content: usize, size: usize, six: u64) -> bool {
    let h = frames::versioned(sdo, major, minor);
    taken(
        |target| codec::write_header(h, MessageType::Announce, content, target, size),
        HEADED,
        0,
        six,
    )
}

// What the writer of headers refuses, and the nearest that it takes.
pub fn header_limit(n: u64) -> bool {
    match n {
        0 => header_refused(0x1000, 2, 0, 30, 64, Refusal::Unfit),
        1 => header_refused(0xFFFF, 2, 0, 30, 64, Refusal::Unfit),
        2 => header_taken(0xFFF, 2, 0, 30, 64, 0xFB02_0040_00FF),
        3 => header_refused(0, 16, 0, 30, 64, Refusal::Unfit),
        4 => header_taken(0, 15, 0, 30, 64, 0x0B0F_0040_0000),
        5 => header_refused(0, 2, 16, 30, 64, Refusal::Unfit),
        6 => header_taken(0, 2, 15, 30, 64, 0x0BF2_0040_0000),
        7 => header_refused(0, 2, 0, 65502, 64, Refusal::Unfit),
        8 => header_taken(0, 2, 0, 65501, 64, 0x0B02_FFFF_0000),
        9 => header_refused(0, 2, 0, usize::MAX, 64, Refusal::Unfit),
        10 => header_taken(0, 2, 0, 0, 64, 0x0B02_0022_0000),
        11 => header_refused(0, 2, 0, 30, 33, Refusal::Short),
        12 => header_taken(0, 2, 0, 30, 34, 0x0B02_0040_0000),
        13 => header_refused(0, 2, 0, 30, 0, Refusal::Short),
        14 => header_refused(0x1000, 2, 0, 30, 33, Refusal::Unfit),
        15 => header_refused(0, 16, 0, 30, 33, Refusal::Unfit),
        16 => header_refused(0, 2, 16, 30, 0, Refusal::Unfit),
        17 => header_refused(0, 2, 0, 65502, 33, Refusal::Unfit),
        _ => header_refused(0, 2, 0, usize::MAX, 0, Refusal::Unfit),
    }
}

// The content of F(1) with the seconds as told.
fn content_of(seconds: u64) -> AnnounceMessage {
    frames::timed(frames::f_header(1), seconds)
}

// Whether the writer of contents refuses so and leaves every byte.
fn content_refused(seconds: u64, size: usize, why: Refusal) -> bool {
    let a = content_of(seconds);
    refused(|target| codec::write_content(a, target, size), why)
}

// Whether the writer of contents takes the seconds, writes F(1)'s content with them, and leaves the rest.
fn content_taken(seconds: u64, size: usize, six: u64) -> bool {
    let a = content_of(seconds);
    taken(
        |target| codec::write_content(a, target, size),
        FILLED,
        34,
        six,
    )
}

// What the writer of contents refuses, and the nearest that it takes.
pub fn content_limit(n: u64) -> bool {
    match n {
        0 => content_refused(0x1_0000_0000_0000, 30, Refusal::Unfit),
        1 => content_refused(u64::MAX, 30, Refusal::Unfit),
        2 => content_taken(0xFFFF_FFFF_FFFF, 30, 0xFFFF_FFFF_FFFF),
        3 => content_refused(0, 29, Refusal::Short),
        4 => content_refused(0, 0, Refusal::Short),
        5 => content_taken(0, 30, 0),
        6 => content_refused(0x1_0000_0000_0000, 29, Refusal::Unfit),
        _ => content_refused(u64::MAX, 0, Refusal::Unfit),
    }
}

// F(1) over bytes of one value: byte 46 and the bytes past the message are left.
pub fn left(n: u64) -> bool {
    let v = (n % 256) as u8;
    let mut want = F;
    want[46] = v;
    codec::gives(frames::f_message(), MessageType::Announce, v, &want)
}
