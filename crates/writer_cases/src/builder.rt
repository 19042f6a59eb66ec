// Cases of the builder: what it writes, what it refuses, and the bytes that it leaves.
use refused::Refusal;
use tlv_builder::TlvSetBuilder;
use vectors::{framing, room};

// Values.
const FOUR: [u8; 4] = *b"\xAA\xBB\xCC\xDD";

const TWO: [u8; 2] = *b"\x01\x02";

// Writes an entry into the first bytes of a target.
fn write(target: &mut [u8], room: usize, number: u16, value: &[u8]) -> Result<(), Refusal> {
    tlv_builder::write_entry(framing::first_mut(target, room), number, value)
}

// Adds an entry in the first bytes of a target.
fn add(
    b: TlvSetBuilder,
    target: &mut [u8],
    room: usize,
    number: u16,
    value: &[u8],
) -> Result<TlvSetBuilder, Refusal> {
    b.add(framing::first_mut(target, room), number, value)
}

// How many bytes are used after an addition.
fn used_after(r: Result<TlvSetBuilder, Refusal>) -> Result<usize, Refusal> {
    r.map(|b| b.used)
}

// Whether an entry of type 0x4000 is written into a room as these bytes.
fn written(room: usize, value: &[u8], bytes: &[u8]) -> bool {
    let mut target = [0u8; 40];
    room::fill(&mut target);
    write(&mut target, room, 0x4000, value).is_ok() && room::holds_over(&target, bytes)
}

// Whether it is refused so, and every byte left.
fn unwritten(room: usize, value: &[u8], why: Refusal) -> bool {
    let mut target = [0u8; 40];
    room::fill(&mut target);
    write(&mut target, room, 0x4000, value) == Err(why) && room::holds_over(&target, b"")
}

// Whether an entry is written as these bytes in a room that has so many, else refused.
fn in_room(room: usize, value: &[u8], bytes: &[u8]) -> bool {
    if room < bytes.len() {
        unwritten(room, value, Refusal::Short)
    } else {
        written(room, value, bytes)
    }
}

// A value of 4 bytes, of none and of 3 in each room from 0 to 32.
pub fn entry(n: u64) -> bool {
    let room = (n % 33) as usize;
    match n / 33 {
        0 => in_room(room, &FOUR, b"\x40\x00\x00\x04\xAA\xBB\xCC\xDD"),
        1 => in_room(room, b"", b"\x40\x00\x00\x00"),
        _ => unwritten(room, b"\xAA\xBB\xCC", Refusal::Unfit),
    }
}

// An entry of every type.
pub fn entry_type(n: u64) -> bool {
    let mut target = [0u8; 12];
    room::fill(&mut target);
    let mut want = *b"\x00\x00\x00\x02\x01\x02";
    want[0] = (n / 256 % 256) as u8;
    want[1] = (n % 256) as u8;
    write(&mut target, 12, (n % 65536) as u16, &TWO).is_ok() && room::holds_over(&target, &want)
}

// Whether 4 bytes are added after so many used ones as an entry of type 8, which ends within 32 bytes.
fn added(used: usize) -> bool {
    let mut target = [0u8; 40];
    let mut want = [0u8; 40];
    room::fill(&mut target);
    room::fill(&mut want);
    let at = used % 32;
    wire::put_bytes(&mut want, at, b"\x00\x08\x00\x04\xAA\xBB\xCC\xDD");
    let r = add(TlvSetBuilder { used }, &mut target, 32, 8, &FOUR);
    used_after(r) == Ok(at + 8) && target == want
}

// Whether nothing is added after so many used bytes of a room.
fn left(used: usize, room: usize, value: &[u8], why: Refusal) -> bool {
    let mut target = [0u8; 40];
    room::fill(&mut target);
    let r = add(TlvSetBuilder { used }, &mut target, room, 8, value);
    used_after(r) == Err(why) && room::holds_over(&target, b"")
}

// Each number of used bytes from 0 to 40 of 32, before 4 bytes and before an odd value.
pub fn used(n: u64) -> bool {
    let used = (n % 41) as usize;
    if 41 <= n {
        return left(used, 32, b"\xAA\xBB\xCC", Refusal::Unfit);
    }
    if used <= 24 {
        return added(used);
    }
    left(used, 32, &FOUR, Refusal::Short)
}

pub fn refusal(n: u64) -> bool {
    match n {
        0 => left(0, 32, b"\x01", Refusal::Unfit),
        1 => left(0, 0, b"\x01", Refusal::Unfit),
        2 => left(usize::MAX, 32, b"\x01", Refusal::Unfit),
        3 => left(usize::MAX, 0, b"\x01", Refusal::Unfit),
        4 => left(0, 0, b"", Refusal::Short),
        5 => left(0, 3, b"", Refusal::Short),
        6 => left(0, 5, &TWO, Refusal::Short),
        7 => left(27, 32, &TWO, Refusal::Short),
        8 => left(29, 32, b"", Refusal::Short),
        9 => left(32, 32, b"", Refusal::Short),
        10 => left(33, 32, b"", Refusal::Short),
        11 => left(usize::MAX, 32, b"", Refusal::Short),
        12 => left(usize::MAX, 0, b"", Refusal::Short),
        13 => left(usize::MAX - 5, 32, &TWO, Refusal::Short),
        14 => left(1, 0, b"", Refusal::Short),
        _ => left(4, 9, &TWO, Refusal::Short),
    }
}

// Lays an entry of type 8 whose length field says 65,534 from at on, where there is room.
fn lay_long(target: &mut [u8], at: usize, value: &[u8]) {
    if at <= 8 && value.len() <= 65534 && 12 + value.len() <= target.len() {
        wire::put_be(target, at, 4, 0x0008_FFFE);
        wire::put_bytes(target, at + 4, value);
    }
}

// A value of a size, added after so many used bytes of a room: refused, or written up to this end.
fn long(size: usize, used: usize, room: usize, want: Result<usize, Refusal>) -> bool {
    let value = [0x5Au8; 65600];
    let mut target = [0u8; 65600];
    let mut bytes = [0u8; 65600];
    room::fill(&mut target);
    room::fill(&mut bytes);
    let part = framing::first(&value, size);
    let r = add(TlvSetBuilder { used }, &mut target, room, 8, part);
    if want.is_ok() {
        lay_long(&mut bytes, used, part);
    }
    used_after(r) == want && target == bytes
}

pub fn long_value(n: u64) -> bool {
    match n {
        0 => long(65534, 0, 65538, Ok(65538)),
        1 => long(65534, 0, 65537, Err(Refusal::Short)),
        2 => long(65534, 0, 65600, Ok(65538)),
        3 => long(65534, 6, 65544, Ok(65544)),
        4 => long(65534, 6, 65543, Err(Refusal::Short)),
        5 => long(65536, 0, 65600, Err(Refusal::Unfit)),
        6 => long(65536, 0, 0, Err(Refusal::Unfit)),
        7 => long(65535, 0, 65600, Err(Refusal::Unfit)),
        8 => long(65538, 0, 65600, Err(Refusal::Unfit)),
        9 => long(65536, usize::MAX, 65600, Err(Refusal::Unfit)),
        10 => long(65533, 0, 65600, Err(Refusal::Unfit)),
        11 => long(65534, 0, 0, Err(Refusal::Short)),
        _ => long(65534, usize::MAX, 65600, Err(Refusal::Short)),
    }
}

// Two entries in a room, the first of these bytes: how many are used then, and what the target then holds.
fn after(first: &[u8], room: usize, want: Result<usize, Refusal>, bytes: &[u8]) -> bool {
    let mut target = [0u8; 40];
    room::fill(&mut target);
    let one = add(TlvSetBuilder::new(), &mut target, room, 8, first);
    let two = match one {
        Ok(b) => add(b, &mut target, room, 0x4000, &FOUR),
        Err(why) => Err(why),
    };
    used_after(two) == want && room::holds_over(&target, bytes)
}

pub fn two(n: u64) -> bool {
    match n {
        0 => after(
            &TWO,
            40,
            Ok(14),
            b"\x00\x08\x00\x02\x01\x02\x40\x00\x00\x04\xAA\xBB\xCC\xDD",
        ),
        1 => after(
            &TWO,
            14,
            Ok(14),
            b"\x00\x08\x00\x02\x01\x02\x40\x00\x00\x04\xAA\xBB\xCC\xDD",
        ),
        2 => after(&TWO, 13, Err(Refusal::Short), b"\x00\x08\x00\x02\x01\x02"),
        3 => after(
            b"",
            40,
            Ok(12),
            b"\x00\x08\x00\x00\x40\x00\x00\x04\xAA\xBB\xCC\xDD",
        ),
        4 => after(&TWO, 5, Err(Refusal::Short), b""),
        _ => after(b"\x01", 40, Err(Refusal::Unfit), b""),
    }
}
