// Cases of frames that are read and written again. Each function runs the case of a number.
use header::PtpVersion;
use vectors::frames::{F, Message};
use vectors::{codec, frames, room};

// F(1) with n bytes from at on as x says: read as wanted, and written again over bytes of A5 with those bytes as y says.
pub fn changed(at: usize, n: usize, x: u64, y: u64, want: Message) -> bool {
    let mut frame = F;
    let mut back = F;
    back[46] = 0xA5;
    room::put(&mut frame, at, n, x);
    room::put(&mut back, at, n, y);
    codec::round(&frame, want, 0xA5, &back)
}

// The same, written again as it came.
fn kept(at: usize, n: usize, x: u64, want: Message) -> bool {
    changed(at, n, x, x, want)
}

// F(n).
pub fn sequence(n: u64) -> bool {
    let mut frame = F;
    frame[30] = (n / 256 % 256) as u8;
    frame[31] = (n % 256) as u8;
    let want = frames::headed(frames::f_header((n % 65536) as u16));
    codec::round(&frame, want, 0, &frame)
}

// The twelve flags, each by itself.
pub fn flag(n: u64) -> bool {
    let bits: u64 = match n {
        0 => 0x0100,
        1 => 0x0200,
        2 => 0x0400,
        3 => 0x2000,
        4 => 0x4000,
        5 => 0x0001,
        6 => 0x0002,
        7 => 0x0004,
        8 => 0x0008,
        9 => 0x0010,
        10 => 0x0020,
        _ => 0x0040,
    };
    kept(
        6,
        2,
        bits,
        frames::headed(frames::one_flag(frames::f_header(1), n)),
    )
}

// The flag bits that have no name, in every set of them, first without the flags and then with all.
pub fn nameless_flag(n: u64) -> bool {
    let all = n / 16 % 2;
    let flags = all * 0x677F;
    let bits = n % 2 * 0x0800 + n / 2 % 2 * 0x1000 + n / 4 % 2 * 0x8000 + n / 8 % 2 * 0x0080;
    let want = frames::headed(frames::flagged(frames::f_header(1), all == 1));
    changed(6, 2, flags + bits, flags, want)
}

// Bytes 16 to 19, each with every value.
pub fn zero_byte(n: u64) -> bool {
    let at = (16 + n / 256 % 4) as usize;
    changed(at, 1, n % 256, 0, frames::headed(frames::f_header(1)))
}

// Every control byte.
pub fn control_byte(n: u64) -> bool {
    changed(32, 1, n, 5, frames::headed(frames::f_header(1)))
}

fn correction(z: i64, bits: u64) -> bool {
    let mut h = frames::f_header(1);
    h.correction_field = z;
    kept(8, 8, bits, frames::headed(h))
}

fn utc_offset(z: i16, bits: u64) -> bool {
    let mut a = frames::f_content(frames::f_header(1));
    a.current_utc_offset = z;
    kept(44, 2, bits, frames::announced(a))
}

fn interval(z: i8, bits: u64) -> bool {
    let mut h = frames::f_header(1);
    h.log_message_interval = z;
    kept(33, 1, bits, frames::headed(h))
}

// The signed fields.
pub fn signed(n: u64) -> bool {
    match n {
        0 => correction(-1, 0xFFFF_FFFF_FFFF_FFFF),
        1 => correction(-65536, 0xFFFF_FFFF_FFFF_0000),
        2 => correction(-9_223_372_036_854_775_808, 0x8000_0000_0000_0000),
        3 => correction(9_223_372_036_854_775_807, 0x7FFF_FFFF_FFFF_FFFF),
        4 => utc_offset(-1, 0xFFFF),
        5 => utc_offset(-37, 0xFFDB),
        6 => utc_offset(-32768, 0x8000),
        7 => utc_offset(32767, 0x7FFF),
        8 => interval(-1, 0xFF),
        9 => interval(-128, 0x80),
        _ => interval(127, 0x7F),
    }
}

// Every version byte.
pub fn version(n: u64) -> bool {
    let v = PtpVersion {
        major: (n % 16) as u8,
        minor: (n / 16 % 16) as u8,
    };
    let mut h = frames::f_header(1);
    h.version = v;
    kept(1, 1, n, frames::headed(h))
}

// Every sdo: the first six bytes of F(1) with its high nibble in byte 0 and its low byte in byte 5.
pub fn sdo(n: u64) -> bool {
    let mut h = frames::f_header(1);
    h.sdo_id = (n % 4096) as u16;
    let six = 0x0B02_0040_0000 + n / 256 % 16 * 0x1000_0000_0000 + n % 256;
    kept(0, 6, six, frames::headed(h))
}

// Every accuracy.
pub fn accuracy(n: u64) -> bool {
    let mut a = frames::f_content(frames::f_header(1));
    let mut q = a.grandmaster_clock_quality;
    q.clock_accuracy = (n % 256) as u8;
    a.grandmaster_clock_quality = q;
    kept(49, 1, n, frames::announced(a))
}

// Every time source.
pub fn time_source(n: u64) -> bool {
    let mut a = frames::f_content(frames::f_header(1));
    a.time_source = (n % 256) as u8;
    kept(63, 1, n, frames::announced(a))
}
