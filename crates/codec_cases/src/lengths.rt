// Cases of the number of bytes given.
use refused::Refusal;
use vectors::frames::{F, LONG};
use vectors::{codec, frames};

// The first bytes: refused 1 below 34, a header and a content refused 1 below 64, else the message, which is written again as
// F(1).
fn given(s: &[u8]) -> bool {
    match s.len() {
        0..=33 => codec::refuses(s, Refusal::Short),
        34..=63 => codec::reads_header(s) && codec::refuses_content(s, Refusal::Short),
        _ => codec::round(s, frames::headed(frames::f_header(1)), 0, &F),
    }
}

// Each length from 0 to 70.
pub fn length(n: u64) -> bool {
    given(&LONG[..(n % 71) as usize])
}
