// A row of a script: tokens with one space between them.
ghost use Rattle.std.specs.Prelude.{◌≤◌};

use refused::Refusal;

pub fn cell(row: &[u8], i: usize) -> u8 {
    row.get(i).copied().unwrap_or(b' ')
}

// Token n of a row, empty where it has fewer.
fn token(row: &[u8], n: usize) -> &[u8] {
    row.split(|c| *c == b' ').nth(n).unwrap_or(b"")
}

fn digit(c: u8) -> u64
    ensures { result ≤ 15 }
{
    match c {
        b'0'..=b'9' => c as u64 - 48,
        b'A'..=b'F' => c as u64 - 55,
        _ => 0,
    }
}

// Token n as a number.
fn number(row: &[u8], n: usize, base: u64) -> u64 {
    token(row, n).iter().fold(0u64, |x, c| {
        x.wrapping_mul(base).wrapping_add(digit(*c))
    })
}

// Token n as a hexadecimal number, and as a decimal one; 0 where there is none.

pub fn hex(row: &[u8], n: usize) -> u64 {
    number(row, n, 16)
}

pub fn decimal(row: &[u8], n: usize) -> u64 {
    number(row, n, 10)
}

// The first byte of token n.
pub fn letter(row: &[u8], n: usize) -> u8 {
    token(row, n).first().copied().unwrap_or(b' ')
}

// Token n as the number of an answer: 0 where it is done, else that of its refusal.
pub fn answer(row: &[u8], n: usize) -> Result<(), Refusal> {
    match decimal(row, n) {
        0 => Ok(()),
        1 => Err(Refusal::Short),
        2 => Err(Refusal::ReservedType),
        3 => Err(Refusal::LengthField),
        4 => Err(Refusal::OddTlv),
        5 => Err(Refusal::NoAnnounce),
        6 => Err(Refusal::NoPort),
        7 => Err(Refusal::OwnPort),
        8 => Err(Refusal::NotAcceptable),
        9 => Err(Refusal::OwnClock),
        10 => Err(Refusal::Sequence),
        11 => Err(Refusal::Steps),
        12 => Err(Refusal::NinthMaster),
        13 => Err(Refusal::LongStep),
        14 => Err(Refusal::OutOfRange),
        15 => Err(Refusal::Unfit),
        16 => Err(Refusal::Unsound),
        _ => Err(Refusal::WrongLine),
    }
}
