// Senders by a letter, lists of acceptable ones by another, and the frames that they send.
ghost use Rattle.std.specs.Prelude.{◌≡◌, length};

use vectors::frames;

// Our clock.
pub const OWN: u64 = 0x0080_63FF_FE00_000A;

// Capitals are clocks in order. A small letter of the first eight is the same clock at port 2. o, p and q are our own clock at ports 1, 2
// and 257; x and y are clocks that differ from ours in their low and their high half.
pub fn clock(letter: u8) -> u64 {
    match letter {
        b'o'..=b'q' => OWN,
        b'x' => OWN + 1,
        b'y' => OWN + 0x0001_0000_0000,
        _ => 0x00AA_00FF_FE00_0000 + letter as u64 % 32,
    }
}

pub fn number(letter: u8) -> u64 {
    match letter {
        b'a'..=b'h' | b'p' => 2,
        b'q' => 257,
        _ => 1,
    }
}

// The length of a list: a any sender, with no list; i, I, J any sender, beside a list; e an empty list; l A to H; s A to P; t A to Q, one
// too many; w A and our own clock; r A, B and B again.
pub fn listed(rule: u8) -> usize {
    match rule {
        b'i' => 1,
        b'l' => 8,
        b's' | b'I' => 16,
        b't' | b'J' => 17,
        b'w' => 2,
        b'r' => 3,
        _ => 0,
    }
}

pub fn is_any(rule: u8) -> bool {
    matches!(rule, b'a' | b'i' | b'I' | b'J')
}

// The letter at a place of a list.
pub fn listed_letter(rule: u8, i: usize) -> u8 {
    match rule {
        b'i' => b'B',
        b'w' if i != 0 => b'o',
        b'r' if i != 0 => b'B',
        b'w' | b'r' => b'A',
        _ => b'A' + (i % 17) as u8,
    }
}

// How many bytes a kind of frame has: 0 none, 1 one too few; T ends with a TLV, L has bytes after its end, 4 has an odd TLV.
pub fn size(kind: u8) -> usize {
    match kind {
        b'0' => 0,
        b'1' => 63,
        b'T' | b'L' | b'4' => 70,
        _ => 64,
    }
}

// Its length field: below 34 in 3.
fn length_field(kind: u8) -> u64 {
    match kind {
        b'3' => 33,
        b'T' | b'4' => 70,
        _ => 64,
    }
}

// Its first byte: a reserved type in 2, a Sync in 5.
fn first_byte(kind: u8) -> u64 {
    match kind {
        b'2' => 4,
        b'5' => 0,
        _ => 11,
    }
}

// What is sent, and at which port it is heard: a frame of a kind by a sender, with a sequence and steps.
#[derive(Clone, Copy)]
pub struct Sent {
    pub port: u64,
    pub letter: u8,
    pub kind: u8,
    pub sequence: u64,
    pub steps: u64,
}

// A good frame.
pub fn good(port: u64, letter: u8, sequence: u64, steps: u64) -> Sent {
    Sent {
        port,
        letter,
        kind: b'g',
        sequence,
        steps,
    }
}

// The sender of a frame, its type and its length field.
fn put_sender(f: &mut [u8], sent: Sent)
    requires { length f.old ≡ 70 }
{
    wire::put_be(f, 0, 1, first_byte(sent.kind));
    wire::put_be(f, 2, 2, length_field(sent.kind));
    wire::put_be(f, 20, 8, clock(sent.letter));
    wire::put_be(f, 28, 2, number(sent.letter));
}

// What it says, and the length of its TLV.
fn put_content(f: &mut [u8], sent: Sent)
    requires { length f.old ≡ 70 }
{
    let value = if sent.kind == b'4' { 1 } else { 2 };
    wire::put_be(f, 30, 2, sent.sequence);
    wire::put_be(f, 53, 8, 0x0019_0FFF_FE00_0000 + sent.sequence % 65536);
    wire::put_be(f, 61, 2, sent.steps);
    wire::put_be(f, 66, 2, value);
}

// A frame, of which the bytes up to its size are sent.
pub fn frame(sent: Sent) -> [u8; 70] {
    let mut f = frames::LONG;
    put_sender(&mut f, sent);
    put_content(&mut f, sent);
    f
}
