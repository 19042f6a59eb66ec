// What programs that answer recorded lines share: the next line of the input as bytes, and the tokens of an answer.
#![tactic(auto)]

ghost use Rattle.std.specs.Prelude.{◌≤◌, length};
ghost use Rattle.replay.specs.Within.{NextWithin};

use input::Place;
use std::io::Stdin;

// Standard output, as the calls that write name it.
pub const STDOUT_FILENO: i32 = 1;

// What the input holds next: a line, whose bytes are the first `count` of the buffer; a line that does not spell bytes for which there is
// room; or its end.
#[derive(Clone, Copy)]
pub enum Next {
    Bytes { count: usize, place: Place },
    Bad { place: Place },
    End,
}

// The bytes that the n digits at the start of the line spell.
fn decoded(line: &[u8], n: usize, bytes: &mut [u8], place: Place) -> Next
    requires { n ≤ length line.now }
    ensures { NextWithin (length bytes.old) result }
{
    match hex_line::decode(&line[..n], bytes) {
        Some(count) => Next::Bytes { count, place },
        None => Next::Bad { place },
    }
}

// Reads the next line of standard input, hexadecimal digits of either case, as bytes.
pub fn next_bytes(
    stdin: Stdin,
    place: Place,
    block: &mut [u8],
    line: &mut [u8],
    bytes: &mut [u8],
) -> Next
    ensures { NextWithin (length bytes.old) result }
{
    match input::next_line(stdin, place, block, line) {
        input::Next::Line { count, place: next } => decoded(line, count, bytes, next),
        input::Next::TooLong { place: next } => Next::Bad { place: next },
        input::Next::End => Next::End,
    }
}

// Writes the number that opens an answer.
pub fn print_first(x: u8) {
    io::print_hex(STDOUT_FILENO, u64::from(x), 2);
}

// Writes a space and a number of so many digits.
pub fn print(x: u64, digits: usize) {
    io::write_all(STDOUT_FILENO, b" ");
    io::print_hex(STDOUT_FILENO, x, digits);
}

pub fn print8(x: u8) {
    print(u64::from(x), 2);
}

pub fn print16(x: u16) {
    print(u64::from(x), 4);
}

// Writes a space and a flag, or whether a number is negative.
pub fn print_flag(set: bool) {
    print(u64::from(set), 1);
}

// Writes a space and bytes.
pub fn print_bytes(s: &[u8]) {
    io::write_all(STDOUT_FILENO, b" ");
    for x in s {
        io::print_hex(STDOUT_FILENO, u64::from(*x), 2);
    }
}

// Ends an answer.
pub fn print_end() {
    io::write_all(STDOUT_FILENO, b"\n");
}

// Answers a bad line.
pub fn print_bad() {
    io::write_all(STDOUT_FILENO, b"bad line\n");
}
